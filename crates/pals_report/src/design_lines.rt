//! The lines of components, links, feeds, taps and ignored names.
ghost use Rattle.std.specs.Prelude.{◌≡◌, ◌++◌, map, OnOk, OnErr};
ghost use Rattle.pals_model.specs.RoundTexts.{text_of, line_end};
ghost use Rattle.pals_report.specs.proof.TextPrefixes.{BeginsWith};
ghost use Rattle.pals_report.specs.CheckReports.{component_line, link_line, feed_line, tap_line, ignored_line};

use crate::port_and_adaptor_names::{add_adaptor, add_source, add_target};
use itoa::Buffer;
use pals_base::{NoMemory, Text};
use pals_model::{Component, DesignParts, Feed, Link, Tap};

fn add_component(out: &mut Vec<u8>, component: &Component) -> Result<(), NoMemory>
    ensures ok { OnOk result (out.new.items ≡ out.old.items ++ component_line component.now ++ line_end) }
    ensures err { OnErr result (BeginsWith out.new.items out.old.items) }
{
    out.extend_from_slice(b"component ")?;
    out.extend_from_slice(component.path.as_bytes())?;
    out.extend_from_slice(b" rate ")?;
    out.extend_from_slice(Buffer::new().format(component.rate).as_bytes())?;
    out.extend_from_slice(b"\n")
}

fn add_link(out: &mut Vec<u8>, design: &DesignParts, link: &Link) -> Result<(), NoMemory>
    ensures ok { OnOk result (out.new.items ≡ out.old.items ++ link_line design.now link.now ++ line_end) }
    ensures err { OnErr result (BeginsWith out.new.items out.old.items) }
{
    out.extend_from_slice(b"link ")?;
    add_source(out, design, link.source, link.out_port)?;
    out.extend_from_slice(b" -> ")?;
    add_target(out, design, link.target, link.in_port)?;
    add_adaptor(out, link.adaptor)?;
    out.extend_from_slice(b"\n")
}

fn add_feed(out: &mut Vec<u8>, design: &DesignParts, feed: &Feed) -> Result<(), NoMemory>
    ensures ok { OnOk result (out.new.items ≡ out.old.items ++ feed_line design.now feed.now ++ line_end) }
    ensures err { OnErr result (BeginsWith out.new.items out.old.items) }
{
    out.extend_from_slice(b"input ")?;
    out.extend_from_slice(feed.name.as_bytes())?;
    out.extend_from_slice(b" -> ")?;
    add_target(out, design, feed.target, feed.in_port)?;
    add_adaptor(out, feed.adaptor)?;
    out.extend_from_slice(b"\n")
}

fn add_tap(out: &mut Vec<u8>, design: &DesignParts, tap: &Tap) -> Result<(), NoMemory>
    ensures ok { OnOk result (out.new.items ≡ out.old.items ++ tap_line design.now tap.now ++ line_end) }
    ensures err { OnErr result (BeginsWith out.new.items out.old.items) }
{
    out.extend_from_slice(b"output ")?;
    add_source(out, design, tap.source, tap.out_port)?;
    out.extend_from_slice(b" -> ")?;
    out.extend_from_slice(tap.name.as_bytes())?;
    out.extend_from_slice(b"\n")
}

fn add_ignored(out: &mut Vec<u8>, name: &Text) -> Result<(), NoMemory>
    ensures ok { OnOk result (out.new.items ≡ out.old.items ++ ignored_line name.now ++ line_end) }
    ensures err { OnErr result (BeginsWith out.new.items out.old.items) }
{
    out.extend_from_slice(b"ignored ")?;
    out.extend_from_slice(name.as_bytes())?;
    out.extend_from_slice(b"\n")
}

/// Appends a line for each component. Errors: out of memory; a part of the text may then be in the buffer.
pub fn add_components(out: &mut Vec<u8>, components: &[Component]) -> Result<(), NoMemory>
    ensures ok { OnOk result
        (out.new.items ≡ out.old.items ++ text_of (map component_line components.now)) }
    ensures err { OnErr result (BeginsWith out.new.items out.old.items) }
{
    for component in components {
        add_component(out, component)?;
    }
    Ok(())
}

/// Appends a line for each of these links of the design. Errors: out of memory; a part of the text may then be
/// in the buffer.
#[tactic(auto, using(crate::proofs::LinePerItem::lines_turn))]
pub fn add_links(out: &mut Vec<u8>, design: &DesignParts, links: &[Link]) -> Result<(), NoMemory>
    ensures ok { OnOk result
        (out.new.items ≡ out.old.items ++ text_of (map (link_line design.now) links.now)) }
    ensures err { OnErr result (BeginsWith out.new.items out.old.items) }
{
    for link in links {
        add_link(out, design, link)?;
    }
    Ok(())
}

/// Appends a line for each of these feeds of the design. Errors: out of memory; a part of the text may then be
/// in the buffer.
pub fn add_feeds(out: &mut Vec<u8>, design: &DesignParts, feeds: &[Feed]) -> Result<(), NoMemory>
    ensures ok { OnOk result
        (out.new.items ≡ out.old.items ++ text_of (map (feed_line design.now) feeds.now)) }
    ensures err { OnErr result (BeginsWith out.new.items out.old.items) }
{
    for feed in feeds {
        add_feed(out, design, feed)?;
    }
    Ok(())
}

/// Appends a line for each of these taps of the design. Errors: out of memory; a part of the text may then be
/// in the buffer.
pub fn add_taps(out: &mut Vec<u8>, design: &DesignParts, taps: &[Tap]) -> Result<(), NoMemory>
    ensures ok { OnOk result
        (out.new.items ≡ out.old.items ++ text_of (map (tap_line design.now) taps.now)) }
    ensures err { OnErr result (BeginsWith out.new.items out.old.items) }
{
    for tap in taps {
        add_tap(out, design, tap)?;
    }
    Ok(())
}

/// Appends a line for each name without meaning. Errors: out of memory; a part of the text may then be in the
/// buffer.
pub fn add_ignored_name_lines(out: &mut Vec<u8>, names: &[Text]) -> Result<(), NoMemory>
    ensures ok { OnOk result
        (out.new.items ≡ out.old.items ++ text_of (map ignored_line names.now)) }
    ensures err { OnErr result (BeginsWith out.new.items out.old.items) }
{
    for name in names {
        add_ignored(out, name)?;
    }
    Ok(())
}
