//! Names of ports and adaptors.
ghost use Rattle.std.specs.Prelude.{◌≡◌, ◌++◌, slice_get, OnOk, OnErr};
ghost use Rattle.pals_model.specs.ComponentAndLinkNames.{port_name, target_name};
ghost use Rattle.pals_report.specs.proof.TextPrefixes.{BeginsWith};
ghost use Rattle.pals_report.specs.CheckReports.{adaptor_text, and_adaptor, source_name};

use itoa::Buffer;
use pals_base::{Adaptor, NoMemory, NodeNo, PortDecl};
use pals_model::DesignParts;

// The name of a port, if it exists.
fn add_port_name(out: &mut Vec<u8>, ports: &[PortDecl], port: u32) -> Result<(), NoMemory>
    ensures ok { OnOk result (out.new.items ≡ out.old.items ++ port_name (slice_get ports.now port)) }
    ensures err { OnErr result (BeginsWith out.new.items out.old.items) }
{
    match ports.get(port as usize) {
        Some(port) => out.extend_from_slice(port.name.as_bytes()),
        None => Ok(()),
    }
}

/// Appends the name of an in port: its component's path, a `.`, and its own name. Errors: out of memory; a part
/// of the text may then be in the buffer.
pub fn add_target(
    out: &mut Vec<u8>,
    design: &DesignParts,
    node: NodeNo,
    port: u32,
) -> Result<(), NoMemory>
    ensures ok { OnOk result (out.new.items ≡ out.old.items ++ target_name design.now node.0 port) }
    ensures err { OnErr result (BeginsWith out.new.items out.old.items) }
{
    let Some(component) = design.components.get(node.0 as usize) else {
        return Ok(());
    };
    out.extend_from_slice(component.path.as_bytes())?;
    out.extend_from_slice(b".")?;
    add_port_name(out, component.behaviour.ins(), port)
}

/// Appends the name of an out port in the same form. Errors: out of memory; a part of the text may then be in
/// the buffer.
pub fn add_source(
    out: &mut Vec<u8>,
    design: &DesignParts,
    node: NodeNo,
    port: u32,
) -> Result<(), NoMemory>
    ensures ok { OnOk result (out.new.items ≡ out.old.items ++ source_name design.now node.0 port) }
    ensures err { OnErr result (BeginsWith out.new.items out.old.items) }
{
    let Some(component) = design.components.get(node.0 as usize) else {
        return Ok(());
    };
    out.extend_from_slice(component.path.as_bytes())?;
    out.extend_from_slice(b".")?;
    add_port_name(out, component.behaviour.outs(), port)
}

fn add_adaptor_text(out: &mut Vec<u8>, adaptor: Adaptor) -> Result<(), NoMemory>
    ensures ok { OnOk result (out.new.items ≡ out.old.items ++ adaptor_text adaptor) }
    ensures err { OnErr result (BeginsWith out.new.items out.old.items) }
{
    match adaptor {
        Adaptor::Repeat => out.extend_from_slice(b"repeat"),
        Adaptor::First => out.extend_from_slice(b"first"),
        Adaptor::Last => out.extend_from_slice(b"last"),
        Adaptor::At(place) => {
            out.extend_from_slice(b"at ")?;
            out.extend_from_slice(Buffer::new().format(place).as_bytes())
        }
        Adaptor::Latest => out.extend_from_slice(b"latest"),
        Adaptor::Max => out.extend_from_slice(b"max"),
        Adaptor::Min => out.extend_from_slice(b"min"),
        Adaptor::Average => out.extend_from_slice(b"average"),
    }
}

/// Appends a space and an adaptor, if there is one. Errors: out of memory; a part of the text may then be in
/// the buffer.
pub fn add_adaptor(out: &mut Vec<u8>, adaptor: Option<Adaptor>) -> Result<(), NoMemory>
    ensures ok { OnOk result (out.new.items ≡ out.old.items ++ and_adaptor adaptor) }
    ensures err { OnErr result (BeginsWith out.new.items out.old.items) }
{
    let Some(adaptor) = adaptor else {
        return Ok(());
    };
    out.extend_from_slice(b" ")?;
    add_adaptor_text(out, adaptor)
}
