//! The lines of sent messages.
ghost use Rattle.std.specs.Prelude.{◌≡◌, ◌++◌, ◌<◌, length, OnOk, OnErr};
ghost use Rattle.pals_model.specs.RoundTexts.{line_end};
ghost use Rattle.pals_report.specs.SentMessageLines.{sent_line};

use crate::line_word::{LineWord, add_line, link_word};
use pals_base::{LinkNo, NoMemory, PortValue};
use pals_model::Design;

/// Appends the line of the message that was sent on a link in a round, with the link's own type. Errors: out of
/// memory; the buffer is then unchanged.
pub fn add_sent<'a>(
    out: &mut Vec<u8>,
    design: &'a Design,
    link: LinkNo,
    round: u32,
    tuple: &'a [PortValue],
) -> Result<(), NoMemory>
    requires { link.0 < length design.now.links }
    ensures ok { OnOk result
        (out.new.items ≡ out.old.items ++ sent_line design.now link.0 round tuple.now ++ line_end) }
    ensures err { OnErr result (out.new.items ≡ out.old.items) }
{
    let design = design.parts();
    let source = &design.links[link.0 as usize];
    let kind = design.out_kind(source.source, source.out_port);
    let round = LineWord::Number(u64::from(round));
    add_line(
        out,
        &[
            LineWord::Bytes(b"sent"),
            link_word(design, link),
            round,
            LineWord::Tuple(kind, tuple),
        ],
    )
}
