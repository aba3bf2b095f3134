//! Values of variables and ports, as text.
ghost use Rattle.std.specs.Prelude.{◌≡◌, ◌++◌, map, OnOk, OnErr};
ghost use Rattle.std.specs.Fmt.{signed_decimal};
ghost use Rattle.pals_model.specs.RoundTexts.{value_text, port_text, with_commas, tuple_text};
ghost use Rattle.pals_report.specs.proof.TextPrefixes.{BeginsWith};

use itoa::Buffer;
use pals_base::{Kind, NoMemory, PortValue};

fn add_number(out: &mut Vec<u8>, number: i64) -> Result<(), NoMemory>
    ensures ok { OnOk result (out.new.items ≡ out.old.items ++ signed_decimal number) }
    ensures err { OnErr result (BeginsWith out.new.items out.old.items) }
{
    out.extend_from_slice(Buffer::new().format(number).as_bytes())
}

// A number, or the name of a Boolean.
pub(crate) fn add_value(out: &mut Vec<u8>, kind: Kind, value: i64) -> Result<(), NoMemory>
    ensures ok { OnOk result (out.new.items ≡ out.old.items ++ value_text kind value) }
    ensures err { OnErr result (BeginsWith out.new.items out.old.items) }
{
    match kind {
        Kind::Integer => add_number(out, value),
        Kind::Boolean if value == 0 => out.extend_from_slice(b"false"),
        Kind::Boolean => out.extend_from_slice(b"true"),
    }
}

// A value, or the sign for an absent one.
fn add_port(out: &mut Vec<u8>, kind: Kind, port: PortValue) -> Result<(), NoMemory>
    ensures ok { OnOk result (out.new.items ≡ out.old.items ++ port_text kind port) }
    ensures err { OnErr result (BeginsWith out.new.items out.old.items) }
{
    match port {
        PortValue::Absent => out.extend_from_slice(b"_"),
        PortValue::Present(value) => add_value(out, kind, value),
    }
}

// The values of a tuple, separated by commas.
fn add_places(out: &mut Vec<u8>, kind: Kind, tuple: &[PortValue]) -> Result<(), NoMemory>
    ensures ok { OnOk result
        (out.new.items ≡ out.old.items ++ with_commas (map (port_text kind) tuple.now)) }
    ensures err { OnErr result (BeginsWith out.new.items out.old.items) }
{
    let [first, rest @ ..] = tuple else {
        return Ok(());
    };
    add_port(out, kind, *first)?;
    for port in rest {
        out.extend_from_slice(b",")?;
        add_port(out, kind, *port)?;
    }
    Ok(())
}

/// Appends a tuple of values of one type, in parentheses. Errors: out of memory; a part of the text may then be
/// in the buffer.
pub fn add_tuple(out: &mut Vec<u8>, kind: Kind, tuple: &[PortValue]) -> Result<(), NoMemory>
    ensures ok { OnOk result (out.new.items ≡ out.old.items ++ tuple_text kind tuple.now) }
    ensures err { OnErr result (BeginsWith out.new.items out.old.items) }
{
    out.extend_from_slice(b"(")?;
    add_places(out, kind, tuple)?;
    out.extend_from_slice(b")")
}
