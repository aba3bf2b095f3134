//! Strings without their quotes.
ghost use Rattle.std.specs.Prelude.{◌≡◌};
ghost use Rattle.aadl_names.specs.PropertyValueShapes as properties;

/// Returns the bytes between the quotes of a string.
pub fn unquoted(bytes: &[u8]) -> &[u8]
    ensures { result.now ≡ properties.unquoted bytes.now }
{
    match bytes {
        [_, inner @ .., _] => inner,
        _ => &[],
    }
}
