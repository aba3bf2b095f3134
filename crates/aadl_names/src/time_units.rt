//! Units of time.

ghost use Rattle.std.specs.Prelude.{◌≡◌};
ghost use Rattle.aadl_names.specs.PropertyValueShapes as spec;

/// A unit of time in nanoseconds.
pub fn unit_of(name: &str) -> Option<u64>
    ensures { result ≡ spec.unit_of name.now }
{
    if name.eq_ignore_ascii_case("ns") {
        Some(1)
    } else if name.eq_ignore_ascii_case("us") {
        Some(1_000)
    } else if name.eq_ignore_ascii_case("ms") {
        Some(1_000_000)
    } else if name.eq_ignore_ascii_case("sec") {
        Some(1_000_000_000)
    } else if name.eq_ignore_ascii_case("min") {
        Some(60_000_000_000)
    } else if name.eq_ignore_ascii_case("hr") {
        Some(3_600_000_000_000)
    } else {
        None
    }
}
