//! Bundles: the text of a design, the line `%%%`, and a scenario.
ghost use Rattle.std.specs.Prelude.{◌≡◌, ◌<◌, length, MatchOption};
ghost use Rattle.std.specs.Option.{option_copied};
ghost use Rattle.bundle_designs.specs.Bundles.{behind_line_end, divided_at, IsSplit, HasNoDivider};

/// Returns the design's text, which ends at the start of the first line `%%%`, and the bytes after that line.
/// Returns `None` if and only if no line is `%%%`, ended by LF, CR LF or the bundle's end.
pub fn split(bundle: &[u8]) -> Option<(&[u8], &[u8])>
    ensures { MatchOption result (HasNoDivider bundle.now) (λ parts. IsSplit bundle.now parts.0.now parts.1.now) }
{
    for at in 0..bundle.len() {
        if let Some(scenario) = divided_at(bundle, at) {
            return Some((&bundle[..at], scenario));
        }
    }
    None
}

// The bytes after the line that begins at a position, if the line is `%%%`.
fn divided_at(bundle: &[u8], at: usize) -> Option<&[u8]>
    requires { at < length bundle.now }
    ensures { option_copied result ≡ divided_at bundle.now at }
{
    if at > 0 && bundle[at - 1] != b'\n' {
        return None;
    }
    match bundle[at..].strip_prefix(b"%%%") {
        Some(line) => behind_line_end(line),
        None => None,
    }
}

// The bytes after the end of a line.
fn behind_line_end(line: &[u8]) -> Option<&[u8]>
    ensures { option_copied result ≡ behind_line_end line.now }
{
    match line {
        [] => Some(line),
        [b'\n', rest @ ..] => Some(rest),
        [b'\r', b'\n', rest @ ..] => Some(rest),
        _ => None,
    }
}
