//! A cursor in a text, which formats positions as line and column.
ghost use Rattle.std.specs.Prelude.{◌≡◌, ◌++◌, ◌≤◌, length, min, OnOk, OnErr};
ghost use Rattle.pals_report.specs.proof.TextPrefixes.{BeginsWith};
ghost use Rattle.bundle_designs.specs.LinesAndColumns.{line_of, column_of, position_text};

use itoa::Buffer;
use pals_base::NoMemory;

/// A position in a text, with its line and its column. A cursor continues from its last position, so increasing
/// positions take one pass through the text in total.
#[derive(Drop)]
pub struct Cursor<'t> {
    text: &'t [u8],
    at: usize,
    line: usize,
    column: usize,
    ghost within: { at ≤ length text.now },
    ghost line_is: { line ≡ line_of text.now at },
    ghost column_is: { column ≡ column_of text.now at },
}

impl<'t> Cursor<'t> {
    /// Returns a cursor at the first byte of the text.
    pub fn new(text: &'t [u8]) -> Cursor<'t>
        ensures text { result.text.now ≡ text.now }
        ensures at { result.at ≡ 0 }
    {
        Cursor {
            text,
            at: 0,
            line: 1,
            column: 1,
        }
    }

    // Moves forward to a position.
    fn go_on(&mut self, at: usize)
        requires forward { self.old.at ≤ at }
        requires within { at ≤ length self.old.text.now }
        ensures text { self.new.text.now ≡ self.old.text.now }
        ensures at { self.new.at ≡ at }
    {
        let mut line = self.line;
        let mut column = self.column;
        for place in self.at..at {
            if self.text[place] == b'\n' {
                line += 1;
                column = 1;
            } else {
                column += 1;
            }
        }
        *self = Cursor {
            text: self.text,
            at,
            line,
            column,
        };
    }

    // Moves to a position, or to the end of the text if the position is after it.
    fn go_to(&mut self, at: usize)
        ensures text { self.new.text.now ≡ self.old.text.now }
        ensures at { self.new.at ≡ min at (length self.old.text.now) }
    {
        let at = at.min(self.text.len());
        if at < self.at {
            *self = Cursor::new(self.text);
        }
        self.go_on(at);
    }

    /// Appends `LINE:COLUMN` of the byte at an offset. Errors: out of memory; a part of the text may then be in
    /// the buffer.
    pub fn add_position(&mut self, out: &mut Vec<u8>, at: usize) -> Result<(), NoMemory>
        ensures text { self.new.text.now ≡ self.old.text.now }
        ensures ok { OnOk result (out.new.items ≡ out.old.items ++ position_text self.old.text.now at) }
        ensures err { OnErr result (BeginsWith out.new.items out.old.items) }
    {
        self.go_to(at);
        out.extend_from_slice(Buffer::new().format(self.line).as_bytes())?;
        out.extend_from_slice(b":")?;
        out.extend_from_slice(Buffer::new().format(self.column).as_bytes())
    }
}
