//! The answers to a numbered series of cases, in one line for each range of numbers that follow one another with one
//! status and first line.
use crate::program_answer::ProgramAnswer;
use std::alloc::Global;
use std::io;

/// The lines so far, and the one that may still grow: its first and its last number, and its text.
#[derive(Drop)]
pub struct AnswerRanges {
    text: String,
    first: u64,
    last: u64,
    says: String,
}

impl AnswerRanges {
    pub fn new(alloc: Global) -> AnswerRanges {
        AnswerRanges {
            text: String::new(alloc),
            first: 0,
            last: 0,
            says: String::new(alloc),
        }
    }

    /// Adds the answer of a number.
    pub fn add(&mut self, alloc: Global, number: u64, asked: &ProgramAnswer) -> io::Result<()> {
        let says = said(alloc, asked)?;
        if self.says.as_str() != says.as_str() {
            self.end_line()?;
            self.first = number;
            self.says = says;
        }
        self.last = number;
        Ok(())
    }

    // Adds the line that grew.
    fn end_line(&mut self) -> io::Result<()> {
        if !self.says.is_empty() {
            write!(
                self.text,
                "{} to {}: {}\n",
                self.first, self.last, self.says
            )?;
        }
        Ok(())
    }

    /// All lines.
    pub fn text(mut self) -> io::Result<Vec<u8>> {
        self.end_line()?;
        Ok(self.text.into_bytes())
    }
}

// The status of an answer and its first line, with its places as words.
fn said(alloc: Global, asked: &ProgramAnswer) -> io::Result<String> {
    let mut says = format!(in alloc; "{}", asked.status)?;
    let text = std::str::from_utf8(asked.text.as_slice()).unwrap_or("no text");
    let line = text.lines().next().unwrap_or("");
    for word in line.split_whitespace() {
        let shown = shown(word, asked.end);
        write!(says, " {shown}")?;
    }
    Ok(says)
}

// A word of an answer, or the sign of a position.
fn shown(word: &str, end: (u64, u64)) -> &str {
    match place(word) {
        Some(place) if place == end => "END",
        Some(_) => "_",
        None => word,
    }
}

// The line and the column that a word gives.
fn place(word: &str) -> Option<(u64, u64)> {
    let (line, column) = word.split_once(':')?;
    Some((line.parse().ok()?, column.parse().ok()?))
}
