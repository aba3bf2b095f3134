//! The question of a case, and the comparison with the expected output.
use std::{fs, io};

/// A program under test.
pub trait Answers {
    /// Returns the output for a case, in lines. Errors: a file of the case cannot be read.
    fn answer(&self, rt: &HostRuntime, case: &str) -> io::Result<Vec<u8>>;
}

/// Prints, for each case in the files with these names, whether the output of the program is the expected one.
/// Errors: a file cannot be read, or standard output fails.
pub fn check<P: Answers>(rt: &HostRuntime, program: &P, names: &[&str]) -> io::Result<()> {
    for name in names {
        check_file(rt, program, name)?;
    }
    Ok(())
}

fn check_file<P: Answers>(rt: &HostRuntime, program: &P, name: &str) -> io::Result<()> {
    let file = format!(in rt.alloc(); "{name}.cases")?;
    let cases = fs::read_to_string(rt, file)?;
    check_cases(rt, program, name, cases.as_str())
}

fn check_cases<P: Answers>(
    rt: &HostRuntime,
    program: &P,
    name: &str,
    cases: &str,
) -> io::Result<()> {
    for (index, case) in cases.split("\n\n").enumerate() {
        check_case(rt, program, name, index.saturating_add(1), case)?;
    }
    Ok(())
}

fn check_case<P: Answers>(
    rt: &HostRuntime,
    program: &P,
    name: &str,
    number: usize,
    case: &str,
) -> io::Result<()> {
    let answer = program.answer(rt, case)?;
    check_answer(rt, name, number, case, answer.as_slice())
}

/// Prints whether the output for a case is the expected one, and prints a wrong output. Errors: standard output
/// fails.
pub fn check_answer(
    rt: &HostRuntime,
    name: &str,
    number: usize,
    case: &str,
    answer: &[u8],
) -> io::Result<()> {
    if is_answer(case, answer) {
        return println!(rt; "{name} {number}: right");
    }
    let text = std::str::from_utf8(answer).unwrap_or("no text");
    println!(rt; "{name} {number}: wrong\n{text}")
}

// Whether the expected output of a case is this text.
fn is_answer(case: &str, text: &[u8]) -> bool {
    let mut left = text;
    for line in case.lines().filter_map(answer_line) {
        match behind(left, line) {
            Some(rest) => left = rest,
            None => return false,
        }
    }
    left.is_empty()
}

// The line of the expected output in a line of a case.
fn answer_line(line: &str) -> Option<&str> {
    let rest = line.strip_prefix(">")?;
    Some(rest.strip_prefix(" ").unwrap_or(rest))
}

// The bytes after a line, if the text begins with it.
fn behind<'a>(text: &'a [u8], line: &str) -> Option<&'a [u8]> {
    text.strip_prefix(line.as_bytes())?.strip_prefix(b"\n")
}

/// Returns the rest of the first line of a case with a keyword; empty if there is none.
pub fn word<'a>(case: &'a str, word: &str) -> &'a str {
    let mut lines = case.lines().filter_map(|line| line.split_once(' '));
    match lines.find(|(first, _)| *first == word) {
        Some((_, rest)) => rest,
        None => "",
    }
}

/// Returns the question of a case.
pub fn asked(case: &str) -> &str {
    word(case, "$")
}
