//! Builds the input text of a case.
use std::alloc::Global;
use std::io::ErrorKind::InvalidData;
use std::{fs, io};

/// Returns the input text of a case. Errors: a file of the case cannot be read.
pub fn text_of(rt: &HostRuntime, case: &str) -> io::Result<Vec<u8>> {
    let mut text = Vec::new(rt.alloc());
    for line in case.lines() {
        let (word, rest) = line.split_once(' ').unwrap_or((line, ""));
        add(rt, &mut text, word, rest)?;
    }
    Ok(text)
}

// Appends the text of a line, or changes the text so far.
fn add(rt: &HostRuntime, text: &mut Vec<u8>, word: &str, rest: &str) -> io::Result<()> {
    match word {
        "text" => add_line(text, rest),
        "part" => add_part(text, rest),
        "byte" => add_byte(text, rest),
        "file" => add_file(rt, text, rest),
        "lines" => add_lines(rt, text, rest),
        "change" => change(rt.alloc(), text, rest),
        "repeat" => repeat(rt.alloc(), text, rest),
        "within" => surround(rt, text, rest),
        _ => Ok(()),
    }
}

fn add_part(text: &mut Vec<u8>, part: &str) -> io::Result<()> {
    text.extend_from_slice(part.as_bytes())?;
    Ok(())
}

fn add_line(text: &mut Vec<u8>, line: &str) -> io::Result<()> {
    add_part(text, line)?;
    add_part(text, "\n")
}

fn add_byte(text: &mut Vec<u8>, number: &str) -> io::Result<()> {
    let byte = number.parse::<u8>().ok().ok_or(InvalidData)?;
    text.push(byte)?;
    Ok(())
}

fn add_file(rt: &HostRuntime, text: &mut Vec<u8>, name: &str) -> io::Result<()> {
    let file = fs::read(rt, name)?;
    text.extend_from_slice(file.as_slice())?;
    Ok(())
}

// A number, and the text after it and a blank.
fn counted(rest: &str) -> Option<(usize, &str)> {
    let (count, rest) = rest.split_once(' ')?;
    Some((count.parse::<usize>().ok()?, rest))
}

// The first and the last line number, and a name.
fn span(rest: &str) -> Option<(usize, usize, &str)> {
    let (first, rest) = counted(rest)?;
    let (last, name) = counted(rest)?;
    Some((first, last, name))
}

fn add_span(text: &mut Vec<u8>, file: &str, first: usize, last: usize) -> io::Result<()> {
    for (index, line) in file.lines().enumerate() {
        if first <= index.saturating_add(1) && index < last {
            add_line(text, line)?;
        }
    }
    Ok(())
}

fn add_lines(rt: &HostRuntime, text: &mut Vec<u8>, rest: &str) -> io::Result<()> {
    let (first, last, name) = span(rest).ok_or(InvalidData)?;
    let file = fs::read_to_string(rt, name)?;
    add_span(text, file.as_str(), first, last)
}

// The text before a part, and the text after it.
fn around<'a>(text: &'a [u8], part: &str) -> Option<(&'a str, &'a str)> {
    std::str::from_utf8(text).ok()?.split_once(part)
}

// A text in which the first occurrence of a part is replaced.
fn replaced(alloc: Global, text: &[u8], old: &str, new: &str) -> io::Result<Vec<u8>> {
    let (front, back) = around(text, old).ok_or(InvalidData)?;
    Ok([front, new, back].join(alloc, "")?.into_bytes())
}

// The two sides of a change.
fn sides(rest: &str) -> Option<(&str, &str)> {
    let (old, new) = rest.split_once(" ~>")?;
    Some((old, new.strip_prefix(" ").unwrap_or(new)))
}

fn change(alloc: Global, text: &mut Vec<u8>, rest: &str) -> io::Result<()> {
    let (old, new) = sides(rest).ok_or(InvalidData)?;
    *text = replaced(alloc, text.as_slice(), old, new)?;
    Ok(())
}

fn repeat(alloc: Global, text: &mut Vec<u8>, rest: &str) -> io::Result<()> {
    let (count, part) = counted(rest).ok_or(InvalidData)?;
    let parts = part.repeat(alloc, count)?;
    *text = replaced(alloc, text.as_slice(), part, parts.as_str())?;
    Ok(())
}

fn surround(rt: &HostRuntime, text: &mut Vec<u8>, name: &str) -> io::Result<()> {
    let file = fs::read(rt, name)?;
    let inner = std::str::from_utf8(text.as_slice())
        .ok()
        .ok_or(InvalidData)?;
    *text = replaced(rt.alloc(), file.as_slice(), "@", inner)?;
    Ok(())
}
