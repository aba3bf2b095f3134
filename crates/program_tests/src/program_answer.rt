//! What the program answers to words and a bundle.
use node_threads::{Gate, Host, NoGate, Starter, ThreadStarter};
use pals_base::{NoMemory, Text};
use pals_io::{MemSink, MemSource};
use pals_top::pals;
use std::alloc::Global;
use std::io;
use std::sync::Wait;
use std::thread::Threads;

/// An answer: its status, its text, and the position of the end of the bundle, by line and column.
#[derive(Drop)]
pub struct ProgramAnswer {
    pub status: u8,
    pub text: Vec<u8>,
    pub end: (u64, u64),
}

impl ProgramAnswer {
    /// The status on a line, and then the text.
    pub fn lines(&self, alloc: Global) -> io::Result<Vec<u8>> {
        let mut lines = format!(in alloc; "{}\n", self.status)?.into_bytes();
        lines.extend_from_slice(self.text.as_slice())?;
        Ok(lines)
    }
}

/// How a bundle is read and an answer is written: the source gives `size` bytes a call, and the calls of
/// these numbers fail, from 1; 0 means that no call fails.
#[derive(Clone, Copy)]
pub struct Transfer {
    pub size: usize,
    pub failing_read: u64,
    pub failing_write: u64,
}

impl Transfer {
    /// One in which the source gives `size` bytes a call, and no call fails.
    pub fn whole(size: usize) -> Transfer {
        Transfer {
            size,
            failing_read: 0,
            failing_write: 0,
        }
    }
}

/// What the program answers to the words of a command line and to these bytes.
pub fn ask<R: Threads + Wait + Sync>(
    threads: &R,
    alloc: Global,
    line: &str,
    bundle: Vec<u8>,
    transfer: Transfer,
) -> io::Result<ProgramAnswer> {
    let host = Host {
        runtime: threads,
        starter: &mut ThreadStarter,
        gate: &NoGate,
    };
    ask_on(host, alloc, line, bundle, transfer)
}

/// The same on a host with this starter and this gate.
pub fn ask_on<R: Threads + Wait + Sync, W: Starter, G: Gate + Sync>(
    host: Host<'_, R, W, G>,
    alloc: Global,
    line: &str,
    bundle: Vec<u8>,
    transfer: Transfer,
) -> io::Result<ProgramAnswer> {
    if transfer.size == 0 {
        return Err(io::ErrorKind::InvalidInput.into());
    }
    let words = words(alloc, line)?;
    let end = end_of(bundle.as_slice());
    let failing_reads = calls(alloc, transfer.failing_read)?;
    let failing_writes = calls(alloc, transfer.failing_write)?;
    let mut source = MemSource::new(bundle, transfer.size, failing_reads);
    let mut sink = MemSink::new(alloc, 65_536, 8, failing_writes)?;
    let Host {
        runtime,
        starter,
        gate,
    } = host;
    let status = pals(
        runtime,
        alloc,
        words.as_slice(),
        &mut source,
        &mut sink,
        starter,
        gate,
    );
    let mut text = Vec::new(alloc);
    text.extend_from_slice(sink.taken())?;
    Ok(ProgramAnswer { status, text, end })
}

// The words of the command line.
fn words(alloc: Global, line: &str) -> Result<Vec<Text>, NoMemory> {
    let mut words = Vec::new(alloc);
    for word in line.split_whitespace() {
        words.push(Text::from_str(alloc, word)?)?;
    }
    Ok(words)
}

// The calls that fail: that of a number, if it is not 0.
fn calls(alloc: Global, number: u64) -> Result<Vec<u64>, NoMemory> {
    let mut calls = Vec::new(alloc);
    if number != 0 {
        calls.push(number)?;
    }
    Ok(calls)
}

// The position after the last byte: its line and its column, from 1.
fn end_of(bytes: &[u8]) -> (u64, u64) {
    let (mut line, mut column) = (1_u64, 1_u64);
    for byte in bytes {
        if *byte == b'\n' {
            line = line.saturating_add(1);
            column = 1;
        } else {
            column = column.saturating_add(1);
        }
    }
    (line, column)
}
