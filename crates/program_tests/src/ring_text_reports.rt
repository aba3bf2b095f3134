//! Rings as AADL texts: what `check` answers to the text of a ring is the report of the design that `ring` makes.
ghost use Rattle.std.specs.Prelude.{◌≤◌, ◌<◌};
ghost use Rattle.pals_base.specs.declared.limits.TheConstants.{COMPONENTS};

use case_files::text_of;
use node_threads::{NoGate, ThreadStarter};
use pals_base::{NoMemory, Text};
use pals_io::{MemSink, MemSource};
use pals_report::add_check;
use pals_top::pals;
use pals_top::status::DONE;
use std::alloc::Global;
use std::io;
use std::sync::Wait;
use std::thread::Threads;
use world_gen::ring;

/// Writes whether the report on the text of a ring is that of its design.
pub fn check_ring<R: Threads + Wait + Sync>(
    threads: &R,
    rt: &HostRuntime,
    nodes: u32,
) -> io::Result<()>
    requires some { 2 ≤ nodes }
    requires most { nodes ≤ COMPONENTS }
{
    let verdict = if is_right(threads, rt, nodes)? {
        "right"
    } else {
        "wrong"
    };
    println!(rt; "ring {nodes}: {verdict}")
}

fn is_right<R: Threads + Wait + Sync>(threads: &R, rt: &HostRuntime, nodes: u32) -> io::Result<bool>
    requires some { 2 ≤ nodes }
    requires most { nodes ≤ COMPONENTS }
{
    let alloc = rt.alloc();
    let mut report = Vec::new(alloc);
    add_check(alloc, &mut report, &ring(alloc, nodes)?)?;
    let mut words = Vec::new(alloc);
    words.push(Text::from_str(alloc, "check")?)?;
    words.push(Text::from_str(alloc, "Top.impl")?)?;
    let mut source = MemSource::new(ring_text(rt, nodes)?, 4096, Vec::new(alloc));
    let mut sink = MemSink::new(alloc, report.len(), 4096, Vec::new(alloc))?;
    let status = pals(
        threads,
        alloc,
        words.as_slice(),
        &mut source,
        &mut sink,
        &mut ThreadStarter,
        &NoGate,
    );
    Ok(status == DONE && sink.taken() == report.as_slice())
}

// The AADL text of a ring: its threads and connections in the place that its file keeps for them.
fn ring_text(rt: &HostRuntime, nodes: u32) -> io::Result<Vec<u8>>
    requires { 1 ≤ nodes }
{
    let alloc = rt.alloc();
    let mut case = Vec::new(alloc);
    for node in 0..nodes {
        let line = thread(alloc, node)?;
        case.extend_from_slice(line.as_bytes())?;
    }
    case.extend_from_slice(b"text connections\n")?;
    for node in 0..nodes {
        let line = connection(alloc, node, nodes)?;
        case.extend_from_slice(line.as_bytes())?;
    }
    case.extend_from_slice(b"within ring.aadl\n")?;
    let case = std::str::from_utf8(case.as_slice())
        .ok()
        .ok_or(io::ErrorKind::InvalidData)?;
    text_of(rt, case)
}

// A thread of a ring, with its rate in a round of 20 ms: 1, 2 or 4.
fn thread(alloc: Global, node: u32) -> Result<String, NoMemory> {
    let period = match node % 3 {
        0 => "",
        1 => " {Period => 10 ms;}",
        _ => " {Period => 5 ms;}",
    };
    format!(in alloc; "text t{node}: thread Node.impl{period};\n")
}

// The connection into a thread from the one before it, and into the first from the last.
fn connection(alloc: Global, node: u32, nodes: u32) -> Result<String, NoMemory>
    requires { node < nodes }
{
    let before = if node == 0 { nodes - 1 } else { node - 1 };
    let adaptor = match (node % 3, before % 3) {
        (1, 0) | (2, 0) | (2, 1) => " PALS_Profile::Input_Adaptor => \"repeat\";",
        (0, 1) | (0, 2) | (1, 2) => " PALS_Profile::Input_Adaptor => \"last\";",
        _ => "",
    };
    format!(in alloc;
        "text c{node}: port t{before}.o -> t{node}.i {{Timing => Delayed;{adaptor}}};\n"
    )
}
