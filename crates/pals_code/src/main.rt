//! The program `pals_code ROOT`: a bundle on standard input, the listing of its step code on standard
//! output, and a status at the end. It writes nothing else.
#![tactic(auto)]

mod answer;
mod bundle_answer;
mod edge;
mod laws;
mod program;
mod status;

use edge::execute;
use std::env;
use std::process::ExitCode;

fn main(rt: HostRuntime) -> ExitCode {
    let arguments = env::args(&rt);
    let exit = execute(rt.alloc(), arguments, rt.stdin(), rt.stdout());
    ExitCode::from(exit.status)
}
