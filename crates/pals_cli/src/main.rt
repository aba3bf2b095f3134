//! The program: arguments from the command line, a bundle on standard input, the answer's text on standard
//! output, and its status at the end. It writes nothing else.
#![tactic(auto)]

mod edge;

use edge::execute;
use std::env;
use std::process::ExitCode;

fn main(rt: HostRuntime) -> ExitCode {
    let arguments = env::args(&rt);
    let exit = execute(&rt, rt.alloc(), arguments, rt.stdin(), rt.stdout());
    ExitCode::from(exit.status)
}
