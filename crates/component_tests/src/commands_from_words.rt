//! Commands that read a scenario, from their words.
use pals_base::{NoMemory, Text};
use pals_runs::Command;
use std::alloc::Global;

/// A command that reads a scenario, of the root `Top.impl`.
pub fn command(alloc: Global, words: &str) -> Result<Command, NoMemory> {
    let root = Text::from_str(alloc, "Top.impl")?;
    Ok(match words {
        "world" => Command::World { root, loose: false },
        "world --loose" => Command::World { root, loose: true },
        "run" => Command::Run { root, trace: false },
        "audit" => Command::Audit { root },
        "watch" => Command::Watch { root },
        "vote" => Command::Vote { root },
        "fuse" => Command::Fuse { root },
        "budget" => Command::Budget { root },
        _ => Command::Sync { root },
    })
}
