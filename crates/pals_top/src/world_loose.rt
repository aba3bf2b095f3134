//! The command `world --loose`: what a list of events without time leaves.
ghost use Rattle.std.specs.Prelude.{◌≡◌, ℕ, List, [], ◌++◌, false, map, None, IfOk};
ghost use Rattle.loose_world.specs.declared.loose_run.LooseEnd.{LooseEnd};
ghost use Rattle.loose_world.specs.LooseRuns.{Tells};
ghost use Rattle.loose_world.specs.SentLines.{AreOutLinks};
ghost use Rattle.pals_model.specs.RoundTexts.{text_of as lines_text};
ghost use Rattle.pals_runs.specs.JournalLines.{entry_line};
ghost use Rattle.pals_bus.specs.proof.StepCodesOfNodes.{AreCodes};
ghost use Rattle.scenario_json.specs.proof.ScenarioValidity.{IsScenarioOf};
ghost use Rattle.loose_world.specs.proof.FinishedRows.{finished_lines, common_lines};
ghost use Rattle.scenario_laws.specs.proof.LooseEvents.{AreLooseEvents};
ghost use Rattle.pals_top.specs.declared.status.TheConstants.{DONE, STOPPED};
ghost use Rattle.pals_top.specs.ExecutionCommands.{LooseWorld};
ghost use Rattle.pals_top.specs.LooseWorlds.{IsWorldAnswer};
ghost use Rattle.pals_top.specs.proof.LooseWorldEnds.{status_at, text_at};
ghost use Rattle.pals_top.specs.proof.StatusAndText.{status_of, text_of, Says};

use crate::answer::Answer;
use crate::bundle_meaning::{Coded, CodedCommand};
use crate::execution::{ExecutionCommand, keeps_rules};
use crate::opening_bus::opened;
use crate::refused_scenario::refused_event;
use loose_world::world_laws::{events_are_steps, texts_are_told};
use loose_world::{LooseEnd, OutLinks, add_common_rows, add_finished_rows, add_journal, run_loose};
use pals_base::{ItemList, NoMemory, Text};
use pals_bus::Bus;
use pals_model::Design;
use pals_runs::{Command, Event};
use scenario_json::Scenario;
use std::alloc::Global;
use step_code::Code;

/// `world --loose`, of whose scenario the root's inputs, the number of rounds, the delays and the events count.
#[derive(Clone, Copy)]
pub struct LooseWorldCommand;

impl CodedCommand for LooseWorldCommand {
    ghost execution = { λ _. LooseWorld };

    fn command(&self, root: Text) -> Command {
        Command::World { root, loose: true }
    }
}

impl ExecutionCommand for LooseWorldCommand {
    fn answer(self, alloc: Global, coded: Coded) -> Result<Answer, NoMemory> {
        let Coded {
            design,
            codes,
            scenario,
        } = coded;
        answer_loose(alloc, design, codes, scenario)
    }
}

// What the events of a scenario give, from the opening of its run on.
fn answer_loose(
    alloc: Global,
    design: Design,
    codes: ItemList<Code>,
    scenario: Scenario,
) -> Result<Answer, NoMemory>
    requires codes { AreCodes design codes }
    requires kept { IsScenarioOf design scenario }
    requires events { AreLooseEvents design scenario.events }
    ensures { IfOk result (λ answer. IsWorldAnswer design scenario (status_of answer) (text_of answer)) }
{
    keeps_rules(&design);
    texts_are_told();
    events_are_steps();
    let links = OutLinks::new(alloc, &design)?;
    let Scenario {
        rounds,
        env,
        events,
        delays,
        ..
    } = scenario;
    let mut bus = opened(alloc, design, codes, env, rounds, delays, false)?;
    answer_events(alloc, &mut bus, events.as_slice(), &links)
}

// What the events leave.
fn answer_events(
    alloc: Global,
    bus: &mut Bus,
    events: &[Event],
    links: &OutLinks,
) -> Result<Answer, NoMemory>
    requires going { bus.old.state.stop ≡ None }
    requires loose { bus.old.meeting ≡ false }
    requires events { AreLooseEvents bus.old.run.design events.now }
    requires links { AreOutLinks bus.old.run.design links.now }
    ensures { IfOk result (λ answer. (end : LooseEnd) × (sent : List ℕ)
        × Tells bus.old events.now end bus.new [] sent × Says (status_at end) (text_at end bus.new sent) answer) }
{
    let mut sent = Vec::new(alloc);
    let end = run_loose(bus, events, links, &mut sent)?;
    answer_end(alloc, bus, &end, sent.as_slice())
}

// What is written at the end of a world.
fn answer_end(alloc: Global, bus: &Bus, end: &LooseEnd, sent: &[u8]) -> Result<Answer, NoMemory>
    ensures { IfOk result (Says (status_at end.now) (text_at end.now bus.now sent.now)) }
{
    match end {
        LooseEnd::All => finished(alloc, bus, sent),
        LooseEnd::Stopped(_) => stopped(alloc, bus),
        LooseEnd::Refused { index, fault } => refused_event(alloc, bus.design(), *index, fault),
    }
}

// The rounds that some node has finished, and the messages that were sent.
fn finished(alloc: Global, bus: &Bus, sent: &[u8]) -> Result<Answer, NoMemory>
    ensures { IfOk result (Says DONE (lines_text (finished_lines bus.now) ++ sent.now)) }
{
    let mut text = Vec::new(alloc);
    add_finished_rows(alloc, &mut text, bus)?;
    text.extend_from_slice(sent)?;
    Ok(Answer::Done(text))
}

// The rounds that every node has finished, and the journal.
fn stopped(alloc: Global, bus: &Bus) -> Result<Answer, NoMemory>
    ensures { IfOk result (Says STOPPED (lines_text (common_lines bus.now)
        ++ lines_text (map (entry_line bus.now.run.design) bus.now.journal))) }
{
    let mut text = Vec::new(alloc);
    add_common_rows(alloc, &mut text, bus)?;
    add_journal(&mut text, bus)?;
    Ok(Answer::Stopped(text))
}
