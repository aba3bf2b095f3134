//! The text of round budgets, as `budget` prints it: a line for each processor, and its timetable if it fits.
ghost use Rattle.std.specs.Prelude.{◌≡◌, ◌++◌, All, length, map, IfOk, OnOk};
ghost use Rattle.pals_model.specs.RoundTexts.{text_of, line_end};
ghost use Rattle.analysis_fields.specs.proof.ReplicaFaultsAndProcessors.{IsProcessorOf};
ghost use Rattle.round_budget.specs.BudgetText.{fits_on, processor_lines, slot_line, some_is_over, budget_text};
ghost use Rattle.round_budget.specs.proof.ReleaseAndLineValues.{line_value};
ghost use Rattle.analysis_texts.specs.BudgetedProcessors.{processor_of};
ghost use Rattle.analysis_texts.specs.proof.ProcessorSumLines.{sum_line};

use analysis_fields::Processor;
use pals_base::{Nanos, NoMemory};
use pals_model::Design;
use pals_report::{LineWord, add_line, node_word};
use round_budget::{BudgetEnd, TimetableLine, timetable, total};
use std::alloc::{AllocError, Global};
use step_code::Code;

/// What is written of processors, and whether one of them has more to do than fits.
#[derive(Drop)]
pub struct Budgeted {
    pub text: Vec<u8>,
    pub over: bool,
}

/// The round budgets of processors that serve components of a design with these codes.
pub fn budget(
    alloc: Global,
    design: &Design,
    codes: &[Code],
    processors: &[Processor],
) -> Result<Budgeted, NoMemory>
    requires processors { All (IsProcessorOf design.now) processors.now }
    requires codes { length codes.now ≡ length design.now.components }
    ensures text { IfOk result (λ b. b.text.items
        ≡ budget_text design.now codes.now (map processor_of processors.now)) }
    ensures over { IfOk result (λ b. b.over ≡ some_is_over design.now codes.now (map processor_of processors.now)) }
{
    let mut text = Vec::new(alloc);
    let mut over = false;
    for processor in processors {
        if !add_processor(alloc, &mut text, design, codes, processor)? {
            over = true;
        }
    }
    Ok(Budgeted { text, over })
}

// Appends the lines of a processor, and returns whether its steps fit.
fn add_processor(
    alloc: Global,
    text: &mut Vec<u8>,
    design: &Design,
    codes: &[Code],
    processor: &Processor,
) -> Result<bool, NoMemory>
    requires processor { IsProcessorOf design.now processor.now }
    requires codes { length codes.now ≡ length design.now.components }
    ensures fits { IfOk result (λ fits. fits ≡ fits_on design.now codes.now (processor_of processor.now)) }
    ensures text { OnOk result (text.new.items ≡ text.old.items
        ++ text_of (processor_lines design.now codes.now (processor_of processor.now))) }
{
    let longest = design.gamma().alpha_max;
    let members = processor.components.as_slice();
    let sum = total(processor.nanos, codes, members);
    match timetable(alloc, design, codes, processor.nanos, members) {
        Ok(lines) => {
            add_sum(text, processor, sum, longest, true)?;
            add_slots(text, design, lines.as_slice())?;
            Ok(true)
        }
        Err(BudgetEnd::Over { .. }) => {
            add_sum(text, processor, sum, longest, false)?;
            Ok(false)
        }
        Err(BudgetEnd::Memory) => Err(AllocError),
    }
}

// Adds the line of a processor with this sum, and with the longest execution of a step.
fn add_sum(
    text: &mut Vec<u8>,
    processor: &Processor,
    sum: u128,
    longest: Nanos,
    fits: bool,
) -> Result<(), NoMemory>
    ensures { OnOk result (text.new.items ≡ text.old.items ++ sum_line processor.now.name sum longest fits
        ++ line_end) }
{
    let verdict = if fits {
        LineWord::Bytes(b"fits")
    } else {
        LineWord::Bytes(b"over")
    };
    add_line(
        text,
        &[
            LineWord::Bytes(b"processor"),
            LineWord::Bytes(processor.name.as_bytes()),
            LineWord::Bytes(b"sum"),
            LineWord::Wide(sum),
            LineWord::Bytes(b"of"),
            LineWord::Number(longest),
            verdict,
        ],
    )
}

// Adds a line for each step that a processor serves.
fn add_slots(text: &mut Vec<u8>, design: &Design, lines: &[TimetableLine]) -> Result<(), NoMemory>
    ensures { OnOk result (text.new.items ≡ text.old.items
        ++ text_of (map (slot_line design.now) (map line_value lines.now))) }
{
    for line in lines {
        add_slot(text, design, line)?;
    }
    Ok(())
}

// Adds the line of a step that a processor serves.
fn add_slot(text: &mut Vec<u8>, design: &Design, line: &TimetableLine) -> Result<(), NoMemory>
    ensures { OnOk result (text.new.items ≡ text.old.items ++ slot_line design.now (line_value line.now) ++ line_end) }
{
    add_line(
        text,
        &[
            LineWord::Bytes(b"slot"),
            node_word(design.parts(), line.node),
            LineWord::Number(u64::from(line.step)),
            LineWord::Wide(line.begin),
            LineWord::Wide(line.done),
        ],
    )
}
