//! The lines of a script, and what a bench answers to them.
use aig_base::{Lit, MemWriter, Memory, Tern};
use aig_bench::{Bench, EditFault, EditReport};
use aig_sim::Grid;
use std::alloc::Global;
use std::str;

/// Room for the trace of a bench.
const ROOM: usize = 1000;

/// An edit, or a question for a value or the trace.
#[derive(Drop)]
pub enum Step {
    Bit(u32, u32, Tern),
    Sides(u32, u32, u32),
    Reset(u32, Tern),
    Add(Vec<Tern>),
    Drop,
    Append(u32, u32),
    Output(u32, u32),
    At(u32, u32),
    Trace,
}

fn number(word: Option<&str>) -> Option<u32> {
    word?.parse::<u32>().ok()
}

fn value(character: u8) -> Option<Tern> {
    match character {
        b'0' => Some(Tern::Zero),
        b'1' => Some(Tern::One),
        b'x' => Some(Tern::X),
        _ => None,
    }
}

/// The character of a value: `0`, `1` or `x`.
pub fn character(value: Tern) -> char {
    match value {
        Tern::Zero => '0',
        Tern::One => '1',
        Tern::X => 'x',
    }
}

fn row(alloc: Global, word: Option<&str>) -> Option<Vec<Tern>> {
    let mut row = Vec::new(alloc);
    for character in word?.as_bytes() {
        row.push(value(*character)?).ok()?;
    }
    Some(row)
}

fn only_value(word: Option<&str>) -> Option<Tern> {
    match word?.as_bytes() {
        [character] => value(*character),
        _ => None,
    }
}

impl Step {
    /// The step of a line, by the letters of the scripts of `aig bench`.
    pub fn of_line(alloc: Global, line: &str) -> Option<Step> {
        let mut words = line.split(' ');
        let step = match words.next()? {
            "s" => Step::Bit(
                number(words.next())?,
                number(words.next())?,
                only_value(words.next())?,
            ),
            "w" => Step::Sides(
                number(words.next())?,
                number(words.next())?,
                number(words.next())?,
            ),
            "r" => Step::Reset(number(words.next())?, only_value(words.next())?),
            "+" => Step::Add(row(alloc, words.next())?),
            "-" => Step::Drop,
            "g" => Step::Append(number(words.next())?, number(words.next())?),
            "o" => Step::Output(number(words.next())?, number(words.next())?),
            "v" => Step::At(number(words.next())?, number(words.next())?),
            "t" => Step::Trace,
            _ => return None,
        };
        Some(step)
    }
}

// How many cells an edit evaluated and changed, or why it is refused.
fn of_edit(alloc: Global, report: Result<EditReport, EditFault>) -> Result<String, Memory> {
    match report {
        Ok(report) => Ok(format!(in alloc; "{} {}", report.evaluated, report.changed)?),
        Err(fault) => Ok(format!(in alloc; "{fault}")?),
    }
}

fn of_value(alloc: Global, value: Result<Tern, EditFault>) -> Result<String, Memory> {
    match value {
        Ok(value) => Ok(format!(in alloc; "{}", character(value))?),
        Err(fault) => Ok(format!(in alloc; "{fault}")?),
    }
}

fn trace<G: Grid>(alloc: Global, bench: &Bench<G>) -> Result<String, Memory> {
    let mut out = MemWriter::new(alloc, ROOM)?;
    let is_written = bench.write_trace(&mut out).is_ok();
    match str::from_utf8(out.bytes()) {
        Ok(text) if is_written => Ok(format!(in alloc; "{text:?}")?),
        _ => Ok(format!(in alloc; "no trace")?),
    }
}

/// What the bench answers to a step.
pub fn answer_of<G: Grid>(
    alloc: Global,
    bench: &mut Bench<G>,
    step: &Step,
) -> Result<String, Memory> {
    let report = match step {
        Step::Bit(frame, position, value) => bench.set_bit(*frame, *position, *value),
        Step::Sides(lhs, r0, r1) => bench.rewire(Lit::new(*lhs), Lit::new(*r0), Lit::new(*r1)),
        Step::Reset(latch, value) => bench.set_reset(Lit::new(*latch), *value),
        Step::Add(row) => bench.add_frame(row),
        Step::Drop => bench.drop_frame(),
        Step::Append(r0, r1) => bench.append_gate(Lit::new(*r0), Lit::new(*r1)),
        Step::Output(position, literal) => bench.set_output(*position, Lit::new(*literal)),
        Step::At(frame, literal) => {
            return of_value(alloc, bench.value(*frame, Lit::new(*literal)));
        }
        Step::Trace => return trace(alloc, bench),
    };
    of_edit(alloc, report)
}
