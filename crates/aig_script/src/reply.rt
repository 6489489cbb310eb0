//! Replies to the lines of a script.
ghost use Rattle.std.specs.Prelude.{◌≡◌, ℕ, List, ◌∷◌, ◌++◌, length, codes, Result, Ok};
ghost use Rattle.aig_parts.specs.declared.raw.Raw.{Raw};
ghost use Rattle.aig_bytes.specs.Bytes.{Writes};
ghost use Rattle.aig_parts.specs.declared.ternary.Tern.{Tern};
ghost use Rattle.aig_bench.specs.declared.edit.EditFault.{EditFault};
ghost use Rattle.aig_bench.specs.BenchState.{HasTrace};
ghost use Rattle.aig_bench.specs.Edit.{edit_fault_number};
ghost use Rattle.aig_bench.specs.Question.{AnswersValue};
ghost use Rattle.aig_sim.specs.RowParser.{KeepsLine};
ghost use Rattle.aig_unroll.specs.declared.fault.UnrollFault.{UnrollFault};
ghost use Rattle.aig_unroll.specs.Answers as unrolling;
ghost use Rattle.aig_unroll.specs.Answers.{AnswersUnrolling};
ghost use Rattle.aig_script.specs.state.CommandMeaning.{meaning};
ghost use Rattle.aig_script.specs.Replies.{numbered_refusal, refusal, edit_reply, value_reply, unroll_reply};
ghost use Rattle.aig_script.specs.Replies.{CommandReply, WholeReply};
ghost use Rattle.aig_script.specs.state.Faults.{row_fault_reply};
ghost use Rattle.aig_script.specs.ScriptLine.{BeginsRow, KeepsScriptLine};

use crate::command::{ScriptCommand, parse_command};
use crate::script_line::ScriptLine;
use aig_base::{Circuit, Io, Lit, Write, write_all, write_number};
use aig_bench::{Bench, EditFault, EditReport};
use aig_format::write_ascii;
use aig_sim::{Grid, RowParser, StimFault};
use aig_unroll::UnrollFault;
use std::alloc::Global;

/// The number of a fault, as `no N` names it.
fn number_of_fault(fault: EditFault) -> u32
    ensures { result ≡ edit_fault_number fault }
{
    match fault {
        EditFault::NotAGate => 1,
        EditFault::NotALatch => 2,
        EditFault::Range => 3,
        EditFault::Undefined => 4,
        EditFault::Cycle => 5,
        EditFault::NoFrame => 6,
        EditFault::NoInput => 7,
        EditFault::Length => 8,
        EditFault::Empty => 9,
        EditFault::Limit => 10,
        EditFault::Memory => 11,
        EditFault::NoOutput => 13,
    }
}

/// The number of a fault of the unroller, as `no N` names it.
fn number_of_unroll_fault(fault: UnrollFault) -> u32
    ensures { result ≡ unrolling.unroll_fault_number fault }
{
    match fault {
        UnrollFault::NoFrames => 9,
        UnrollFault::Liveness => 12,
        UnrollFault::Limit => 10,
        UnrollFault::Memory => 11,
    }
}

fn write_number_refused<W: Write>(number: u32, out: &mut W) -> Result<(), Io>
    ensures { Writes W.written W.failures out.old out.new (numbered_refusal number) result }
{
    write_all(out, b"no ")?;
    write_number(out, number)?;
    write_all(out, b"\n")
}

fn write_refusal<W: Write>(fault: EditFault, out: &mut W) -> Result<(), Io>
    ensures { Writes W.written W.failures out.old out.new (refusal fault) result }
{
    write_number_refused(number_of_fault(fault), out)
}

fn write_edit<W: Write>(answer: Result<EditReport, EditFault>, out: &mut W) -> Result<(), Io>
    ensures { Writes W.written W.failures out.old out.new (edit_reply answer) result }
{
    match answer {
        Ok(_report) => write_all(out, b"ok\n"),
        Err(fault) => write_refusal(fault, out),
    }
}

/// Writes the value of a literal at a frame, or why it is refused: the character is that of the grid.
fn write_value<G: Grid, W: Write>(
    bench: &Bench<G>,
    frame: u32,
    literal: Lit,
    out: &mut W,
) -> Result<(), Io>
    ensures { (answer : Result Tern EditFault) × AnswersValue bench.now.pair frame literal answer
        × Writes W.written W.failures out.old out.new (value_reply answer) result }
{
    // Its contract says that it is a circuit.
    bench.width();
    match bench.value(frame, literal) {
        Ok(_) => write_all(out, &[bench.grid().character(frame, literal), b'\n']),
        Err(fault) => write_refusal(fault, out),
    }
}

/// Writes an unrolled circuit as a text file, and a line `.`.
fn write_unrolled_circuit<W: Write>(circuit: &Circuit, out: &mut W) -> Result<(), Io>
    ensures { Writes W.written W.failures out.old out.new (unroll_reply (Ok circuit.now)) result }
{
    match write_ascii(circuit, out) {
        Ok(()) => write_all(out, b".\n"),
        Err(_) => Err(Io),
    }
}

/// Writes the circuit unrolled for all frames, or why it is refused. It has a frame of its own, as `write_frames`.
#[inline(never)]
fn write_unrolled<G: Grid, W: Write>(alloc: Global, bench: &Bench<G>, out: &mut W) -> Result<(), Io>
    ensures { (r : Result Raw UnrollFault) × AnswersUnrolling bench.now.pair.circuit (length bench.now.pair.rows) r
        × Writes W.written W.failures out.old out.new (unroll_reply r) result }
{
    match bench.unrolled(alloc) {
        Ok(circuit) => write_unrolled_circuit(&circuit, out),
        Err(fault) => write_number_refused(number_of_unroll_fault(fault), out),
    }
}

/// Writes the trace, and a line `.`. It has a frame of its own, since its room on the stack is large.
#[inline(never)]
fn write_frames<G: Grid, W: Write>(bench: &Bench<G>, out: &mut W) -> Result<(), Io>
    ensures { (text : List ℕ) × HasTrace bench.now.pair text
        × Writes W.written W.failures out.old out.new (text ++ codes ".\n") result }
{
    bench.write_trace(out)?;
    write_all(out, b".\n")
}

/// Does what the command asks for, and writes its reply.
#[inline(always)]
fn obey<G: Grid, W: Write>(
    alloc: Global,
    bench: &mut Bench<G>,
    command: ScriptCommand,
    out: &mut W,
) -> Result<(), Io>
    ensures { (reply : List ℕ) × CommandReply bench.old.pair (meaning command) reply bench.new.pair
        × Writes W.written W.failures out.old out.new reply result }
{
    match command {
        ScriptCommand::Rewire {
            gate,
            right0,
            right1,
        } => write_edit(bench.rewire(gate, right0, right1), out),
        ScriptCommand::SetReset { latch, value } => write_edit(bench.set_reset(latch, value), out),
        ScriptCommand::SetBit {
            frame,
            position,
            value,
        } => write_edit(bench.set_bit(frame, position, value), out),
        ScriptCommand::DropFrame => write_edit(bench.drop_frame(), out),
        ScriptCommand::AppendGate { right0, right1 } => write_edit(
            bench.append_gate(right0, right1),
            out,
        ),
        ScriptCommand::SetOutput { position, literal } => {
            write_edit(bench.set_output(position, literal), out)
        }
        ScriptCommand::Value { frame, literal } => write_value(bench, frame, literal, out),
        ScriptCommand::Trace => write_frames(bench, out),
        ScriptCommand::Unroll => write_unrolled(alloc, bench, out),
    }
}

/// Why the values after `+ ` are no row: there are too few or too many, or another byte is among them.
fn write_row_fault<W: Write>(fault: StimFault, out: &mut W) -> Result<(), Io>
    ensures { Writes W.written W.failures out.old out.new (row_fault_reply fault) result }
{
    match fault {
        StimFault::Length(_) => write_refusal(EditFault::Length, out),
        StimFault::Char(_)
        | StimFault::Unfinished
        | StimFault::Limit
        | StimFault::Memory
        | StimFault::Io => write_all(out, b"bad\n"),
    }
}

/// Appends the frame that a line spells after `+ `, and writes its reply.
fn append<G: Grid, W: Write>(bench: &mut Bench<G>, row: &RowParser, out: &mut W) -> Result<(), Io>
    requires { row.now.width ≡ length bench.old.pair.circuit.inputs }
    ensures { (reply : List ℕ) × ((values : List ℕ) → KeepsLine row.now.width values row.now.shape row.now.values →
        WholeReply bench.old.pair (43 ∷ 32 ∷ values) reply bench.new.pair)
        × Writes W.written W.failures out.old out.new reply result }
{
    match row.row(1) {
        Ok(values) => write_edit(bench.add_frame(values), out),
        Err(fault) => write_row_fault(fault, out),
    }
}

/// Answers a line that appends no frame: does what it asks for, and writes its reply, or `bad`.
pub fn answer_command<G: Grid, W: Write>(
    alloc: Global,
    bench: &mut Bench<G>,
    line: &[u8],
    out: &mut W,
) -> Result<(), Io>
    ensures { (reply : List ℕ) × ((BeginsRow line.now → ⊥) → WholeReply bench.old.pair line.now reply bench.new.pair)
        × Writes W.written W.failures out.old out.new reply result }
{
    match parse_command(line) {
        Some(command) => obey(alloc, bench, command, out),
        None => write_all(out, b"bad\n"),
    }
}

/// Answers a line that an LF ends: does what it asks for, and writes its reply, or `bad`.
pub fn answer<G: Grid, W: Write>(
    alloc: Global,
    bench: &mut Bench<G>,
    line: &ScriptLine,
    out: &mut W,
) -> Result<(), Io>
    requires { line.now.row.width ≡ length bench.old.pair.circuit.inputs }
    ensures { (reply : List ℕ) × ((text : List ℕ) → KeepsScriptLine text line.now →
        WholeReply bench.old.pair text reply bench.new.pair)
        × Writes W.written W.failures out.old out.new reply result }
{
    if let Some(row) = line.row() {
        return append(bench, row, out);
    }
    answer_command(alloc, bench, line.bytes(), out)
}
