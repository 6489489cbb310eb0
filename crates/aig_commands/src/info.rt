//! `info`: facts about a circuit file, and the names of its entries.
ghost use Rattle.std.specs.Prelude.{◌≡◌, ℕ, ◌==◌, List, Option, count_by, IfOk, IfSome};
ghost use Rattle.std.specs.List.{flat_map};
ghost use Rattle.aig_bytes.specs.Bytes.{Writes};
ghost use Rattle.aig_base.specs.Greatest.{IsGreatestLevel};
ghost use Rattle.aig_format.specs.Formats.{IsInFormat};
ghost use Rattle.aig_bytes.specs.Flow.{flow};
ghost use Rattle.aig_command.specs.Command.{CommandEnds};
ghost use Rattle.aig_commands.specs.Info.{AreFacts, ListsFacts, comment_size, fact_line, format_name};
ghost use Rattle.aig_commands.specs.Info.{info_text, fact_number_line, number_lines, yes_or_no};
ghost use Rattle.aig_commands.specs.Info.{is_constant, is_impossible, starts_at_one};
ghost use Rattle.aig_commands.specs.Names.{ListsNames, ListsNamesAs};
ghost use Rattle.aig_command.specs.Command.{OfReader};

use crate::entries::write_entries;
use aig_base::{
    Circuit, Io, Latch, Levels, Lit, Memory, Read, Write, greatest_fan_out, is_binary_ready,
    write_all,
};
use aig_command::RunFault;
use aig_format::{Format, read_from, read_with_format};
use aig_signals::Form;
use aig_unroll::uninitialised;
use itoa::Buffer;
use std::alloc::Global;

/// Facts about a circuit beside the counts of its parts.
#[derive(Clone, Copy)]
pub struct Facts {
    pub format: Format,
    pub levels: u32,
    pub fan_out: u32,
    pub is_ready: bool,
}

/// The name of a format, as the first word of a file has it.
fn format_name(format: Format) -> &'static str
    ensures { result.now ≡ format_name format }
{
    match format {
        Format::Ascii => "aag",
        Format::Binary => "aig",
    }
}

fn yes_or_no(answer: bool) -> &'static str
    ensures { result.now ≡ yes_or_no answer }
{
    if answer { "yes" } else { "no" }
}

/// The greatest level of a circuit.
fn greatest_level(alloc: Global, circuit: &Circuit) -> Result<u32, Memory>
    ensures { IfOk result (IsGreatestLevel circuit.now) }
{
    let levels = Levels::of(alloc, circuit)?;
    Ok(levels.greatest(circuit))
}

/// The facts of a circuit in a file of this format. Memory is taken for the levels, and then for the fan-outs.
fn facts_of(alloc: Global, format: Format, circuit: &Circuit) -> Result<Facts, Memory>
    ensures { (file : Option (List ℕ)) → IfSome file (λ bytes. IsInFormat format bytes circuit.now)
        → IfOk result (AreFacts file circuit.now) }
{
    Ok(Facts {
        format,
        levels: greatest_level(alloc, circuit)?,
        fan_out: greatest_fan_out(alloc, circuit)?,
        is_ready: is_binary_ready(circuit),
    })
}

/// How many latches start at 1.
fn resets(latches: &[Latch]) -> usize
    ensures { result ≡ count_by starts_at_one latches.now }
{
    latches
        .iter()
        .filter(|latch| latch.reset.value() == 1)
        .count()
}

/// How many of the literals are constants.
fn constants(literals: &[Lit]) -> usize
    ensures { result ≡ count_by is_constant literals.now }
{
    literals.iter().filter(|literal| literal.var() == 0).count()
}

/// How many of the literals are the constant 0.
fn impossible(literals: &[Lit]) -> usize
    ensures { result ≡ count_by is_impossible literals.now }
{
    literals
        .iter()
        .filter(|literal| literal.value() == 0)
        .count()
}

/// How many bytes the comment has.
fn comment_size(circuit: &Circuit) -> usize
    ensures { result ≡ comment_size circuit.now.comment }
{
    match circuit.comment() {
        Some(bytes) => bytes.len(),
        None => 0,
    }
}

/// Writes a line with a name and a value.
fn write_fact<W: Write>(name: &str, value: &str, out: &mut W) -> Result<(), Io>
    ensures { Writes W.written W.failures out.old out.new (fact_line name.now value.now) result }
{
    write_all(out, name.as_bytes())?;
    write_all(out, b" ")?;
    write_all(out, value.as_bytes())?;
    write_all(out, b"\n")
}

/// Writes a line for each number.
fn write_numbers<W: Write>(numbers: &[(&str, usize)], out: &mut W) -> Result<(), Io>
    ensures { Writes W.written W.failures out.old out.new
        (flat_map (λ n. fact_number_line n.0.now n.1) numbers.now) result }
{
    for (name, number) in numbers {
        let mut buffer = Buffer::new();
        write_fact(name, buffer.format(*number), out)?;
    }
    Ok(())
}

/// Writes the lines of the numbers.
fn write_counts<W: Write>(circuit: &Circuit, facts: &Facts, out: &mut W) -> Result<(), Io>
    ensures { Writes W.written W.failures out.old out.new (number_lines circuit.now facts.now) result }
{
    write_numbers(
        &[
            ("variables", circuit.max_var() as usize),
            ("inputs", circuit.inputs().len()),
            ("latches", circuit.latches().len()),
            ("outputs", circuit.outputs().len()),
            ("gates", circuit.gates().len()),
            ("bad", circuit.bad().len()),
            ("constant", constants(circuit.bad())),
            ("constraints", circuit.constraints().len()),
            ("impossible", impossible(circuit.constraints())),
            ("justice", circuit.justice().len()),
            ("fairness", circuit.fairness().len()),
            ("uninitialised", uninitialised(circuit)),
            ("resets", resets(circuit.latches())),
            ("levels", facts.levels as usize),
            ("fanout", facts.fan_out as usize),
            ("symbols", circuit.symbols().len()),
            ("comment", comment_size(circuit)),
        ],
        out,
    )
}

/// Writes all lines.
fn write_info<W: Write>(circuit: &Circuit, facts: &Facts, out: &mut W) -> Result<(), Io>
    ensures { Writes W.written W.failures out.old out.new (info_text circuit.now facts.now) result }
{
    write_fact("format", format_name(facts.format), out)?;
    write_counts(circuit, facts, out)?;
    write_fact("ready", yes_or_no(facts.is_ready), out)
}

/// Finds the facts of a circuit in a file of this format, and writes all lines.
fn list_facts<W: Write>(
    alloc: Global,
    format: Format,
    circuit: &Circuit,
    out: &mut W,
) -> Result<(), RunFault>
    ensures { (file : Option (List ℕ)) → IfSome file (λ bytes. IsInFormat format bytes circuit.now)
        → CommandEnds (flow W.written W.failures out.old out.new) RunFault.Output (ListsFacts file circuit.now) result }
{
    let facts = facts_of(alloc, format, circuit)?;
    match write_info(circuit, &facts, out) {
        Ok(()) => Ok(()),
        Err(Io) => Err(RunFault::Output),
    }
}

/// The command `info`: reads a circuit and writes what it is, a line for each fact, `name value`. The facts are its
/// format and the counts of its parts, the bad state properties that are constants, the constraints that no run keeps,
/// the latches that start at no known value and those that start at 1, its greatest level and fan-out, its names and
/// the bytes of its comment. The last one is whether the binary format can hold it as it stands. For every circuit file
/// that is accepted, the text is that of its circuit. The file is never held whole. Where it is refused, or no memory
/// was found for levels or fan-outs, nothing is written.
pub fn info<R: Read, W: Write>(alloc: Global, circuit: &mut R, out: &mut W) -> Result<(), RunFault>
    ensures ends { CommandEnds (flow W.written W.failures out.old out.new) RunFault.Output
        (OfReader (flow R.left R.failures circuit.old circuit.new) (ListsFacts (R.left circuit.old))) result }
{
    match read_with_format(alloc, circuit) {
        Ok((format, circuit)) => list_facts(alloc, format, &circuit, out),
        Err(fault) => Err(RunFault::Circuit(fault)),
    }
}

/// Writes the names of a circuit's entries.
fn list_names<W: Write>(circuit: &Circuit, form: Form, out: &mut W) -> Result<(), RunFault>
    ensures { CommandEnds (flow W.written W.failures out.old out.new) RunFault.Output
        (ListsNamesAs form circuit.now) result }
{
    match write_entries(circuit, form, out) {
        Ok(()) => Ok(()),
        Err(Io) => Err(RunFault::Output),
    }
}

/// The command `info --names`: reads a circuit and writes a line for each entry, section by section in the order of a
/// file: `LETTER POSITION LITERAL NAME`. LETTER is that of the entry's symbol (AIGER 1.0, symbol table; AIGER 1.9), and
/// POSITION counts from 0. LITERAL is `-` for a justice property. NAME is the symbol, and nothing where there is none.
/// As JSON, a line is an object with these four members. The file is never held whole, and memory is taken for its
/// circuit alone. Where the file is refused, nothing is written.
pub fn info_names_as<R: Read, W: Write>(
    alloc: Global,
    circuit: &mut R,
    form: Form,
    out: &mut W,
) -> Result<(), RunFault>
    ensures ends { CommandEnds (flow W.written W.failures out.old out.new) RunFault.Output
        (OfReader (flow R.left R.failures circuit.old circuit.new) (ListsNamesAs form)) result }
{
    match read_from(alloc, circuit) {
        Ok(circuit) => list_names(&circuit, form, out),
        Err(fault) => Err(RunFault::Circuit(fault)),
    }
}

/// The same as text.
pub fn info_names<R: Read, W: Write>(
    alloc: Global,
    circuit: &mut R,
    out: &mut W,
) -> Result<(), RunFault>
    ensures ends { CommandEnds (flow W.written W.failures out.old out.new) RunFault.Output
        (OfReader (flow R.left R.failures circuit.old circuit.new) ListsNames) result }
{
    info_names_as(alloc, circuit, Form::Text, out)
}
