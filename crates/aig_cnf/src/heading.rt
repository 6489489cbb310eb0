//! The first comment line of a formula: the command that asks for it, and the property's symbol.
ghost use Rattle.std.specs.Prelude.{◌≡◌, ◌++◌};
ghost use Rattle.aig_bytes.specs.Bytes.{Writes};
ghost use Rattle.aig_cnf.specs.Heading.{asked_options, certified_options, goal_option, heading, query_options};
ghost use Rattle.aig_unroll.specs.InputMap.{map_field};

use crate::query::{Goal, Query};
use aig_base::{Circuit, Io, Kind, Write, write_all, write_number};
use aig_unroll::write_symbol;

/// What a formula was asked for, as its first comment line says it.
#[derive(Clone, Copy, PartialEq, Eq, Debug)]
pub enum Heading {
    /// A query about the circuit.
    Runs(Query),
    /// Whether some run keeps all constraints at so many frames.
    Alive(u32),
    /// The induction over a strengthened circuit, by a certificate for the property at this position of the circuit
    /// that was strengthened.
    Certified(u32),
}

// The option of the command that asks for a goal.
fn goal_option(goal: Goal) -> &'static str
    ensures { result.now ≡ goal_option goal }
{
    match goal {
        Goal::Within => "",
        Goal::Last => "--last ",
        Goal::Step => "--step ",
        Goal::Induction => "--induction ",
    }
}

// Writes an option with its number, and a space.
fn write_option<W: Write>(out: &mut W, option: &str, number: u32) -> Result<(), Io>
    ensures { Writes W.written W.failures out.old out.new (option.now ++ map_field number) result }
{
    write_all(out, option.as_bytes())?;
    write_number(out, number)?;
    write_all(out, b" ")
}

// Writes the options that ask for a query, and the property's symbol.
fn write_query<W: Write>(out: &mut W, circuit: &Circuit, query: Query) -> Result<(), Io>
    ensures { Writes W.written W.failures out.old out.new (query_options circuit.now query) result }
{
    write_all(out, goal_option(query.goal).as_bytes())?;
    write_option(out, "--frames ", query.frames)?;
    write_option(out, "--property ", query.property)?;
    write_symbol(out, circuit, Kind::Bad, query.property)
}

// Writes the options that ask for a certificate's formula, and the symbol that the property has as output 0.
fn write_certified<W: Write>(out: &mut W, circuit: &Circuit, property: u32) -> Result<(), Io>
    ensures { Writes W.written W.failures out.old out.new (certified_options circuit.now property) result }
{
    write_option(out, "--certificate --property ", property)?;
    write_symbol(out, circuit, Kind::Output, 0)
}

impl Heading {
    // Writes the options that ask for the formula of a circuit.
    fn write_options<W: Write>(self, circuit: &Circuit, out: &mut W) -> Result<(), Io>
        ensures { Writes W.written W.failures out.old out.new (asked_options self circuit.now) result }
    {
        match self {
            Heading::Runs(query) => write_query(out, circuit, query),
            Heading::Alive(frames) => write_option(out, "--alive --frames ", frames),
            Heading::Certified(property) => write_certified(out, circuit, property),
        }
    }

    // Writes the line at the head of the formula of a circuit.
    pub(crate) fn write<W: Write>(self, circuit: &Circuit, out: &mut W) -> Result<(), Io>
        ensures { Writes W.written W.failures out.old out.new (heading self circuit.now) result }
    {
        write_all(out, b"c aig cnf ")?;
        self.write_options(circuit, out)?;
        write_all(out, b"\n")
    }
}
