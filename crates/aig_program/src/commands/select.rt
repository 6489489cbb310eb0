//! `select`: a circuit with some of its properties.
ghost use Rattle.std.specs.Prelude.{IfOk, codes};
ghost use Rattle.aig_program.specs.Commands.{Opens};
ghost use Rattle.aig_program.specs.Ends.{seen};
ghost use Rattle.aig_program.specs.Select.{EndsSelect, EndsSelectNamed};

use crate::chosen::options::{format_of, section_of};
use crate::chosen::properties::open_circuit_and_properties;
use crate::commands::Command;
use crate::ended::streamed;
use aig_base::{PropertySection, Write};
use aig_cli::text_of;
use aig_command::RunFault;
use aig_commands::select;
use aig_commands::select::NamedSelection;
use aig_files::{Exit, KnownReader, Opened, Part, read_whole};
use aig_format::Format;
use clap::ArgMatches;
use std::alloc::Global;
use std::fs::Files;
use std::io::Read;

/// Which properties of a circuit to keep, and where.
pub struct Selected {
    /// The section that has them.
    pub from: PropertySection,
    /// The section that they go to.
    pub into: PropertySection,
    /// Their positions, counted from 0; all of the section if there is none.
    pub positions: Vec<u32>,
}

// By hand: a value then ends in one call, which is one step of a proof (docs/PROOFS.md, Habits).
impl Drop for Selected {
    fn drop(self) {
        let Selected {
            from: _,
            into: _,
            positions: _,
        } = self;
    }
}

/// `select`: a circuit with some of its properties.
#[derive(Drop)]
pub struct Select<F> {
    pub selection: Selected,
    pub to: Format,
    pub circuit: F,
}

/// `select --names`: the same, with the names of a text.
#[derive(Drop)]
pub struct SelectNamed<F> {
    pub selection: Selected,
    pub to: Format,
    pub circuit: F,
    pub names: F,
}

/// Opens the circuit of `select`, finds its properties, and opens the names that they get, if they get any.
pub fn open<'m, R: Files + AllocGlobal>(
    rt: &R,
    matches: &'m ArgMatches<'_>,
) -> Result<Command<'m, Opened<'m, R>>, Exit>
    ensures opens { IfOk result (Opens (codes "select") matches.now) }
{
    let from = section_of(matches, "from");
    let to = format_of(matches)?;
    let (circuit, positions) = open_circuit_and_properties(rt, matches, from)?;
    let selection = Selected {
        from,
        into: section_of(matches, "as"),
        positions,
    };
    let Some(names) = text_of(matches, "names") else {
        return Ok(Command::Select(Select {
            selection,
            to,
            circuit,
        }));
    };
    let names = aig_files::open(rt, names, Part::Names)?;
    Ok(Command::SelectNamed(SelectNamed {
        selection,
        to,
        circuit,
        names,
    }))
}

/// Writes a circuit with some of its properties.
pub fn run<F: Read + Drop, W: Write>(alloc: Global, it: Select<F>, out: &mut W) -> Result<(), Exit>
    ensures ends { EndsSelect (seen W.written W.failures out.old out.new) F.remaining it result }
{
    let mut circuit = KnownReader::new(it.circuit);
    let asked = select::Selection {
        from: it.selection.from,
        into: it.selection.into,
        positions: it.selection.positions.as_slice(),
    };
    let done = select::select(alloc, &mut circuit, asked, it.to, out);
    streamed(done, out, RunFault::Output)
}

/// Writes a circuit with some of its properties, under the names of a text.
pub fn run_named<F: Read + Drop, W: Write>(
    alloc: Global,
    it: SelectNamed<F>,
    out: &mut W,
) -> Result<(), Exit>
    ensures ends { EndsSelectNamed (seen W.written W.failures out.old out.new) F.remaining it result }
{
    let names = read_whole(alloc, it.names, Part::Names)?;
    let mut circuit = KnownReader::new(it.circuit);
    let positions = it.selection.positions.as_slice();
    let text = names.as_slice();
    let selection = NamedSelection {
        from: it.selection.from,
        into: it.selection.into,
        positions,
        names: text,
    };
    let done = select::select_named(alloc, &mut circuit, selection, it.to, out);
    streamed(done, out, RunFault::Output)
}
