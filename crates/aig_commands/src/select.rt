//! `select`: a circuit with some of its properties.
ghost use Rattle.std.specs.Prelude.{◌≡◌, IfErr, IfOk};
ghost use Rattle.aig_bytes.specs.Flow.{flow};
ghost use Rattle.aig_command.specs.Command.{CommandEnds, OfReader};
ghost use Rattle.aig_commands.specs.Select.{Selects, SelectsNamed};
ghost use Rattle.aig_commands.specs.state.NamedSelections.{IsSelectedAndNamed, RefusesNamedSelection};

use crate::toaig::write_converted;
use aig_base::{Circuit, PropertySection, Read, Write};
use aig_command::RunFault;
use aig_format::{Format, read_from};
use aig_signals::named;
use std::alloc::Global;

/// Which properties of a circuit to keep, and where.
#[derive(Clone, Copy)]
pub struct Selection<'a> {
    /// The section that has them.
    pub from: PropertySection,
    /// The section that they go to.
    pub into: PropertySection,
    /// Their positions, counted from 0; all of the section if there is none.
    pub positions: &'a [u32],
}

impl Selection<'_> {
    /// Keeps them in a circuit, and writes it in a format.
    fn write_selected<W: Write>(
        &self,
        alloc: Global,
        circuit: &mut Circuit,
        to: Format,
        out: &mut W,
    ) -> Result<(), RunFault>
        ensures { CommandEnds (flow W.written W.failures out.old out.new) RunFault.Output
            (Selects self.now.from self.now.into self.now.positions.now to circuit.old) result }
    {
        circuit.select(alloc, self.from, self.into, self.positions)?;
        write_converted(alloc, circuit, to, out)
    }
}

/// The command `select`: reads a circuit and writes it in a format, as `convert_from` does, with some of its properties
/// alone. They are those of the section `from` at the positions that are named, counted from 0, in the order in which
/// they are named; all of the section where none is named. They are written in the section `into`. Inputs, latches,
/// constraints, gates and the comment stay, and a kept property keeps its name. The file is never held whole. Where it
/// is refused, or the section does not have a property that is named, nothing is written.
pub fn select<R: Read, W: Write>(
    alloc: Global,
    circuit: &mut R,
    selection: Selection<'_>,
    to: Format,
    out: &mut W,
) -> Result<(), RunFault>
    ensures ends { CommandEnds (flow W.written W.failures out.old out.new) RunFault.Output
        (OfReader (flow R.left R.failures circuit.old circuit.new)
        (Selects selection.entry.from selection.entry.into selection.entry.positions.now to)) result }
{
    match read_from(alloc, circuit) {
        Ok(mut circuit) => selection.write_selected(alloc, &mut circuit, to, out),
        Err(fault) => Err(RunFault::Circuit(fault)),
    }
}

/// Which properties of a circuit to keep, where, and the text of their names.
#[derive(Clone, Copy)]
pub struct NamedSelection<'a> {
    /// The section that has them.
    pub from: PropertySection,
    /// The section that they go to.
    pub into: PropertySection,
    /// Their positions, counted from 0; all of the section if there is none.
    pub positions: &'a [u32],
    /// One name per line.
    pub names: &'a [u8],
}

impl NamedSelection<'_> {
    /// The circuit with these properties, under these names.
    fn of(&self, alloc: Global, circuit: &mut Circuit) -> Result<Circuit, RunFault>
        ensures selected { IfOk result (IsSelectedAndNamed self.now circuit.old) }
        ensures refused { IfErr result (RefusesNamedSelection self.now circuit.old) }
    {
        circuit.select(alloc, self.from, self.into, self.positions)?;
        Ok(named(alloc, circuit, self.into, self.names)?)
    }

    /// Writes it in a format.
    fn write<W: Write>(
        &self,
        alloc: Global,
        circuit: &mut Circuit,
        to: Format,
        out: &mut W,
    ) -> Result<(), RunFault>
        ensures { CommandEnds (flow W.written W.failures out.old out.new) RunFault.Output
            (SelectsNamed self.now to circuit.old) result }
    {
        let named = self.of(alloc, circuit)?;
        write_converted(alloc, &named, to, out)
    }
}

/// The command `select --names`: as `select`, and the properties that are kept have the names of a text, one per line,
/// in the order in which they are written. An empty line gives a property no name. Where the text is not one line per
/// property, nothing is written. It takes memory for a copy of the circuit.
pub fn select_named<R: Read, W: Write>(
    alloc: Global,
    circuit: &mut R,
    selection: NamedSelection<'_>,
    to: Format,
    out: &mut W,
) -> Result<(), RunFault>
    ensures ends { CommandEnds (flow W.written W.failures out.old out.new) RunFault.Output
        (OfReader (flow R.left R.failures circuit.old circuit.new) (SelectsNamed selection.entry to)) result }
{
    match read_from(alloc, circuit) {
        Ok(mut circuit) => selection.write(alloc, &mut circuit, to, out),
        Err(fault) => Err(RunFault::Circuit(fault)),
    }
}
