//! Grids of rows, however these keep their cells.
ghost use Rattle.std.specs.Prelude.{◌≡◌, ℕ, ◌+◌, ◌<◌, ◌≤◌, length, map, fold, All, IfOk, OnOk};
ghost use Rattle.aig_parts.specs.Formed.{limit};
ghost use Rattle.aig_parts.specs.Literal.{variable};
ghost use Rattle.aig_values.specs.Cells.{fresh_row, literal_value, with_gate_value, HasVariablesBelow};
ghost use Rattle.aig_values.specs.state.Padded.{AreLengthened, IsRowSize};
ghost use Rattle.aig_values.specs.TraceText.{literal_character};

use crate::code::Code;
use crate::gate_order::gate_flags::GateFlags;
use crate::grid::Grid;
use crate::row::byte_row::ByteRow;
use crate::row::cell_row::CellRow;
use aig_bytes::{Count, Memory};
use aig_parts::{Gate, Lit, Tern};
use std::alloc::{AllocError, Global};
use std::marker::Model;

/// A grid of rows of one kind, each in memory of its own. Cells after the last variable are x, as that of a variable
/// that comes later has to be.
pub struct RowGrid<R: CellRow> {
    rows: Vec<R>,
    // A row that was taken off, whose memory the next one gets.
    spare: Option<R>,
    variables: u32,
    // How many variables each row has cells for.
    room: u32,
    gates: GateFlags,
    evaluations: Count,
    // Memory that sweeps work in, kept from one to the next.
    codes: Vec<Code>,
}

// By hand: a value then ends in one call, which is one step of a proof (docs/PROOFS.md, Habits).
impl<R: CellRow> Drop for RowGrid<R> {
    fn drop(self) {
        let RowGrid {
            rows: _,
            spare: _,
            variables: _,
            room: _,
            gates: _,
            evaluations: _,
            codes: _,
        } = self;
    }
}

/// A grid that keeps a byte for each cell.
pub type ByteGrid = RowGrid<ByteRow>;

impl<R: CellRow> Model for RowGrid<R> {
    ghost use Rattle.std.specs.Prelude.{map, take, nat_lt};
    ghost use Rattle.aig_values.specs.Cells.{Cells};

    ghost Value = { Cells };

    ghost use Rattle.aig_values.specs.state.Padded.{ArePadded};

    ghost view = { λ g. record {
      cells = map (take g.variables) (map R.cells g.rows.items);
      gate_flags = g.gates.flags;
      evaluations = g.evaluations.number;
      room = nat_lt g.variables g.room;
    } };

    ghost invariant = { λ g. ArePadded g.variables g.room g.gates.flags (map R.cells g.rows.items) };
}

// The value of a literal.
fn literal_in<R: CellRow>(row: &R, literal: Lit) -> Tern
    requires { variable literal < length (R.cells row.now) }
    ensures { result ≡ literal_value (R.cells row.now) literal }
{
    row.literal(literal).value()
}

// The character of the value of a literal.
fn character_in<R: CellRow>(row: &R, literal: Lit) -> u8
    requires { variable literal < length (R.cells row.now) }
    ensures { result ≡ literal_character (R.cells row.now) literal }
{
    row.get(literal.var() as usize).character(literal.is_neg())
}

// Evaluates gates one after the other, in the order of the slice; at once where the row has a way to.
fn sweep_row<R: CellRow>(row: &mut R, codes: &mut Vec<Code>, gates: &[Gate])
    requires { All (HasVariablesBelow (length (R.cells row.old))) gates.now }
    ensures { R.cells row.new ≡ fold with_gate_value (R.cells row.old) gates.now }
{
    if !row.sweep_at_once(codes, gates) {
        for gate in gates {
            let _changed = row.evaluate(*gate);
        }
    }
}

// Gives each row cells for so many variables, at most one more than it has.
fn make_room<R: CellRow>(rows: &mut [R], size: usize) -> Result<(), AllocError>
    requires more { All (λ row. size ≤ length (R.cells row) + 1) rows.old }
    requires limit { size ≤ limit + 1 }
    ensures rows { AreLengthened (map R.cells rows.old) (map R.cells rows.new) }
    ensures ok { OnOk result (All (λ row. size ≤ length (R.cells row)) rows.new) }
{
    for frame in 0..rows.len() {
        rows[frame].make_room(size)?;
    }
    Ok(())
}

// A row with room for this many cells at least, in the memory of the spare one: 0 at variable 0, x everywhere else.
fn next_row<R: CellRow>(spare: &mut Option<R>, alloc: Global, size: usize) -> Result<R, AllocError>
    requires { IsRowSize size }
    ensures { IfOk result (λ row. (room : ℕ) × (size ≤ room) × (R.cells row ≡ fresh_row room)) }
{
    match spare.take() {
        Some(row) => row.renewed(alloc, size),
        None => R::new(alloc, size),
    }
}

// Counts so many evaluations.
fn count_more(count: &mut Count, more: usize)
    ensures { count.new.number ≡ count.old.number + more }
{
    for _ in 0..more {
        *count = Count::one_more(count);
    }
}

impl<R: CellRow> Grid for RowGrid<R> {
    ghost cells = { λ g. g.cells };

    ghost gate_flags = { λ g. g.gate_flags };

    ghost evaluations = { λ g. g.evaluations };

    ghost has_room = { λ g. g.room };

    fn new(alloc: Global, gates: &[bool]) -> Result<RowGrid<R>, Memory> {
        Ok(RowGrid {
            rows: Vec::new(alloc),
            spare: None,
            variables: gates.len() as u32,
            room: gates.len() as u32,
            gates: GateFlags::of(gates),
            evaluations: Count::zero(),
            codes: Vec::new(alloc),
        })
    }

    fn rows(&self) -> u32 {
        self.rows.len() as u32
    }

    fn get(&self, frame: u32, variable: u32) -> Tern {
        self.rows[frame as usize].get(variable as usize).value()
    }

    fn literal(&self, frame: u32, literal: Lit) -> Tern {
        literal_in(&self.rows[frame as usize], literal)
    }

    fn character(&self, frame: u32, literal: Lit) -> u8 {
        character_in(&self.rows[frame as usize], literal)
    }

    fn spell(&self, frame: u32, text: &mut [u8], literals: &[Lit]) {
        self.rows[frame as usize].spell(text, literals);
    }

    fn put_source(&mut self, frame: u32, variable: u32, value: Tern) {
        self.rows[frame as usize].set(variable as usize, Code::of(value));
    }

    fn evaluate(&mut self, frame: u32, gate: Gate) -> bool {
        let changed = self.rows[frame as usize].evaluate(gate);
        self.evaluations = Count::one_more(&self.evaluations);
        changed
    }

    fn sweep(&mut self, frame: u32, gates: &[Gate]) {
        sweep_row(&mut self.rows[frame as usize], &mut self.codes, gates);
        count_more(&mut self.evaluations, gates.len());
    }

    fn add_row(&mut self) -> Result<(), Memory> {
        let alloc = *self.rows.allocator();
        let row = next_row(&mut self.spare, alloc, self.room as usize)?;
        self.rows.push(row)?;
        Ok(())
    }

    fn drop_row(&mut self) {
        self.spare = self.rows.pop();
    }

    fn reserve_gate(&mut self) -> Result<(), Memory> {
        let wanted = self.variables + 1;
        if self.room < wanted {
            make_room(&mut self.rows, wanted as usize)?;
            self.room = wanted;
        }
        Ok(())
    }

    fn add_gate(&mut self) {
        self.variables += 1;
        self.gates = GateFlags::one_more(&self.gates);
    }
}
