//! Grids that keep two bits for each cell, in two planes.
use crate::grid::Grid;
use crate::grid::row_grid::RowGrid;
use crate::row::plane_row::PlaneRow;
use aig_bytes::Memory;
use aig_parts::{Gate, Lit, Tern};
use std::alloc::Global;

/// A grid that keeps two bits for each cell, in two planes. A type of its own and no name for `RowGrid<PlaneRow>`: what
/// has such a grid is proved without a parameter, in three quarters of the time.
pub struct PlaneGrid {
    rows: RowGrid<PlaneRow>,
}

// By hand: a value then ends in one call, which is one step of a proof (docs/PROOFS.md, Habits).
impl Drop for PlaneGrid {
    fn drop(self) {
        let PlaneGrid { rows: _ } = self;
    }
}

impl Grid for PlaneGrid {
    ghost cells = { λ g. g.rows.cells };

    ghost gate_flags = { λ g. g.rows.gate_flags };

    ghost evaluations = { λ g. g.rows.evaluations };

    ghost has_room = { λ g. g.rows.room };

    fn new(alloc: Global, gates: &[bool]) -> Result<PlaneGrid, Memory> {
        let rows = RowGrid::new(alloc, gates)?;
        Ok(PlaneGrid { rows })
    }

    fn rows(&self) -> u32 {
        self.rows.rows()
    }

    fn get(&self, frame: u32, variable: u32) -> Tern {
        self.rows.get(frame, variable)
    }

    fn literal(&self, frame: u32, literal: Lit) -> Tern {
        self.rows.literal(frame, literal)
    }

    fn character(&self, frame: u32, literal: Lit) -> u8 {
        self.rows.character(frame, literal)
    }

    fn spell(&self, frame: u32, text: &mut [u8], literals: &[Lit]) {
        self.rows.spell(frame, text, literals);
    }

    fn put_source(&mut self, frame: u32, variable: u32, value: Tern) {
        self.rows.put_source(frame, variable, value);
    }

    fn evaluate(&mut self, frame: u32, gate: Gate) -> bool {
        self.rows.evaluate(frame, gate)
    }

    fn sweep(&mut self, frame: u32, gates: &[Gate]) {
        self.rows.sweep(frame, gates);
    }

    fn add_row(&mut self) -> Result<(), Memory> {
        self.rows.add_row()
    }

    fn drop_row(&mut self) {
        self.rows.drop_row();
    }

    fn reserve_gate(&mut self) -> Result<(), Memory> {
        self.rows.reserve_gate()
    }

    fn add_gate(&mut self) {
        self.rows.add_gate();
    }
}
