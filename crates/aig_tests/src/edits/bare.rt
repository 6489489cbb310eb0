//! A grid with the calls alone that a grid has to have: what else the trait offers, it has from there.
use aig_base::{Gate, Memory, Tern};
use aig_sim::{ByteGrid, Grid};
use std::alloc::Global;

#[derive(Drop)]
pub struct Bare {
    inner: ByteGrid,
}

impl Grid for Bare {
    ghost cells = { λ g. g.inner.cells };

    ghost gate_flags = { λ g. g.inner.gate_flags };

    ghost evaluations = { λ g. g.inner.evaluations };

    ghost has_room = { λ g. g.inner.room };

    fn new(alloc: Global, gates: &[bool]) -> Result<Bare, Memory> {
        Ok(Bare {
            inner: ByteGrid::new(alloc, gates)?,
        })
    }

    fn rows(&self) -> u32 {
        self.inner.rows()
    }

    fn get(&self, frame: u32, variable: u32) -> Tern {
        self.inner.get(frame, variable)
    }

    fn put_source(&mut self, frame: u32, variable: u32, value: Tern) {
        self.inner.put_source(frame, variable, value)
    }

    fn evaluate(&mut self, frame: u32, gate: Gate) -> bool {
        self.inner.evaluate(frame, gate)
    }

    fn add_row(&mut self) -> Result<(), Memory> {
        self.inner.add_row()
    }

    fn drop_row(&mut self) {
        self.inner.drop_row()
    }

    fn reserve_gate(&mut self) -> Result<(), Memory> {
        self.inner.reserve_gate()
    }

    fn add_gate(&mut self) {
        self.inner.add_gate()
    }
}
