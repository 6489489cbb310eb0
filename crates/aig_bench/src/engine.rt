//! A circuit and a stimulus on a grid of cells, with what it takes to keep the cells current.

pub(crate) mod driven_circuit;
pub(crate) mod fanouts;
mod new_engine;
mod new_frame;
pub(crate) mod new_gate;
mod new_grid;
mod replace_gate;
mod sweep_order;

use crate::engine::driven_circuit::DrivenCircuit;
use crate::engine::fanouts::Fanouts;
use crate::engine::sweep_order::Order;
use crate::propagate::pending::Pending;
use aig_values::Grid;
use std::marker::Model;

/// Circuit, stimulus and cells, the levels and the fan-outs, an order of the gates, and what a propagation has still to
/// look at. Contracts see the pair, the cells and what is still to be looked at.
pub struct Engine<G: Grid> {
    pub driven: DrivenCircuit,
    pub fanouts: Fanouts,
    pub pending: Pending,
    pub order: Order,
    pub grid: G,
}

// By hand: a value then ends in one call, which is one step of a proof (docs/PROOFS.md, Habits).
impl<G: Grid> Drop for Engine<G> {
    fn drop(self) {
        let Engine {
            driven: _,
            fanouts: _,
            pending: _,
            order: _,
            grid: _,
        } = self;
    }
}

impl<G: Grid> Model for Engine<G> {
    ghost use Rattle.aig_bench.specs.state.Engine.{EngineState};

    ghost Value = { EngineState };

    ghost use Rattle.aig_bench.specs.state.Pending.{IsEngine, state_of};

    ghost view = { λ e. state_of e.driven e.fanouts e.pending e.order (G.cells e.grid) (G.evaluations e.grid) };

    ghost invariant = { λ e. IsEngine e.driven e.fanouts e.pending e.order (G.gate_flags e.grid) (G.cells e.grid) };
}
