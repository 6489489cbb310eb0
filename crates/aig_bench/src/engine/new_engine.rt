//! A new engine: what is made of a circuit and a stimulus.
ghost use Rattle.std.specs.Prelude.{◌≡◌, ◌+◌, ◌*◌, length, IfOk};
ghost use Rattle.aig_bench.specs.state.Current.{AreCurrent};
ghost use Rattle.aig_bench.specs.state.DrivenCircuit.{IsDriven, pair_of};
ghost use Rattle.aig_bench.specs.state.Engine.{IsSettled};
ghost use Rattle.aig_bench.specs.state.Filled.{FillsCells};
ghost use Rattle.aig_bench.specs.state.SweepOrder.{IsKnownOrder};

use crate::engine::Engine;
use crate::engine::driven_circuit::DrivenCircuit;
use crate::engine::fanouts::Fanouts;
use crate::engine::new_grid::lay_out;
use crate::engine::sweep_order::Order;
use crate::propagate::pending::Pending;
use aig_base::Memory;
use aig_values::Grid;
use std::alloc::Global;

impl<G: Grid> Engine<G> {
    /// Writes the values of all frames.
    pub fn fill_all(&mut self)
        requires known { IsKnownOrder self.old.way }
        ensures fills { FillsCells self.old self.new }
        ensures current { AreCurrent self.old.pair (length self.old.pair.rows) self.new.cells }
        ensures count { self.new.evaluations
            ≡ self.old.evaluations + length self.old.pair.circuit.gates * length self.old.pair.rows }
    {
        for frame in 0..self.driven.stimulus.frames() {
            self.fill(frame);
        }
    }

    /// An engine for a driven circuit, where nothing is to be looked at.
    pub fn new(alloc: Global, driven: DrivenCircuit) -> Result<Engine<G>, Memory>
        requires { IsDriven driven }
        ensures pair { IfOk result (λ engine. engine.pair ≡ pair_of driven) }
        ensures settled { IfOk result IsSettled }
        ensures evaluations { IfOk result (λ engine.
            engine.evaluations ≡ length driven.circuit.gates * length driven.stimulus.rows) }
    {
        let fanouts = Fanouts::of(alloc, &driven.circuit)?;
        let order = Order::of(alloc, &driven.circuit, &fanouts.levels)?;
        let pending = Pending::new(alloc, &driven, &fanouts)?;
        let grid = lay_out(alloc, &driven)?;
        let mut engine = Engine {
            driven,
            fanouts,
            pending,
            order,
            grid,
        };
        engine.fill_all();
        Ok(engine)
    }
}
