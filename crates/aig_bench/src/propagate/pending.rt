//! What is still to be looked at in a propagation: the queue of gates, and lists of latches.
ghost use Rattle.std.specs.Prelude.{IfOk, Bool, List};
ghost use Rattle.aig_parts.specs.declared.ternary.Tern as ternary;
ghost use Rattle.aig_bench.specs.state.DrivenCircuit.{IsDriven};
ghost use Rattle.aig_bench.specs.state.Current.{IsLaidOut};
ghost use Rattle.aig_bench.specs.state.Engine.{IsIdle};
ghost use Rattle.aig_bench.specs.state.Pending.{HasLists, AreFanouts};
ghost use Rattle.aig_bench.specs.state.Sweep.{IsWork};

use crate::engine::driven_circuit::DrivenCircuit;
use crate::engine::fanouts::Fanouts;
use crate::propagate::buckets::Buckets;
use crate::propagate::latch_list::LatchList;
use aig_base::Memory;
use std::alloc::Global;

/// What a propagation has still to look at. It takes memory when it is made and when the circuit grows, and else none.
#[derive(Drop)]
pub struct Pending {
    /// The gates of the current frame that are queued for their evaluation.
    pub buckets: Buckets,
    /// The latches that are carried into the current frame.
    pub here: LatchList,
    /// The latches that are carried into the next frame.
    pub ahead: LatchList,
}

impl Pending {
    /// What a propagation works on, for a driven circuit, where nothing is to be looked at.
    pub fn new(alloc: Global, driven: &DrivenCircuit, fanouts: &Fanouts) -> Result<Pending, Memory>
        requires driven { IsDriven driven.now }
        requires fanouts { AreFanouts driven.now.circuit fanouts.now }
        ensures work { IfOk result (λ w. (flags : List Bool) (cells : List (List ternary.Tern))
            → IsLaidOut driven.now flags cells
            → IsWork driven.now fanouts.now flags cells w.buckets) }
        ensures lists { IfOk result (λ w. HasLists driven.now fanouts.now w) }
        ensures quiet { IfOk result (λ w. IsIdle w.buckets.marks.items w.here.marks.items w.ahead.marks.items) }
    {
        let latches = driven.circuit.latches().len();
        let buckets = Buckets::of(alloc, &driven.circuit, &fanouts.levels)?;
        let here = LatchList::new(alloc, latches)?;
        let ahead = LatchList::new(alloc, latches)?;
        Ok(Pending {
            buckets,
            here,
            ahead,
        })
    }
}
