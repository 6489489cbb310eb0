//! The levels and the fan-outs of a circuit.
ghost use Rattle.std.specs.Prelude.{IfOk};
ghost use Rattle.aig_bench.specs.state.Pending.{AreFanouts};

use crate::propagate::latch_readers::LatchReaders;
use aig_base::{Circuit, Levels, Memory, Readers};
use std::alloc::Global;

/// For each variable its level, and which gates and latches read it.
#[derive(Drop)]
pub struct Fanouts {
    pub levels: Levels,
    /// For each variable the gates that read it.
    pub readers: Readers,
    /// For each variable the latches that read it.
    pub latches: LatchReaders,
}

impl Fanouts {
    /// The levels and the fan-outs of a circuit.
    pub fn of(alloc: Global, circuit: &Circuit) -> Result<Fanouts, Memory>
        ensures { IfOk result (AreFanouts circuit.now) }
    {
        let levels = Levels::of(alloc, circuit)?;
        let readers = Readers::of(alloc, circuit)?;
        let latches = LatchReaders::of(alloc, circuit)?;
        Ok(Fanouts {
            levels,
            readers,
            latches,
        })
    }
}
