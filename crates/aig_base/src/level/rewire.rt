//! Levels of a circuit in which a gate gets other right sides, its fan-ins.
ghost use Rattle.std.specs.Prelude.{◌≡◌, OnErr, OnOk};
ghost use Rattle.aig_base.specs.Changes.{with_gate};
ghost use Rattle.aig_base.specs.Grounded.{IsAcyclic};
ghost use Rattle.aig_base.specs.Levels.{AreLevels};
ghost use Rattle.aig_parts.specs.Literal.{variable};
ghost use Rattle.aig_base.specs.Readers.{AreReaders};
ghost use Rattle.aig_base.specs.Sections.{IsDefined, IsLeftSide};

use crate::circuit::Circuit;
use crate::level::Levels;
use crate::level::level_copy::{LevelCopy, NoCopy};
use crate::level::transitive_fan_out::FanOutGraph;
use crate::readers::Readers;
use aig_parts::{Gate, Lit, WouldCycle};

impl Levels {
    /// Makes these the levels of the circuit with other right sides at a gate, and refuses that where it would close a
    /// cycle. `circuit` is the circuit before that, with its levels and readers; `gate` is the gate's even literal, and
    /// the right sides are defined. It looks at the fan-out of `gate` alone: for a cycle only at gates whose level is
    /// below that of a new right side, and then at those that read a level that changed. No memory.
    pub fn rewire(
        &mut self,
        circuit: &Circuit,
        readers: &Readers,
        gate: Lit,
        r0: Lit,
        r1: Lit,
    ) -> Result<(), WouldCycle>
        requires gate { IsLeftSide circuit.now gate }
        requires defined0 { IsDefined circuit.now (variable r0) }
        requires defined1 { IsDefined circuit.now (variable r1) }
        requires levels { AreLevels circuit.now self.old }
        requires readers { AreReaders circuit.now readers.now }
        ensures acyclic { OnOk result (IsAcyclic (with_gate circuit.now gate r0 r1)) }
        ensures levels { OnOk result (AreLevels (with_gate circuit.now gate r0 r1) self.new) }
        ensures cycle { OnErr result (IsAcyclic (with_gate circuit.now gate r0 r1) → ⊥) }
        ensures unchanged { OnErr result (self.new ≡ self.old) }
    {
        self.rewire_with(circuit, readers, gate, r0, r1, &mut NoCopy)
    }

    /// The same as `rewire`, for a caller that keeps a copy of the levels: it makes the same changes to `copy`.
    pub fn rewire_with<C: LevelCopy>(
        &mut self,
        circuit: &Circuit,
        readers: &Readers,
        gate: Lit,
        r0: Lit,
        r1: Lit,
        copy: &mut C,
    ) -> Result<(), WouldCycle>
        requires gate { IsLeftSide circuit.now gate }
        requires defined0 { IsDefined circuit.now (variable r0) }
        requires defined1 { IsDefined circuit.now (variable r1) }
        requires levels { AreLevels circuit.now self.old }
        requires readers { AreReaders circuit.now readers.now }
        requires copy { C.has copy.old self.old }
        ensures acyclic { OnOk result (IsAcyclic (with_gate circuit.now gate r0 r1)) }
        ensures levels { OnOk result (AreLevels (with_gate circuit.now gate r0 r1) self.new) }
        ensures cycle { OnErr result (IsAcyclic (with_gate circuit.now gate r0 r1) → ⊥) }
        ensures unchanged { OnErr result (self.new ≡ self.old) }
        ensures copy { C.has copy.new self.new }
        ensures rest { C.rest copy.new ≡ C.rest copy.old }
        ensures copy_unchanged { OnErr result (copy.new ≡ copy.old) }
    {
        circuit.facts();
        let changed = Gate {
            lhs: gate,
            rhs0: r0,
            rhs1: r1,
        };
        let graph = FanOutGraph { circuit, readers };
        if graph.closes_cycle(&changed, &self.levels, &mut self.worklist.visits) {
            return Err(WouldCycle);
        }
        graph.renew(&changed, &mut self.levels, copy, &mut self.worklist);
        Ok(())
    }
}
