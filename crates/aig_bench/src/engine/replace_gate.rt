//! A gate that reads others than before, in what a bench keeps.
ghost use Rattle.std.specs.Prelude.{◌≡◌, ◌⊎◌, [], ◌∷◌, IfErr, OnOk, OnErr};
ghost use Rattle.aig_base.specs.Changes.{with_gate};
ghost use Rattle.aig_base.specs.Grounded.{IsAcyclic};
ghost use Rattle.aig_base.specs.Sections.{IsDefined, IsLeftSide};
ghost use Rattle.aig_parts.specs.Literal.{variable};
ghost use Rattle.aig_bench.specs.Edit.{edited, rewire};
ghost use Rattle.aig_bench.specs.Fanout.{HasFourReaders};
ghost use Rattle.aig_bench.specs.state.Engine.{IsSettled};

use crate::edit::EditFault;
use crate::engine::Engine;
use aig_base::Lit;
use aig_values::Grid;

impl<G: Grid> Engine<G> {
    /// Gives a gate other right sides, unless they close a cycle. The cells stay as they are.
    pub fn replace_gate(&mut self, lhs: Lit, r0: Lit, r1: Lit) -> Result<(), EditFault>
        requires settled { IsSettled self.old }
        requires gate { IsLeftSide self.old.pair.circuit lhs }
        requires defined { IsDefined self.old.pair.circuit (variable r0)
            × IsDefined self.old.pair.circuit (variable r1) }
        ensures acyclic { OnOk result (IsAcyclic (with_gate self.old.pair.circuit lhs r0 r1)) }
        ensures rewired { OnOk result (self.new ≡ record self.old {
          pair = edited self.old.pair (rewire lhs r0 r1);
          levels = self.new.levels;
          way = self.new.way;
        }) }
        ensures same { OnErr result (self.new ≡ self.old) }
        ensures cycle { IfErr result (λ f. f ≡ EditFault.Cycle
            → IsAcyclic (with_gate self.old.pair.circuit lhs r0 r1) → ⊥) }
        ensures others { IfErr result (λ f. (f ≡ EditFault.Cycle) ⊎ (f ≡ EditFault.Memory)) }
        ensures memory { IfErr result (λ f. f ≡ EditFault.Memory →
            HasFourReaders self.old.pair.circuit (variable r0) ⊎ HasFourReaders self.old.pair.circuit (variable r1)) }
    {
        let circuit = &mut self.driven.circuit;
        let fanouts = &mut self.fanouts;
        let buckets = &mut self.pending.buckets;
        fanouts.readers.make_room(r0, r1)?;
        match fanouts
            .levels
            .rewire_with(circuit, &fanouts.readers, lhs, r0, r1, buckets)
        {
            Ok(()) => {}
            Err(_) => return Err(EditFault::Cycle),
        }
        fanouts.readers.replace(circuit, lhs, r0, r1);
        circuit.replace_gate(lhs, r0, r1);
        buckets.set_sides(lhs.var(), r0, r1);
        self.order.forget();
        Ok(())
    }
}
