//! What is known of reduced witnesses. The law is a function that does nothing: its contract is the law.
ghost use Rattle.std.specs.Prelude.{◌≡◌};
ghost use Rattle.aig_parts.specs.declared.raw.Raw.{Raw};
ghost use Rattle.aig_base.specs.Circuit.{IsCircuit};
ghost use Rattle.aig_sim.specs.WitnessText.{Witness};
ghost use Rattle.aig_reduce.specs.Reduction.{IsReduced};
ghost use Rattle.aig_reduce.specs.Irreducible.{HoldsReduced, IsConfirmedWitness};

/// The reduced witness of a confirmed one is confirmed: its run reaches the bad state whatever its x turn out to be.
/// Each of its values is the given one or x. It is irreducible: no witness that has more x beside its values is
/// confirmed (our own choice).
pub fn law_of_reduction()
    ensures { (raw : Raw) (given new : Witness) → IsCircuit raw → IsConfirmedWitness raw given →
        IsReduced raw given new → HoldsReduced raw given new }
{}
