//! The transitive fan-out of a gate.
ghost use Rattle.std.specs.Prelude.{◌≡◌, ◌⊎◌, ◌<◌, length, All, Contains};
ghost use Rattle.std.specs.Vec.{vec_capacity};
ghost use Rattle.std.specs.Bool.{OnTrue, OnFalse};
ghost use Rattle.aig_base.specs.Levels.{AreLevels};
ghost use Rattle.aig_parts.specs.Literal.{variable};
ghost use Rattle.aig_base.specs.Readers.{AreReaders};
ghost use Rattle.aig_base.specs.state.Rewires.{IsApart, IsInFanOut, LooksAt};
ghost use Rattle.aig_base.specs.Sections.{IsDefined, IsGate};
ghost use Rattle.aig_base.specs.state.Visits.{AreNoVisits, AreVisits, VisitsAmong};

use crate::circuit::Circuit;
use crate::level::visits::Visits;
use crate::readers::Readers;
use aig_parts::Gate;

/// What a search looks for: one of two variables, in the fan-out of others whose levels are below a bound.
#[derive(Clone, Copy)]
struct Sought {
    first: u32,
    second: u32,
    bound: u32,
}

// Visits the variables of a list whose levels are below the bound. Returns whether one of the sought ones stands
// there, and then stops.
fn visit_below(list: &[u32], levels: &[u32], visits: &mut Visits, sought: Sought) -> bool
    requires within { All (λ v. v < length levels.now) list.now }
    requires size { length visits.old.met.items ≡ length levels.now }
    requires visits { AreVisits visits.old }
    ensures among { VisitsAmong list.now visits.old visits.new }
    ensures found { OnTrue result (Contains list.now sought.first ⊎ Contains list.now sought.second) }
    ensures looked { OnFalse result (LooksAt list.now levels.now sought.first sought.second sought.bound visits.new) }
{
    for reader in list {
        if *reader == sought.first || *reader == sought.second {
            return true;
        }
        if levels[*reader as usize] < sought.bound {
            visits.visit(*reader);
        }
    }
    false
}

/// A circuit as a graph: from each variable to the gates that read it.
#[derive(Clone, Copy)]
pub(crate) struct FanOutGraph<'a> {
    pub(crate) circuit: &'a Circuit,
    pub(crate) readers: &'a Readers,
}

impl FanOutGraph<'_> {
    // Visits a gate's fan-out as far as levels are below the bound. Returns whether one of the sought variables is in
    // the fan-out and not the gate itself, and then stops.
    fn search(&self, levels: &[u32], visits: &mut Visits, gate: u32, sought: Sought) -> bool
        requires gate { IsGate self.now.circuit.now gate }
        requires levels { AreLevels self.now.circuit.now levels.now }
        requires readers { AreReaders self.now.circuit.now self.now.readers.now }
        requires visits { AreNoVisits (length levels.now) visits.old }
        ensures found { OnTrue result (IsInFanOut self.now.circuit.now gate sought.first
            ⊎ IsInFanOut self.now.circuit.now gate sought.second) }
        ensures none { OnFalse result (IsApart self.now.circuit.now gate sought.bound sought.first
            × IsApart self.now.circuit.now gate sought.bound sought.second) }
        ensures visits { AreVisits visits.new }
        ensures size { length visits.new.met.items ≡ length visits.old.met.items }
        ensures capacity { vec_capacity visits.new.list ≡ vec_capacity visits.old.list }
    {
        self.circuit.facts();
        visits.visit(gate);
        let mut next = 0;
        while next < visits.list.len() {
            let list = self.readers.list(visits.list[next]);
            if visit_below(list, levels, visits, sought) {
                return true;
            }
            next += 1;
        }
        false
    }

    /// Whether a changed gate closes a cycle: a right side is in its fan-out, so it is the gate or reads from there. The
    /// search goes from the gate through readers, and only through those whose level is below that of one of the sides,
    /// since what reads a variable has a greater level. No memory.
    pub(crate) fn closes_cycle(&self, changed: &Gate, levels: &[u32], visits: &mut Visits) -> bool
        requires gate { IsGate self.now.circuit.now (variable changed.now.lhs) }
        requires defined0 { IsDefined self.now.circuit.now (variable changed.now.rhs0) }
        requires defined1 { IsDefined self.now.circuit.now (variable changed.now.rhs1) }
        requires levels { AreLevels self.now.circuit.now levels.now }
        requires readers { AreReaders self.now.circuit.now self.now.readers.now }
        requires visits { AreNoVisits (length levels.now) visits.old }
        ensures reached { OnTrue result
            (IsInFanOut self.now.circuit.now (variable changed.now.lhs) (variable changed.now.rhs0)
            ⊎ IsInFanOut self.now.circuit.now (variable changed.now.lhs) (variable changed.now.rhs1)) }
        ensures none { OnFalse result
            ((IsInFanOut self.now.circuit.now (variable changed.now.lhs) (variable changed.now.rhs0) → ⊥)
            × (IsInFanOut self.now.circuit.now (variable changed.now.lhs) (variable changed.now.rhs1) → ⊥)) }
        ensures visits { AreNoVisits (length levels.now) visits.new }
    {
        self.circuit.facts();
        let gate = changed.lhs.var();
        let first = changed.rhs0.var();
        let second = changed.rhs1.var();
        if first == gate || second == gate {
            return true;
        }
        let bound = levels[first as usize].max(levels[second as usize]);
        let sought = Sought {
            first,
            second,
            bound,
        };
        let found = self.search(levels, visits, gate, sought);
        visits.clear();
        found
    }
}
