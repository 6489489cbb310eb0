//! Right sides that close a cycle, and rewires with levels and readers that are renewed in place. A bench does all of
//! that in one step.
ghost use Rattle.std.specs.Prelude.{IsTrue};
ghost use Rattle.aig_base.specs.Levels.{AreLevels};
ghost use Rattle.aig_parts.specs.Literal.{variable};
ghost use Rattle.aig_base.specs.Readers.{AreReaders};
ghost use Rattle.aig_base.specs.Sections.{IsDefined, IsLeftSide};

use crate::calls::parts::{TWO_GATES, of_file};
use aig_base::{Circuit, Gate, Levels, Lit, Memory, Readers, would_cycle};
use std::alloc::Global;

// Whether the variable of a literal is defined.
fn is_defined(circuit: &Circuit, literal: Lit) -> bool
    ensures { IsTrue result → IsDefined circuit.now (variable literal) }
{
    circuit.definition(literal.var()).is_some()
}

// Whether other right sides of the gate of a literal close a cycle, as they should.
fn closes(alloc: Global, circuit: &Circuit, row: [u32; 3], cycle: bool) -> bool {
    let [gate, r0, r1] = row;
    let first = Lit::new(r0);
    let second = Lit::new(r1);
    match circuit.gate_of(gate / 2) {
        Some(gate) if is_defined(circuit, first) && is_defined(circuit, second) => {
            would_cycle(alloc, circuit, gate.lhs, first, second) == Ok(cycle)
        }
        _ => false,
    }
}

static CYCLES: [(&[u8], [u32; 3], bool); 5] = [
    (TWO_GATES, [6, 8, 2], true),
    (TWO_GATES, [6, 2, 9], true),
    (TWO_GATES, [8, 8, 2], true),
    (TWO_GATES, [8, 2, 4], false),
    (b"aag 4 2 0 1 2\n2\n4\n8\n8 2 4\n6 2 4\n", [6, 8, 2], false),
];

/// Right sides close a cycle exactly where a gate would read itself, whatever the levels.
pub fn close_cycles(alloc: Global) -> bool {
    let mut right = true;
    for &(file, row, cycle) in &CYCLES {
        right &= of_file(
            alloc,
            file,
            |alloc, circuit| closes(alloc, circuit, row, cycle),
        );
    }
    right
}

// Whether the gate of this left side got these right sides; it does not where they close a cycle.
fn rewire_parts(
    circuit: &mut Circuit,
    levels: &mut Levels,
    readers: &mut Readers,
    gate: Gate,
) -> Result<bool, Memory>
    requires gate { IsLeftSide circuit.old gate.lhs }
    requires defined0 { IsDefined circuit.old (variable gate.rhs0) }
    requires defined1 { IsDefined circuit.old (variable gate.rhs1) }
    requires levels { AreLevels circuit.old levels.old }
    requires readers { AreReaders circuit.old readers.old }
    ensures levels { AreLevels circuit.new levels.new }
    ensures readers { AreReaders circuit.new readers.new }
{
    circuit.facts();
    let Gate { lhs, rhs0, rhs1 } = gate;
    readers.make_room(rhs0, rhs1)?;
    if levels.rewire(circuit, readers, lhs, rhs0, rhs1).is_err() {
        return Ok(false);
    }
    readers.replace(circuit, lhs, rhs0, rhs1);
    circuit.replace_gate(lhs, rhs0, rhs1);
    Ok(true)
}

// A gate with its new right sides, whether it gets them, and the level that the last gate has then.
#[derive(Clone, Copy)]
struct Rewire {
    gate: [u32; 3],
    done: bool,
    level: u32,
}

impl Rewire {
    // Whether the rewire goes so.
    fn goes_well(self, circuit: &mut Circuit, levels: &mut Levels, readers: &mut Readers) -> bool
        requires levels { AreLevels circuit.old levels.old }
        requires readers { AreReaders circuit.old readers.old }
        ensures levels { AreLevels circuit.new levels.new }
        ensures readers { AreReaders circuit.new readers.new }
    {
        let [lhs, rhs0, rhs1] = self.gate;
        let Some(old) = circuit.gate_of(lhs / 2) else {
            return false;
        };
        let gate = Gate {
            lhs: old.lhs,
            rhs0: Lit::new(rhs0),
            rhs1: Lit::new(rhs1),
        };
        if !is_defined(circuit, gate.rhs0) || !is_defined(circuit, gate.rhs1) {
            return false;
        }
        rewire_parts(circuit, levels, readers, gate) == Ok(self.done)
            && levels.level(circuit.max_var()) == self.level
    }
}

const CYCLE: Rewire = Rewire {
    gate: [6, 8, 2],
    done: false,
    level: 2,
};

const NO_READER: Rewire = Rewire {
    gate: [8, 2, 4],
    done: true,
    level: 1,
};

const NO_CYCLE: Rewire = Rewire {
    gate: [6, 8, 2],
    done: true,
    level: 1,
};

fn go_well(circuit: &mut Circuit, levels: &mut Levels, readers: &mut Readers) -> bool
    requires levels { AreLevels circuit.old levels.old }
    requires readers { AreReaders circuit.old readers.old }
{
    CYCLE.goes_well(circuit, levels, readers)
        && NO_READER.goes_well(circuit, levels, readers)
        && NO_CYCLE.goes_well(circuit, levels, readers)
        && readers.list(circuit.max_var()) == [3].as_slice()
}

fn is_rewired(alloc: Global, circuit: &mut Circuit) -> bool {
    let Ok(mut levels) = Levels::of(alloc, circuit) else {
        return false;
    };
    match Readers::of(alloc, circuit) {
        Ok(mut readers) => go_well(circuit, &mut levels, &mut readers),
        Err(_) => false,
    }
}

/// A cycle is refused until it is no more one; levels and readers go with the gates.
pub fn go_in_turn(alloc: Global) -> bool {
    of_file(alloc, TWO_GATES, is_rewired)
}
