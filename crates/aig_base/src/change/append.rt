//! One more gate in a circuit, its levels and the fan-outs.
ghost use Rattle.std.specs.Prelude.{◌≡◌, ℕ, ◌+◌, ◌<◌, ◌∷◌, ◌++◌, [], length, OnErr, OnOk};
ghost use Rattle.std.specs.Vec.{vec_capacity};
ghost use Rattle.aig_base.specs.Changes.{CanAppend, next_gate, with_appended_gate};
ghost use Rattle.aig_parts.specs.Formed.{limit};
ghost use Rattle.aig_base.specs.Levels.{AreLevels};
ghost use Rattle.aig_base.specs.Readers.{AreReaders, KeepsReaders};
ghost use Rattle.aig_base.specs.state.Worklists.{FitsOneVariable, IsIdle};

use crate::change::forget;
use crate::circuit::Circuit;
use crate::circuit::definitions::next_gate_number;
use crate::level::worklist::Worklist;
use crate::level::{Levels, level_over};
use crate::readers::Readers;
use aig_bytes::Memory;
use aig_parts::{Gate, Lit};

impl Circuit {
    // The gate of the variable M + 1 with these right sides.
    fn next_gate(&self, r0: Lit, r1: Lit) -> Gate
        requires { self.now.max_var < limit }
        ensures { result ≡ next_gate self.now r0 r1 }
    {
        Gate {
            lhs: Lit::new(2 * (self.raw.max_var + 1)),
            rhs0: r0,
            rhs1: r1,
        }
    }

    // Appends that gate, or changes nothing.
    fn append_gate(&mut self, r0: Lit, r1: Lit) -> Result<(), Memory>
        requires { CanAppend self.old r0 r1 }
        ensures ok { OnOk result (self.new ≡ with_appended_gate self.old r0 r1) }
        ensures err { OnErr result (self.new ≡ self.old) }
    {
        let gate = self.next_gate(r0, r1);
        let number = next_gate_number(&self.raw);
        self.definitions.make_room()?;
        self.raw.gates.push(gate)?;
        self.definitions.append_gate(number);
        self.raw.max_var += 1;
        forget(&mut self.levels);
        Ok(())
    }
}

// Makes room for one more level.
fn make_room_for_level(levels: &mut Vec<u32>, worklist: &mut Worklist) -> Result<(), Memory>
    requires { IsIdle (length levels.old.items) worklist.old }
    ensures levels { levels.new.items ≡ levels.old.items }
    ensures idle { IsIdle (length levels.old.items) worklist.new }
    ensures level { OnOk result (length levels.new.items < vec_capacity levels.new) }
    ensures fits { OnOk result (FitsOneVariable (length levels.old.items) worklist.new) }
{
    levels.reserve(1)?;
    worklist.make_room()
}

// Adds the level of one more variable, where there is room.
fn append_level(levels: &mut Vec<u32>, worklist: &mut Worklist, level: u32)
    requires idle { IsIdle (length levels.old.items) worklist.old }
    requires level { length levels.old.items < vec_capacity levels.old }
    requires fits { FitsOneVariable (length levels.old.items) worklist.old }
    ensures levels { levels.new.items ≡ levels.old.items ++ level ∷ [] }
    ensures idle { IsIdle (length levels.old.items + 1) worklist.new }
{
    levels.push_reserved(level);
    worklist.add_variable();
}

/// Appends a gate with the variable M + 1 at the end of a circuit's gates, and makes M greater by one (our own choice).
/// The circuit's levels and readers become those of the new circuit. M is below its limit, and the right sides are
/// defined. Where memory runs out, circuit, levels and lists stay; room that was made may stay too. Amortised
/// constant time and memory.
pub fn append_gate(
    circuit: &mut Circuit,
    levels: &mut Levels,
    readers: &mut Readers,
    r0: Lit,
    r1: Lit,
) -> Result<(), Memory>
    requires gate { CanAppend circuit.old r0 r1 }
    requires levels { AreLevels circuit.old levels.old }
    requires readers { AreReaders circuit.old readers.old }
    ensures circuit { OnOk result (circuit.new ≡ with_appended_gate circuit.old r0 r1) }
    ensures levels { OnOk result (AreLevels (with_appended_gate circuit.old r0 r1) levels.new) }
    ensures more { OnOk result ((level : ℕ) × (levels.new ≡ levels.old ++ level ∷ [])) }
    ensures readers { OnOk result (AreReaders (with_appended_gate circuit.old r0 r1) readers.new) }
    ensures same_circuit { OnErr result (circuit.new ≡ circuit.old) }
    ensures same_levels { OnErr result (levels.new ≡ levels.old) }
    ensures same_readers { OnErr result (KeepsReaders readers.old readers.new) }
{
    circuit.facts();
    readers.fan_outs.make_room_for_list(r0.var(), r1.var())?;
    make_room_for_level(&mut levels.levels, &mut levels.worklist)?;
    let gate = circuit.next_gate(r0, r1);
    circuit.append_gate(r0, r1)?;
    let level = level_over(&levels.levels, &gate);
    append_level(&mut levels.levels, &mut levels.worklist, level);
    readers.fan_outs.append_list(&gate);
    Ok(())
}
