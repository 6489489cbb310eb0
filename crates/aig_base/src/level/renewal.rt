//! Levels that are renewed in place.
ghost use Rattle.std.specs.Prelude.{◌≡◌, ◌<◌, ◌≤◌, length, All};
ghost use Rattle.aig_parts.specs.Formed.{limit};
ghost use Rattle.aig_parts.specs.Literal.{variable};
ghost use Rattle.aig_base.specs.Changes.{with_gate};
ghost use Rattle.aig_base.specs.state.Descent.{level_above};
ghost use Rattle.aig_base.specs.Levels.{AreLevels};
ghost use Rattle.aig_base.specs.Readers.{AreReaders, list_of};
ghost use Rattle.aig_base.specs.state.Rewires.{IsRewire, SetsLevel};
ghost use Rattle.aig_base.specs.state.Worklists.{CanWait, HasRoom, IsIdle};

use crate::level::level_copy::LevelCopy;
use crate::level::level_over;
use crate::level::transitive_fan_out::FanOutGraph;
use crate::level::worklist::Worklist;
use aig_parts::Gate;

impl FanOutGraph<'_> {
    // Gives the gate's variable its level over the sides, in the copy too, and queues its readers where it had another.
    fn renew_gate<C: LevelCopy>(
        &self,
        gate: &Gate,
        levels: &mut [u32],
        copy: &mut C,
        worklist: &mut Worklist,
    )
        requires left { variable gate.now.lhs < length levels.old }
        requires first { variable gate.now.rhs0 < length levels.old }
        requires second { variable gate.now.rhs1 < length levels.old }
        requires level { level_above levels.old gate.now ≤ limit }
        requires copy { C.has copy.old levels.old }
        requires readers { variable gate.now.lhs < length self.now.readers.now.lists }
        requires low { level_above levels.old gate.now < length levels.old }
        requires wait { All (CanWait levels.old) (list_of self.now.readers.now (variable gate.now.lhs)) }
        requires room { HasRoom (length levels.old) worklist.old }
        ensures sets { SetsLevel (variable gate.now.lhs) (level_above levels.old gate.now)
            (list_of self.now.readers.now (variable gate.now.lhs)) levels.old levels.new
            worklist.old.visits worklist.new.visits worklist.old.queue worklist.new.queue }
        ensures copy { C.has copy.new levels.new }
        ensures rest { C.rest copy.new ≡ C.rest copy.old }
    {
        let variable = gate.lhs.var();
        let level = level_over(levels, gate);
        if levels[variable as usize] != level {
            levels[variable as usize] = level;
            copy.set_level(variable, level);
            worklist.push_all(levels, self.readers.list(variable));
        }
    }

    /// Makes the levels of a circuit, and a copy of them, those of the circuit with a changed gate, whose new sides are
    /// not in its fan-out. Only gates that read a changed level are looked at, each once, in the order of their old
    /// levels. No memory.
    pub(crate) fn renew<C: LevelCopy>(
        &self,
        changed: &Gate,
        levels: &mut [u32],
        copy: &mut C,
        worklist: &mut Worklist,
    )
        requires changed { IsRewire self.now.circuit.now changed.now }
        requires levels { AreLevels self.now.circuit.now levels.old }
        requires readers { AreReaders self.now.circuit.now self.now.readers.now }
        requires copy { C.has copy.old levels.old }
        requires idle { IsIdle (length levels.old) worklist.old }
        ensures levels { AreLevels
            (with_gate self.now.circuit.now changed.now.lhs changed.now.rhs0 changed.now.rhs1) levels.new }
        ensures copy { C.has copy.new levels.new }
        ensures rest { C.rest copy.new ≡ C.rest copy.old }
        ensures idle { IsIdle (length levels.old) worklist.new }
    {
        self.circuit.facts();
        self.renew_gate(changed, levels, copy, worklist);
        while let Some(variable) = worklist.queue.pop() {
            if let Some(gate) = self.circuit.gate_of(variable) {
                self.renew_gate(&gate, levels, copy, worklist);
            }
        }
        worklist.visits.clear();
    }
}
