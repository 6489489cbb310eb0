//! The edits of a bench. Each keeps the values of all frames current.
ghost use Rattle.std.specs.Prelude.{◌≡◌, ◌⊎◌, IfErr};
ghost use Rattle.aig_parts.specs.Literal.{variable};
ghost use Rattle.aig_bench.specs.Edit.{Edits, rewire, set_reset, set_bit, add_frame, drop_frame, append_gate};
ghost use Rattle.aig_bench.specs.Edit.{set_output};
ghost use Rattle.aig_bench.specs.Fanout.{HasFourReaders};
ghost use Rattle.aig_bench.specs.Touched.{Works};

use crate::bench::Bench;
use crate::bench::sizes::{CELLS, cells};
use crate::edit::allowed::{check_append, check_output, check_reset, check_rewire};
use crate::edit::{EditFault, EditReport};
use crate::engine::new_gate::{evaluate_new, gate_count, last_gate, make_room};
use aig_base::{Lit, Tern, append_gate};
use aig_values::{FRAMES, Grid};

/// The report of an edit that evaluates nothing.
const NOTHING: EditReport = EditReport {
    evaluated: 0,
    changed: 0,
};

impl<G: Grid> Bench<G> {
    /// Replaces an input's value at a frame, both counted from 0. Refused are a frame and then an input that are not
    /// there. It takes no memory (our own choice).
    pub fn set_bit(
        &mut self,
        frame: u32,
        position: u32,
        value: Tern,
    ) -> Result<EditReport, EditFault>
        ensures edits { Edits self.old.pair (set_bit frame position value) result self.new.pair }
        ensures works { Works self.old (set_bit frame position value) result self.new }
    {
        let engine = &mut self.engine;
        if frame >= engine.driven.stimulus.frames() {
            return Err(EditFault::NoFrame);
        }
        if position >= engine.driven.stimulus.width() {
            return Err(EditFault::NoInput);
        }
        engine.driven.stimulus.set(frame, position, value);
        Ok(engine.renew_input(frame, position))
    }

    /// Gives a gate, named by its left side, two other right sides. Refused are what is no left side, right sides out
    /// of range, undefined ones and a cycle. It takes memory only where four gates or more read a new right side
    /// already (our own choice).
    pub fn rewire(&mut self, lhs: Lit, r0: Lit, r1: Lit) -> Result<EditReport, EditFault>
        ensures edits { Edits self.old.pair (rewire lhs r0 r1) result self.new.pair }
        ensures works { Works self.old (rewire lhs r0 r1) result self.new }
        ensures memory { IfErr result (λ fault. fault ≡ EditFault.Memory →
            HasFourReaders self.old.pair.circuit (variable r0) ⊎ HasFourReaders self.old.pair.circuit (variable r1)) }
    {
        let engine = &mut self.engine;
        check_rewire(&engine.driven, lhs, r0, r1)?;
        engine.replace_gate(lhs, r0, r1)?;
        Ok(engine.renew_from(0, &[lhs.var()]))
    }

    /// Lets a latch, named by its literal, start at another value; x is uninitialised. Refused is what is no latch's
    /// literal. It takes no memory (our own choice).
    pub fn set_reset(&mut self, latch: Lit, value: Tern) -> Result<EditReport, EditFault>
        ensures edits { Edits self.old.pair (set_reset latch value) result self.new.pair }
        ensures works { Works self.old (set_reset latch value) result self.new }
    {
        let engine = &mut self.engine;
        let position = check_reset(&engine.driven, latch)?;
        engine.driven.circuit.replace_reset(latch, value);
        engine.pending.here.add(position + 1);
        Ok(engine.renew_from(0, &[]))
    }

    /// Appends a frame. Refused are a row that has not a value for each input, and then the 65,537th frame or more than
    /// 67,108,864 cells. It takes memory (our own choice).
    pub fn add_frame(&mut self, row: &[Tern]) -> Result<EditReport, EditFault>
        ensures edits { Edits self.old.pair (add_frame row.now) result self.new.pair }
        ensures works { Works self.old (add_frame row.now) result self.new }
    {
        let engine = &mut self.engine;
        let frames = engine.driven.stimulus.frames();
        if row.len() != engine.driven.stimulus.width() as usize {
            return Err(EditFault::Length);
        }
        if frames >= FRAMES || cells(&engine.driven.circuit, frames + 1) > CELLS {
            return Err(EditFault::Limit);
        }
        engine
            .order
            .renew(&engine.driven.circuit, &engine.fanouts.levels)?;
        engine.grid.add_row()?;
        match engine.driven.stimulus.push(row) {
            Ok(()) => {}
            Err(_) => {
                engine.grid.drop_row();
                return Err(EditFault::Memory);
            }
        }
        let evaluated = u64::from(gate_count(&engine.driven.circuit));
        engine.fill(frames);
        Ok(EditReport {
            evaluated,
            changed: 0,
        })
    }

    /// Takes the last frame off. Refused where there is none. It takes no memory (our own choice).
    pub fn drop_frame(&mut self) -> Result<EditReport, EditFault>
        ensures edits { Edits self.old.pair drop_frame result self.new.pair }
        ensures works { Works self.old drop_frame result self.new }
    {
        let engine = &mut self.engine;
        if engine.driven.stimulus.frames() == 0 {
            return Err(EditFault::Empty);
        }
        engine.grid.drop_row();
        engine.driven.stimulus.pop();
        Ok(NOTHING)
    }

    /// Appends a gate with these right sides, whose variable is the new greatest, M + 1. Refused are right sides out of
    /// range, undefined ones, and then a variable over 4,194,303 or more than 67,108,864 cells. It takes memory, for a
    /// cell at each frame and its place in the lists (our own choice).
    pub fn append_gate(&mut self, r0: Lit, r1: Lit) -> Result<EditReport, EditFault>
        ensures edits { Edits self.old.pair (append_gate r0 r1) result self.new.pair }
        ensures works { Works self.old (append_gate r0 r1) result self.new }
    {
        let engine = &mut self.engine;
        check_append(&engine.driven, r0, r1)?;
        make_room(&mut engine.grid, &mut engine.fanouts, &mut engine.pending)?;
        engine.order.reserve_gate()?;
        append_gate(
            &mut engine.driven.circuit,
            &mut engine.fanouts.levels,
            &mut engine.fanouts.readers,
            r0,
            r1,
        )?;
        let gate = last_gate(&engine.driven.circuit);
        let level = engine.fanouts.levels.level(gate.lhs.var());
        engine.fanouts.latches.add_variable();
        engine.pending.buckets.add_variable(level, &gate);
        engine.grid.add_gate();
        engine.order.push_gate(gate);
        Ok(evaluate_new(&mut engine.grid, &gate))
    }

    /// Replaces the output at a position, counted from 0. Refused are a literal over `2M + 1`, a variable that is
    /// neither 0 nor defined, and an output that is not there, in this order. It takes no memory (our own choice).
    pub fn set_output(&mut self, position: u32, literal: Lit) -> Result<EditReport, EditFault>
        ensures edits { Edits self.old.pair (set_output position literal) result self.new.pair }
        ensures works { Works self.old (set_output position literal) result self.new }
    {
        let engine = &mut self.engine;
        check_output(&engine.driven, position, literal)?;
        engine.driven.circuit.replace_output(position, literal);
        Ok(NOTHING)
    }
}
