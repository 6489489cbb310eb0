//! All rows of a bench at once.
ghost use Rattle.std.specs.Prelude.{◌≡◌, ◌+◌, ◌*◌, length, OnErr, OnOk};

use crate::bench::Bench;
use aig_base::Memory;
use aig_values::{Grid, Stimulus};

impl<G: Grid> Bench<G> {
    /// Replaces all rows by as many others. It evaluates each gate once a frame, however many values differ. It takes
    /// memory only where a gate was rewired since the last new frame; without that memory nothing changes (our own
    /// choice).
    pub fn replace_rows(&mut self, rows: Stimulus) -> Result<(), Memory>
        requires width { rows.width ≡ length self.old.pair.circuit.inputs }
        requires frames { length rows.rows ≡ length self.old.pair.rows }
        ensures done { OnOk result (self.new.pair ≡ record self.old.pair { rows = rows.rows }) }
        ensures evaluations { OnOk result (self.new.evaluations
            ≡ self.old.evaluations + length self.old.pair.circuit.gates * length rows.rows) }
        ensures kept { OnErr result (self.new ≡ self.old) }
    {
        // Its contract says that the rows have their width.
        rows.width();
        let engine = &mut self.engine;
        engine
            .order
            .renew(&engine.driven.circuit, &engine.fanouts.levels)?;
        engine.driven.stimulus = rows;
        engine.fill_all();
        Ok(())
    }
}
