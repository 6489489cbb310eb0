//! The text of a stimulus.
ghost use Rattle.std.specs.Prelude.{◌≡◌, ◌≢◌, ℕ, ◌≤◌, List, [], ◌∷◌, ◌++◌, length, IfOk, IfErr, OnOk};
ghost use Rattle.aig_parts.specs.declared.ternary.Tern.{Tern};
ghost use Rattle.aig_parts.specs.Limits.{frame_limit};
ghost use Rattle.aig_sim.specs.RowParser.{KeepsLine};
ghost use Rattle.aig_sim.specs.declared.stimulus.row_parser.Shape.TheVariants as shapes;
ghost use Rattle.aig_sim.specs.StimulusText.{EndsLine, SpellsRows, HasFault, HasFaultyLine};

use crate::stimulus::fault::StimFault;
use crate::stimulus::row_parser::RowParser;
use aig_base::line_length;
use aig_values::{FRAMES, Stimulus};
use std::alloc::Global;

// Adds the row that the current line is.
fn end_line(stimulus: &mut Stimulus, line: &RowParser) -> Result<(), StimFault>
    requires { line.now.width ≡ stimulus.old.width }
    ensures width { stimulus.new.width ≡ stimulus.old.width }
    ensures limit { length stimulus.new.rows ≤ frame_limit }
    ensures row { OnOk result ((line.now.shape ≡ shapes.Row) × (length line.now.values ≡ line.now.width)
        × (stimulus.new.rows ≡ stimulus.old.rows ++ line.now.values ∷ [])) }
    ensures fault { IfErr result (λ fault. fault ≢ StimFault.Memory → (bytes rest : List ℕ) →
        KeepsLine line.now.width bytes line.now.shape line.now.values → EndsLine rest →
        HasFault line.now.width (length stimulus.old.rows) bytes rest fault) }
{
    let row = line.row(stimulus.frames() as u64 + 1)?;
    if stimulus.frames() == FRAMES {
        return Err(StimFault::Limit);
    }
    stimulus.push(row)?;
    Ok(())
}

/// The rows of a text: a line of `width` characters a frame, each `0`, `1` or `x`, each line ended by LF. Otherwise the
/// fault of the first line that is none of these: `Unfinished`, else `Char`, else `Length`, else, as the 65,537th,
/// `Limit`.
pub fn read_stimulus(alloc: Global, bytes: &[u8], width: u32) -> Result<Stimulus, StimFault>
    ensures width { IfOk result (λ stimulus. stimulus.width ≡ width) }
    ensures rows { IfOk result (λ stimulus. SpellsRows width bytes.now stimulus.rows) }
    ensures limit { IfOk result (λ stimulus. length stimulus.rows ≤ frame_limit) }
    ensures fault { IfErr result (λ fault. fault ≢ StimFault.Memory →
        (rows : List (List Tern)) × (length rows ≤ frame_limit) × HasFaultyLine width bytes.now rows fault) }
{
    let mut stimulus = Stimulus::new(alloc, width);
    let mut line = RowParser::new(alloc, width as usize, 0)?;
    let mut at = 0;
    while at < bytes.len() {
        let length = line_length(&bytes[at..]);
        line.extend(&bytes[at..at + length])?;
        at += length;
        if at < bytes.len() {
            end_line(&mut stimulus, &line)?;
            line.clear();
            at += 1;
        }
    }
    if line.is_empty() {
        Ok(stimulus)
    } else {
        Err(StimFault::Unfinished)
    }
}
