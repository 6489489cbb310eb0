//! The literals that are true where latches have their resets.
ghost use Rattle.std.specs.Prelude.{◌≡◌, ◌+◌, ◌*◌, ◌^◌, ◌<◌, ◌++◌, IfOk, OnOk, length};
ghost use Rattle.aig_cnf.specs.Formula.{reset_literal, reset_literals as literals};

use aig_base::{Latch, Lit, Memory};
use std::alloc::Global;

// Adds the literal of a variable that a latch has its reset, if that is 0 or 1.
fn push_reset(found: &mut Vec<Lit>, latch: Latch, variable: u32) -> Result<(), Memory>
    requires { 2 * variable + 1 < 2 ^ 32 }
    ensures { OnOk result (found.new.items ≡ found.old.items ++ reset_literal variable latch) }
{
    if latch.reset == latch.lit {
        return Ok(());
    }
    let negated = latch.reset.value() == 0;
    found.push(Lit::new(2 * variable + negated as u32))?;
    Ok(())
}

/// The literals of latches that have their resets, as far as these are 0 or 1, where the latches have the variables
/// from the first one on.
pub(crate) fn reset_literals(
    alloc: Global,
    latches: &[Latch],
    first: u32,
) -> Result<Vec<Lit>, Memory>
    requires { 2 * (first + length latches.now) < 2 ^ 32 }
    ensures { IfOk result (λ found. found.items ≡ literals first latches.now) }
{
    let mut found = Vec::new(alloc);
    for (place, latch) in latches.iter().enumerate() {
        push_reset(&mut found, *latch, first + place as u32)?;
    }
    Ok(found)
}
