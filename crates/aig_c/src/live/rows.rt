//! Rows of values, as arrays of numbers: one more, or all in place of the others.
ghost use Rattle.std.specs.Prelude.{◌≡◌, ◌≢◌, ◌⊎◌, ◌*◌, ◌≤◌, ◌↔◌, All, IfOk, IfSome, IsTrue, false, length, map, true};
ghost use Rattle.aig_parts.specs.Limits.{frame_limit};
ghost use Rattle.aig_bench.specs.Edit.{add_frame};
ghost use Rattle.aig_c.specs.Live.{LiveEdits, is_open};
ghost use Rattle.aig_c.specs.Rows.{HasOtherSize, HasReplaced, HasRows, IsValue, LiveReplaces, tern_of};

use crate::answer::DONE;
use crate::live::change::{AigReport, tell};
use crate::live::handle::AigLive;
use crate::live::status::{NO_VALUE, NOT_OPEN, status_of};
use aig_base::{Memory, Tern};
use aig_bench::{Bench, EditFault};
use aig_sim::PlaneGrid;
use aig_values::Stimulus;
use std::alloc::Global;

/// Whether each number is 0, 1 or 2.
fn are_values(numbers: &[u8]) -> bool
    ensures values { IsTrue result ↔ All IsValue numbers.now }
{
    for number in numbers {
        if *number > 2 {
            return false;
        }
    }
    true
}

/// The value that a number stands for: x by any over 1.
fn tern_of(number: u8) -> Tern
    ensures value { result ≡ tern_of number }
{
    match number {
        0 => Tern::Zero,
        1 => Tern::One,
        _ => Tern::X,
    }
}

/// The values that numbers stand for.
fn terns_of(alloc: Global, numbers: &[u8]) -> Result<Vec<Tern>, Memory>
    ensures values { IfOk result (λ terns. terns.items ≡ map tern_of numbers.now) }
{
    let mut terns = Vec::with_capacity(alloc, numbers.len())?;
    for number in numbers {
        terns.push(tern_of(*number))?;
    }
    Ok(terns)
}

/// Appends a frame with a value for each input.
#[unsafe(no_mangle)]
pub extern "C" fn aig_live_add_frame(
    alloc: Global,
    bench: &mut AigLive,
    row: &[u8],
    report: &mut AigReport,
) -> u8
    ensures edits { All IsValue row.now → result ≢ 11 → LiveEdits bench.old.seat.held (add_frame (map tern_of row.now))
        result report.new.evaluated report.new.changed bench.new.seat.held }
    ensures value { (All IsValue row.now → ⊥) → is_open bench.old.seat.held ≡ true → result ≡ 253 }
    ensures closed { (result ≡ 255) ↔ (is_open bench.old.seat.held ≡ false) }
    ensures kept { result ≢ 0 → bench.new.seat.held ≡ bench.old.seat.held }
    ensures report_kept { result ≢ 0 → report.new ≡ report.old }
{
    if !are_values(row) {
        return bench.refusal(NO_VALUE);
    }
    let Some(mut held) = bench.take(alloc) else {
        return NOT_OPEN;
    };
    let answer = match terns_of(alloc, row) {
        Ok(terns) => held.add_frame(&terns),
        Err(_) => Err(EditFault::Memory),
    };
    bench.put(held);
    tell(answer, report)
}

/// Rows of this width, from their values row by row.
fn rows_of(alloc: Global, width: u32, frames: u32, terns: &[Tern]) -> Result<Stimulus, Memory>
    requires frames { frames ≤ frame_limit }
    requires values { length terns.now ≡ frames * width }
    ensures rows { IfOk result (HasRows width frames terns.now) }
{
    let mut rows = Stimulus::new(alloc, width);
    let mut rest = terns;
    for _ in 0..frames {
        let (row, more) = rest.split_at(width as usize);
        rows.push(row)?;
        rest = more;
    }
    // Its contract says that each row has the width.
    rows.width();
    Ok(rows)
}

/// Replaces all rows of a bench by those of values.
fn replace(alloc: Global, bench: &mut Bench<PlaneGrid>, values: &[u8]) -> u8
    ensures done { result ≡ 0 → HasReplaced bench.old (map tern_of values.now) bench.new }
    ensures length { result ≡ 8 → HasOtherSize values.now bench.old }
    ensures kept { result ≢ 0 → bench.new ≡ bench.old }
    ensures statuses { (result ≡ 0) ⊎ (result ≡ 8) ⊎ (result ≡ 11) }
{
    let width = bench.width();
    let frames = bench.frames();
    // Its contract says how many frames there are at most.
    bench.stimulus().frames();
    if values.len() as u64 != u64::from(frames) * u64::from(width) {
        return status_of(EditFault::Length);
    }
    let Ok(terns) = terns_of(alloc, values) else {
        return status_of(EditFault::Memory);
    };
    let Ok(rows) = rows_of(alloc, width, frames, &terns) else {
        return status_of(EditFault::Memory);
    };
    match bench.replace_rows(rows) {
        Ok(()) => DONE,
        Err(_) => status_of(EditFault::Memory),
    }
}

/// Replaces all rows by as many others.
#[unsafe(no_mangle)]
pub extern "C" fn aig_live_replace_rows(alloc: Global, bench: &mut AigLive, values: &[u8]) -> u8
    ensures done { result ≡ 0 →
        LiveReplaces bench.old.seat.held (map tern_of values.now) bench.new.seat.held }
    ensures values { result ≡ 0 → All IsValue values.now }
    ensures value { is_open bench.old.seat.held ≡ true → (result ≡ 253) ↔ (All IsValue values.now → ⊥) }
    ensures length { result ≡ 8 → IfSome bench.old.seat.held (HasOtherSize values.now) }
    ensures closed { (result ≡ 255) ↔ (is_open bench.old.seat.held ≡ false) }
    ensures kept { result ≢ 0 → bench.new.seat.held ≡ bench.old.seat.held }
    ensures statuses { (result ≡ 0) ⊎ (result ≡ 8) ⊎ (result ≡ 11) ⊎ (result ≡ 253) ⊎ (result ≡ 255) }
{
    if !are_values(values) {
        return bench.refusal(NO_VALUE);
    }
    let Some(mut held) = bench.take(alloc) else {
        return NOT_OPEN;
    };
    let status = replace(alloc, &mut held, values);
    bench.put(held);
    status
}
