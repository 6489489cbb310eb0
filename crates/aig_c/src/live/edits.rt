//! Edits of a bench, one a call.
ghost use Rattle.std.specs.Prelude.{◌≡◌, ◌≢◌, ◌*◌, IfSome, Ok};
ghost use Rattle.aig_bench.specs.Edit.{set_bit, rewire, set_reset, set_output, append_gate, drop_frame};
ghost use Rattle.aig_c.specs.Live.{LiveEdit, value_of, valued};

use crate::live::change::{AigReport, Change, apply, edit, tell};
use crate::live::handle::AigLive;
use crate::live::status::{NO_VALUE, NOT_OPEN, value_of};
use aig_base::Lit;
use aig_bench::Bench;
use aig_sim::PlaneGrid;
use std::alloc::Global;

/// Replaces an input's value at a frame.
#[unsafe(no_mangle)]
pub extern "C" fn aig_live_set(
    alloc: Global,
    bench: &mut AigLive,
    frame: u32,
    input: u32,
    value: u8,
    report: &mut AigReport,
) -> u8
    ensures edits { LiveEdit bench.old.seat.held (valued (value_of value) (set_bit frame input))
        result report.old report.new bench.new.seat.held }
{
    match value_of(u32::from(value)) {
        Some(value) => edit(
            alloc,
            bench,
            Change::Set {
                frame,
                input,
                value,
            },
            report,
        ),
        None => bench.refusal(NO_VALUE),
    }
}

/// Gives a gate two other right sides.
#[unsafe(no_mangle)]
pub extern "C" fn aig_live_rewire(
    alloc: Global,
    bench: &mut AigLive,
    gate: u32,
    right0: u32,
    right1: u32,
    report: &mut AigReport,
) -> u8
    ensures edits { LiveEdit bench.old.seat.held (Ok (rewire gate right0 right1))
        result report.old report.new bench.new.seat.held }
{
    let change = Change::Rewire {
        gate: Lit::new(gate),
        right0: Lit::new(right0),
        right1: Lit::new(right1),
    };
    edit(alloc, bench, change, report)
}

/// Lets a latch start at another value.
#[unsafe(no_mangle)]
pub extern "C" fn aig_live_reset(
    alloc: Global,
    bench: &mut AigLive,
    latch: u32,
    value: u8,
    report: &mut AigReport,
) -> u8
    ensures edits { LiveEdit bench.old.seat.held (valued (value_of value) (set_reset latch))
        result report.old report.new bench.new.seat.held }
{
    match value_of(u32::from(value)) {
        Some(value) => edit(
            alloc,
            bench,
            Change::Reset {
                latch: Lit::new(latch),
                value,
            },
            report,
        ),
        None => bench.refusal(NO_VALUE),
    }
}

/// Replaces the output at a position.
#[unsafe(no_mangle)]
pub extern "C" fn aig_live_output(
    alloc: Global,
    bench: &mut AigLive,
    position: u32,
    literal: u32,
    report: &mut AigReport,
) -> u8
    ensures edits { LiveEdit bench.old.seat.held (Ok (set_output position literal))
        result report.old report.new bench.new.seat.held }
{
    let change = Change::Output {
        position,
        literal: Lit::new(literal),
    };
    edit(alloc, bench, change, report)
}

/// The literal of the greatest variable.
fn greatest_literal(bench: &Bench<PlaneGrid>) -> u32
    ensures literal { result ≡ 2 * bench.now.pair.circuit.max_var }
{
    // Its contract says that it is a circuit.
    bench.width();
    2 * bench.circuit().max_var()
}

/// Appends a gate, and writes its literal.
#[unsafe(no_mangle)]
pub extern "C" fn aig_live_append_gate(
    alloc: Global,
    bench: &mut AigLive,
    right0: u32,
    right1: u32,
    literal: &mut u32,
    report: &mut AigReport,
) -> u8
    ensures edits { LiveEdit bench.old.seat.held (Ok (append_gate right0 right1))
        result report.old report.new bench.new.seat.held }
    ensures literal { result ≡ 0 →
        IfSome bench.new.seat.held (λ state. literal.new ≡ 2 * state.pair.circuit.max_var) }
    ensures literal_kept { result ≢ 0 → literal.new ≡ literal.old }
{
    let Some(mut held) = bench.take(alloc) else {
        return NOT_OPEN;
    };
    let change = Change::Append {
        right0: Lit::new(right0),
        right1: Lit::new(right1),
    };
    let answer = apply(&mut held, change);
    if answer.is_ok() {
        *literal = greatest_literal(&held);
    }
    bench.put(held);
    tell(answer, report)
}

/// Takes the last frame off.
#[unsafe(no_mangle)]
pub extern "C" fn aig_live_drop_frame(
    alloc: Global,
    bench: &mut AigLive,
    report: &mut AigReport,
) -> u8
    ensures edits { LiveEdit bench.old.seat.held (Ok drop_frame) result report.old report.new bench.new.seat.held }
{
    edit(alloc, bench, Change::DropFrame, report)
}
