//! Questions to a bench, one or many a call.
ghost use Rattle.std.specs.Prelude.{◌≡◌, ◌≢◌, ◌⊎◌, ◌≤◌, IfSome, length};
ghost use Rattle.aig_c.specs.Live.{Asks, AsksMany, CellValue, HasRow, HasSizes, HasValues, IsKeptFrom};
ghost use Rattle.aig_c.specs.Live.{LiveValue, TellsValue};

use crate::answer::DONE;
use crate::live::handle::AigLive;
use crate::live::status::{NOT_OPEN, SHORT, number_of, status_of};
use aig_base::{Lit, Tern};
use aig_bench::{Bench, EditFault};
use aig_sim::PlaneGrid;
use std::alloc::Global;

/// A cell: a literal at a frame.
#[repr(C)]
#[derive(Clone, Copy)]
pub struct AigCell {
    pub frame: u32,
    pub literal: u32,
}

/// The sizes of a bench.
#[repr(C)]
#[derive(Clone, Copy)]
pub struct AigSizes {
    pub frames: u32,
    pub inputs: u32,
    pub latches: u32,
    pub outputs: u32,
    pub gates: u32,
    pub max_var: u32,
}

/// Writes the value of a question that is answered, and returns the status.
fn tell_value(answer: Result<Tern, EditFault>, value: &mut u8) -> u8
    ensures tells { TellsValue result value.new answer }
    ensures kept { result ≢ 0 → value.new ≡ value.old }
    ensures open { result ≢ 255 }
{
    match answer {
        Ok(found) => {
            *value = number_of(found);
            DONE
        }
        Err(fault) => status_of(fault),
    }
}

/// The value of a literal at a frame: 0, 1, or 2 for x.
#[unsafe(no_mangle)]
pub extern "C" fn aig_live_value(
    alloc: Global,
    bench: &mut AigLive,
    frame: u32,
    literal: u32,
    value: &mut u8,
) -> u8
    ensures answer { LiveValue bench.old.seat.held frame literal result value.new }
    ensures asks { Asks result bench.old.seat.held bench.new.seat.held }
    ensures value_kept { result ≢ 0 → value.new ≡ value.old }
{
    let Some(held) = bench.take(alloc) else {
        return NOT_OPEN;
    };
    let answer = held.value(frame, Lit::new(literal));
    bench.put(held);
    tell_value(answer, value)
}

/// The value of a literal at a frame, or 16 and the number of the fault.
fn cell_value(bench: &Bench<PlaneGrid>, frame: u32, literal: u32) -> u8
    ensures value { CellValue bench.now.pair frame literal result }
{
    match bench.value(frame, Lit::new(literal)) {
        Ok(found) => number_of(found),
        Err(fault) => 16 + status_of(fault),
    }
}

/// Writes the values of cells to the front of a room.
fn write_values(bench: &Bench<PlaneGrid>, cells: &[AigCell], values: &mut [u8])
    requires { length cells.now ≤ length values.old }
    ensures values { HasValues cells.now values.new bench.now }
    ensures behind { IsKeptFrom (length cells.now) values.old values.new }
{
    for i in 0..cells.len() {
        values[i] = cell_value(bench, cells[i].frame, cells[i].literal);
    }
}

/// The values of cells: 0, 1, 2 for x, or 16 and the number of the fault.
#[unsafe(no_mangle)]
pub extern "C" fn aig_live_values(
    alloc: Global,
    bench: &mut AigLive,
    cells: &[AigCell],
    values: &mut [u8],
) -> u8
    ensures done { result ≡ 0 → IfSome bench.old.seat.held (HasValues cells.now values.new) }
    ensures asks { AsksMany result (length cells.now) bench.old.seat.held bench.new.seat.held values.old values.new }
{
    let Some(held) = bench.take(alloc) else {
        return NOT_OPEN;
    };
    let fits = cells.len() <= values.len();
    if fits {
        write_values(&held, cells, values);
    }
    bench.put(held);
    if fits { DONE } else { SHORT }
}

/// Writes the values of literals at a frame to the front of a room.
fn write_row(bench: &Bench<PlaneGrid>, frame: u32, literals: &[u32], values: &mut [u8])
    requires { length literals.now ≤ length values.old }
    ensures values { HasRow frame literals.now values.new bench.now }
    ensures behind { IsKeptFrom (length literals.now) values.old values.new }
{
    for i in 0..literals.len() {
        values[i] = cell_value(bench, frame, literals[i]);
    }
}

/// The values of literals at one frame: 0, 1, 2 for x, or 16 and the number of the fault.
#[unsafe(no_mangle)]
pub extern "C" fn aig_live_row(
    alloc: Global,
    bench: &mut AigLive,
    frame: u32,
    literals: &[u32],
    values: &mut [u8],
) -> u8
    ensures done { result ≡ 0 → IfSome bench.old.seat.held (HasRow frame literals.now values.new) }
    ensures asks { AsksMany result (length literals.now) bench.old.seat.held bench.new.seat.held values.old values.new }
{
    let Some(held) = bench.take(alloc) else {
        return NOT_OPEN;
    };
    let fits = literals.len() <= values.len();
    if fits {
        write_row(&held, frame, literals, values);
    }
    bench.put(held);
    if fits { DONE } else { SHORT }
}

/// The sizes of a bench.
fn sizes_of(bench: &Bench<PlaneGrid>) -> AigSizes
    ensures sizes { HasSizes result bench.now }
{
    let circuit = bench.circuit();
    // Its contract says that it is a circuit, whose counts are below 2^32.
    circuit.facts();
    AigSizes {
        frames: bench.frames(),
        inputs: circuit.inputs().len() as u32,
        latches: circuit.latches().len() as u32,
        outputs: circuit.outputs().len() as u32,
        gates: circuit.gates().len() as u32,
        max_var: circuit.max_var(),
    }
}

/// Writes the sizes of a bench.
#[unsafe(no_mangle)]
pub extern "C" fn aig_live_sizes(alloc: Global, bench: &mut AigLive, sizes: &mut AigSizes) -> u8
    ensures done { result ≡ 0 → IfSome bench.old.seat.held (HasSizes sizes.new) }
    ensures asks { Asks result bench.old.seat.held bench.new.seat.held }
    ensures sizes_kept { result ≢ 0 → sizes.new ≡ sizes.old }
    ensures statuses { (result ≡ 0) ⊎ (result ≡ 255) }
{
    let Some(held) = bench.take(alloc) else {
        return NOT_OPEN;
    };
    *sizes = sizes_of(&held);
    bench.put(held);
    DONE
}
