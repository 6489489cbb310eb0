//! Opening and closing a bench.
ghost use Rattle.std.specs.Prelude.{◌≡◌, ◌≢◌, ◌≤◌, ◌↔◌, None, IfErr, IfOk, length, true};
ghost use Rattle.aig_command.specs.Status.{status_of};
ghost use Rattle.aig_script.specs.BenchFiles.{AreBenchFiles, RefusesFiles};
ghost use Rattle.aig_c.specs.Live.{Opens, Rejected, close_status, is_open};

use crate::answer::{DONE, refuse};
use crate::live::handle::AigLive;
use crate::live::status::NOT_OPEN;
use aig_bench::Bench;
use aig_command::RunFault;
use aig_script::open_bench;
use aig_sim::PlaneGrid;
use std::alloc::Global;

/// There is a bench already.
const HELD: u8 = 4;

/// A bench of two files, on the heap.
fn made(
    alloc: Global,
    circuit: &[u8],
    rows: &[u8],
) -> Result<Box<Bench<PlaneGrid>, Global>, RunFault>
    ensures made { IfOk result (λ bench. AreBenchFiles circuit.now rows.now bench.value.pair) }
    ensures rejected { IfErr result (λ fault. status_of fault ≡ 1 → RefusesFiles circuit.now rows.now fault) }
{
    let bench = open_bench(alloc, circuit, rows)?;
    match Box::new(alloc, bench) {
        Ok(held) => Ok(held),
        Err(_) => Err(RunFault::Memory),
    }
}

/// Opens a bench of a circuit and the rows of a stimulus, where there is none.
#[unsafe(no_mangle)]
pub extern "C" fn aig_live_open(
    alloc: Global,
    circuit: &[u8],
    rows: &[u8],
    bench: &mut AigLive,
    room: &mut [u8],
    written: &mut usize,
) -> u8
    ensures done { result ≡ 0 → Opens circuit.now rows.now bench.new.seat.held }
    ensures refused { result ≡ 1 → Rejected circuit.now rows.now }
    ensures held { (result ≡ 4) ↔ (is_open bench.old.seat.held ≡ true) }
    ensures kept { result ≢ 0 → bench.new.seat.held ≡ bench.old.seat.held }
    ensures inside { result ≡ 1 → written.new ≤ length room.old }
    ensures room_kept { result ≢ 1 → (room.new ≡ room.old) × (written.new ≡ written.old) }
    ensures statuses { (result ≢ 2) × (result ≤ 4) }
{
    if bench.present {
        return HELD;
    }
    match made(alloc, circuit, rows) {
        Ok(held) => {
            bench.put(held);
            DONE
        }
        Err(fault) => refuse(alloc, fault, &[], room, written),
    }
}

/// Closes a bench, and frees its memory. If there is none, nothing happens.
#[unsafe(no_mangle)]
pub extern "C" fn aig_live_close(alloc: Global, bench: &mut AigLive) -> u8
    ensures closed { bench.new.seat.held ≡ None }
    ensures was { result ≡ close_status (is_open bench.old.seat.held) }
{
    let was = bench.present;
    drop(bench.take(alloc));
    if was { DONE } else { NOT_OPEN }
}
