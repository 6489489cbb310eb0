//! Makes a bench of a circuit and two frames, edits it, and asks for a value before and after.

use aig_base::{Lit, Tern};
use aig_bench::{Bench, EditFault};
use aig_command::{RunFault, read_circuit, read_rows};
use aig_sim::PlaneGrid;
use std::alloc::Global;
use std::io;

// Gate 6 is 1 if input 2 is and latch 4 is not, and is the next state of the latch.
const TOGGLE: &[u8] = b"aag 3 1 1 1 1\n2\n4 6\n4\n6 2 5\n";

fn open(alloc: Global, file: &[u8], rows: &[u8]) -> Result<Bench<PlaneGrid>, RunFault> {
    let circuit = read_circuit(alloc, file)?;
    let stimulus = read_rows(alloc, &circuit, rows)?;
    Ok(Bench::new(alloc, circuit, stimulus)?)
}

fn before_and_after(bench: &mut Bench<PlaneGrid>) -> Result<(Tern, Tern, u64), EditFault> {
    let latch = Lit::new(4);
    let before = bench.value(1, latch)?;
    let report = bench.set_bit(0, 0, Tern::X)?;
    Ok((before, bench.value(1, latch)?, report.evaluated))
}

pub(crate) fn run(rt: HostRuntime) -> io::Result<()> {
    let mut bench = match open(rt.alloc(), TOGGLE, b"1\n1\n") {
        Ok(bench) => bench,
        Err(fault) => return println!(rt; "rejected: {fault}"),
    };
    match before_and_after(&mut bench) {
        Ok((before, after, evaluated)) => println!(rt;
            "{before:?}, then {after:?}; {evaluated} gates evaluated"
        ),
        Err(fault) => println!(rt; "not possible: {fault}"),
    }
}
