//! Unrolls a circuit for three frames, and writes it as text.

use aig_base::{Circuit, Levels, Std};
use aig_command::{RunFault, as_output, read_circuit};
use aig_format::write_ascii;
use aig_unroll::unroll;
use std::alloc::Global;
use std::io;

// Latch 4 takes input 2. The output is the latch.
const DELAY: &[u8] = b"aag 2 1 1 1 0\n2\n4 2\n4\n";

fn unrolled(alloc: Global, file: &[u8], frames: u32) -> Result<Circuit, RunFault> {
    let circuit = read_circuit(alloc, file)?;
    let levels = Levels::of(alloc, &circuit)?;
    Ok(unroll(alloc, &circuit, &levels, frames)?)
}

pub(crate) fn run(rt: HostRuntime) -> io::Result<()> {
    let done = match unrolled(rt.alloc(), DELAY, 3) {
        Ok(circuit) => as_output(write_ascii(&circuit, &mut Std::new(rt.stdout()))),
        Err(fault) => Err(fault),
    };
    match done {
        Ok(()) => Ok(()),
        Err(fault) => eprintln!(rt; "{fault}"),
    }
}
