//! Reads a circuit from standard input, counts what it has, and prints the names of its inputs.

use aig_base::{Kind, Std, write_all};
use aig_format::read_from;
use std::io;

pub(crate) fn run(rt: HostRuntime) -> io::Result<()> {
    let mut reader = Std::new(rt.stdin());
    let circuit = match read_from(rt.alloc(), &mut reader) {
        Ok(circuit) => circuit,
        Err(fault) => return println!(rt; "no circuit: {fault}"),
    };
    println!(rt;
        "{} inputs, {} latches, {} gates",
        circuit.inputs().len(),
        circuit.latches().len(),
        circuit.gates().len()
    )?;
    let mut out = Std::new(rt.stdout());
    for position in 0..circuit.inputs().len() as u32 {
        if let Some(name) = circuit.symbols().get(Kind::Input, position) {
            let _ = write_all(&mut out, name);
            let _ = write_all(&mut out, b"\n");
        }
    }
    Ok(())
}
