//! Circuits that tests use, and what they write.
use aig_base::{Circuit, MemWriter};
use aig_format::read;
use std::alloc::Global;

/// One gate over two inputs.
pub const ONE_GATE: &[u8] = b"aag 3 2 0 1 1\n2\n4\n6\n6 2 4\n";

/// A gate that reads a gate which stands after it.
pub const TWO_GATES: &[u8] = b"aag 4 2 0 1 2\n2\n4\n8\n8 6 2\n6 2 4\n";

/// Whether a file is a circuit that passes a look.
pub fn of_file<F: FnOnce(Global, &mut Circuit) -> bool + Drop>(
    alloc: Global,
    file: &[u8],
    look: F,
) -> bool
    requires { F.IsAlwaysCallable look }
{
    match read(alloc, file) {
        Ok(mut circuit) => look(alloc, &mut circuit),
        Err(_) => false,
    }
}

/// Whether a writer with so much room has these bytes after a write that goes well.
pub fn writes<F: FnOnce(&mut MemWriter) -> bool + Drop>(
    alloc: Global,
    room: usize,
    bytes: &[u8],
    write: F,
) -> bool
    requires { F.IsAlwaysCallable write }
{
    match MemWriter::new(alloc, room) {
        Ok(mut out) => {
            let right = write(&mut out);
            right & (out.bytes() == bytes)
        }
        Err(_) => false,
    }
}
