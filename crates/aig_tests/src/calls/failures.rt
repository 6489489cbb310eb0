//! Readers and writers that fail, also where bytes come one at a time.
use crate::calls::fakes::Pieces;
use crate::calls::parts::{ONE_GATE, TWO_GATES, of_file, writes};
use aig_base::{Circuit, Fault, MemReader, MemWriter};
use aig_command::{RunFault, ScriptFault};
use aig_format::read_from;
use aig_script::run_bench;
use aig_sim::{ByteGrid, ReplayFault, StimFault, simulate, trace_witness};
use std::alloc::Global;

// A file, how many reads of a byte its circuit or fault needs, and the fault.
static READS: [(&[u8], usize, Option<Fault>); 8] = [
    (b"a", 2, Some(Fault::Text { at: 1 })),
    (b"aag 1x", 6, Some(Fault::Text { at: 5 })),
    (b"abg 0 0 0 0 0\n", 2, Some(Fault::Text { at: 0 })),
    (b"aag 1 2 0 0 0", 14, Some(Fault::Text { at: 13 })),
    (b"aag 1 2 0 0 0\nx", 14, Some(Fault::Counts)),
    (b"aig 3 2 0 1 1\n6\n\x82", 18, Some(Fault::Text { at: 16 })),
    (b"aag 1 1 0 1 0\n2\n8388607\n", 25, Some(Fault::Range)),
    (b"aag 1 1 0 0 0\n2\ni0 ab\nc\nhi", 27, None),
];

// The fault where so many reads of a byte are made before one fails.
fn fault_after(alloc: Global, bytes: &[u8], calls: usize) -> Option<Fault> {
    read_from(alloc, &mut Pieces::new(bytes, 1, calls)).err()
}

/// Each read that an answer needs fails in turn, and the answer is `Io`; one after the last is not made.
pub fn reads_fail(alloc: Global) -> bool {
    let mut right = true;
    for &(bytes, needed, fault) in &READS {
        for calls in 0..needed {
            right &= fault_after(alloc, bytes, calls) == Some(Fault::Io);
        }
        right &= fault_after(alloc, bytes, needed) == fault;
    }
    right
}

// Files of both formats, and the faults of those that are rejected.
static FILES: [(&[u8], Option<Fault>); 5] = [
    (TWO_GATES, None),
    (b"aig 3 2 0 1 1\n6\n\x02\x02", None),
    (b"aag 4194304 0 0 0 0\n", Some(Fault::Limit)),
    (
        b"aig 3 2 0 1 1\n6\n\x82\x00\x02",
        Some(Fault::Text { at: 16 }),
    ),
    (
        b"aag 3 1 0 1 2\n2\n4\n4 6 2\n6 4 2\n",
        Some(Fault::Cycle(2)),
    ),
];

/// A file is accepted, or rejected by its fault, also where each read gives one byte.
pub fn reads_single_bytes(alloc: Global) -> bool {
    let mut right = true;
    for &(bytes, fault) in &FILES {
        right &= fault_after(alloc, bytes, usize::MAX) == fault;
    }
    right
}

// Whether the trace has this text after so many reads of a byte, in so much room.
fn simulates(
    alloc: Global,
    circuit: &Circuit,
    rows: &[u8],
    reads: usize,
    room: usize,
    text: &[u8],
) -> bool {
    writes(alloc, room, text, |out| {
        simulate(alloc, circuit, &mut Pieces::new(rows, 1, reads), out) == Err(StimFault::Io)
    })
}

// An uninitialised latch, which is the bad state, and an input that it does not read.
const UNINITIALISED: &[u8] = b"aag 2 1 1 0 0 1\n2\n4 5 4\n4\n";

fn cuts_a_witness(alloc: Global, circuit: &Circuit) -> bool {
    writes(alloc, 3, b"1 0", |out| {
        trace_witness(alloc, circuit, b"1\nb0\n1\n0\nx\n.\n", out) == Err(ReplayFault::Io)
    })
}

/// A failing read is reported after the lines of all rows that were read. A full writer has a prefix.
pub fn runs_fail(alloc: Global) -> bool {
    of_file(alloc, ONE_GATE, |alloc, circuit| {
        simulates(alloc, circuit, b"11\nx0\n1", 7, 100, b" 11 1 \n x0 0 \n")
            && simulates(alloc, circuit, b"11\n1z\n", 100, 3, b" 11")
    }) && of_file(
        alloc,
        UNINITIALISED,
        |alloc, circuit| cuts_a_witness(alloc, circuit),
    )
}

const SCRIPT: &[u8] = b"v 0 8\ns 0 1 0\nv 0 8\nw 6 2 2\ng 9 4\no 0 10\nt\nq\n";

const REPLIES: &[u8] = b"1\nok\n0\nok\nok\nok\n 10 0 \n 01 1 \n.\nbad\n";

// Whether the script ends so, and a writer with so much room gets these replies.
fn is_answered(alloc: Global, room: usize, replies: &[u8], answer: Result<(), RunFault>) -> bool {
    writes(alloc, room, replies, |out| {
        let mut script = MemReader::new(SCRIPT);
        run_bench::<ByteGrid, MemReader, MemWriter>(alloc, TWO_GATES, b"11\n01\n", &mut script, out)
            == answer
    })
}

/// Each line of a script gets its reply, with a grid of bytes. A full writer ends it, and has a prefix of the replies.
pub fn answers_a_script(alloc: Global) -> bool {
    is_answered(alloc, 100, REPLIES, Ok(()))
        && is_answered(alloc, 3, b"1\no", Err(RunFault::Script(ScriptFault::Io)))
}
