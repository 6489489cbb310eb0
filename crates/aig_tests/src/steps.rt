//! For tests of proofs about formulas that no circuit has: marks each step of a proof, or names its literals.

mod cases;

use crate::input;
use cases::Case;
use std::io::{self, ErrorKind};

/// What is printed of a case.
#[derive(Clone, Copy)]
pub(crate) enum CaseText {
    /// A mark for each step, and how the check ends.
    Marks,
    /// The literals of the steps, and how many variables there are after them.
    Names,
}

// Five cases: steps of each mark, a proof that names own variables, a binary one that is cut, a formula with the empty
// clause, and one without a clause.
const SAMPLE: &[u8] = b"2 28 14
1 2 0
-1 2 0
1 -2 0
-1 -2 0
3 0
d 3 0
1 0
2 13 41
1 2 0
-1 2 0
-2 0
2000000000 -2 0
-2000000000 1 0
2 0
2 28 6
1 2 0
-1 2 0
1 -2 0
-1 -2 0
a\x06\x04\x00a\x010 2 0
0
0 0 0
";

/// Prints a line for each case of standard input.
pub(crate) fn run(rt: HostRuntime, shown: CaseText) -> io::Result<()> {
    print(rt, input::all(rt)?.as_slice(), shown)
}

/// Prints a line for each case of the sample.
pub(crate) fn run_sample(rt: HostRuntime) -> io::Result<()> {
    print(rt, SAMPLE, CaseText::Marks)
}

fn print(rt: HostRuntime, bytes: &[u8], shown: CaseText) -> io::Result<()> {
    let mut rest = bytes;
    for _ in 0..bytes.len() {
        if rest.is_empty() {
            break;
        }
        let Some((case, after)) = Case::first(rest) else {
            return Err(ErrorKind::InvalidData.into());
        };
        let line = match shown {
            CaseText::Marks => case.outcome(rt.alloc()),
            CaseText::Names => case.names(rt.alloc()),
        };
        match line {
            Ok(line) => println!(rt; "{line}")?,
            Err(_) => return Err(ErrorKind::OutOfMemory.into()),
        }
        rest = after;
    }
    Ok(())
}
