//! Formulas that no command writes: at the last frame alone, of induction over two frames, and with numbers that no
//! circuit brings about.
use crate::calls::parts::{of_file, writes};
use aig_base::Circuit;
use aig_cnf::{Formula, Goal, Heading, Query, ReadFormula};
use std::alloc::Global;

// A circuit's file, what is asked, and the formula's text.
type Asked = (&'static [u8], Query, &'static [u8]);

const FORMULAS: [Asked; 2] = [
    // The bad literal, the AND of two inputs, is true at frame 1.
    (
        b"aag 3 2 0 0 1 1\n2\n4\n6\n6 4 2\ni1 a b\n",
        Query {
            goal: Goal::Last,
            frames: 2,
            property: 0,
        },
        b"c aig cnf --last --frames 2 --property 0 \n\
            c i 2 0 0 \nc i 3 0 1 a b\nc i 4 1 0 \nc i 5 1 1 a b\nc b 6 0\nc b 7 1\np cnf 7 8\n\
            -1 0\n7 0\n-6 3 0\n-6 2 0\n6 -3 -2 0\n-7 5 0\n-7 4 0\n7 -5 -4 0\n",
    ),
    // Latches with all three kinds of resets, as bad literal the AND of the first two, and a gate that it needs only a
    // frame later. Each bad literal but the last implies the resets.
    (
        b"aag 6 1 3 0 2 1\n2\n4 10 1\n6 4\n8 6 8\n12\n10 8 2\n12 6 4\n",
        Query {
            goal: Goal::Induction,
            frames: 2,
            property: 0,
        },
        b"c aig cnf --induction --frames 2 --property 0 \n\
            c i 2 0 0 \nc i 3 1 0 \nc i 4 2 0 \nc l 5 0 \nc l 6 1 \nc l 7 2 \nc b 9 0\nc b 11 1\nc b 13 2\n\
            p cnf 13 21\n-1 0\n9 11 13 0\n-9 5 0\n-9 -6 0\n-11 5 0\n-11 -6 0\n\
            -8 7 0\n-8 2 0\n8 -7 -2 0\n-9 6 0\n-9 5 0\n9 -6 -5 0\n-10 6 0\n-10 3 0\n10 -6 -3 0\n\
            -11 8 0\n-11 5 0\n11 -8 -5 0\n-13 10 0\n-13 8 0\n13 -10 -8 0\n",
    ),
];

fn is_written(
    alloc: Global,
    circuit: &mut Circuit,
    read: &ReadFormula,
    asked: Query,
    text: &[u8],
) -> bool {
    writes(alloc, 600, text, |out| {
        read.write(circuit, Heading::Runs(asked), out).is_ok()
    })
}

// Unit propagation alone refutes none of them.
fn is_open(alloc: Global, formula: &Formula) -> bool {
    match formula.refutation(alloc, false) {
        Ok(refutation) => !refutation.is_refuted(),
        Err(_) => false,
    }
}

// Whether the formula of a query has this text under the head of what was asked for.
fn has_formula(
    alloc: Global,
    circuit: &mut Circuit,
    query: Query,
    asked: Query,
    text: &[u8],
) -> bool {
    match ReadFormula::of(alloc, circuit, query) {
        Ok(read) => {
            is_written(alloc, circuit, &read, asked, text) && is_open(alloc, read.formula())
        }
        Err(_) => false,
    }
}

/// Formulas of goals that no command has.
pub fn are_of_goals(alloc: Global) -> bool {
    let mut right = true;
    for &(file, query, text) in &FORMULAS {
        right &= of_file(alloc, file, |alloc, circuit| {
            has_formula(alloc, circuit, query, query, text)
        });
    }
    right
}

// A bad state property and an output that have names.
const NAMED_BAD: &[u8] = b"aag 1 1 0 1 0 2\n2\n2\n2\n3\no0 out\nb1 not full\n";

const NAMED_QUERY: Query = Query {
    goal: Goal::Within,
    frames: 1,
    property: 0,
};

// What was asked for, and the text of one formula with the line that says so.
const HEADS: [(Query, &[u8]); 3] = [
    (
        Query {
            goal: Goal::Step,
            frames: 65535,
            property: 0,
        },
        b"c aig cnf --step --frames 65535 --property 0 \n\
            c i 2 0 0 \nc b 2 0\np cnf 2 2\n-1 0\n2 0\n",
    ),
    (
        Query {
            goal: Goal::Within,
            frames: 1,
            property: 4_294_967_295,
        },
        b"c aig cnf --frames 1 --property 4294967295 \n\
            c i 2 0 0 \nc b 2 0\np cnf 2 2\n-1 0\n2 0\n",
    ),
    (
        Query {
            goal: Goal::Induction,
            frames: 2,
            property: 1,
        },
        b"c aig cnf --induction --frames 2 --property 1 not full\n\
            c i 2 0 0 \nc b 2 0\np cnf 2 2\n-1 0\n2 0\n",
    ),
];

/// The line at the head of a formula.
pub fn have_heads(alloc: Global) -> bool {
    let mut right = true;
    for &(asked, text) in &HEADS {
        right &= of_file(alloc, NAMED_BAD, |alloc, circuit| {
            has_formula(alloc, circuit, NAMED_QUERY, asked, text)
        });
    }
    right
}
