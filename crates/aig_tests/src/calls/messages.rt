//! Messages and statuses of faults that no small file brings about, as those of memory.
use aig_base::{Fault, Io, Memory, SelectFault, WouldCycle};
use aig_bench::BenchFault;
use aig_certificate::StrengthenFault;
use aig_cnf::CnfFault;
use aig_command::{RunFault, ScriptFault};
use aig_cut::CutFault;
use aig_sat::{ModelFault, ProofFault};
use aig_sim::{ReachFault, StimFault, WitnessFault};
use aig_unroll::UnrollFault;
use std::alloc::Global;
use std::fmt::Display;

static MESSAGES: [(RunFault, &str, u8); 22] = [
    (RunFault::Memory, "memory", 3),
    (RunFault::Circuit(Fault::Memory), "circuit: memory", 3),
    (RunFault::Stimulus(StimFault::Memory), "stimulus: memory", 3),
    (
        RunFault::Witness(WitnessFault::Memory),
        "witness: memory",
        3,
    ),
    (RunFault::Reach(ReachFault::Memory), "witness: memory", 3),
    (RunFault::Bench(BenchFault::Memory), "bench: memory", 3),
    (RunFault::Script(ScriptFault::Memory), "script: memory", 3),
    (RunFault::Unroll(UnrollFault::Memory), "unroll: memory", 3),
    (RunFault::Cnf(CnfFault::Memory), "cnf: memory", 3),
    (RunFault::Select(SelectFault::Memory), "select: memory", 3),
    (RunFault::Cut(CutFault::Memory), "cut: memory", 3),
    (RunFault::Proof(ProofFault::Memory), "proof: memory", 3),
    (
        RunFault::StepProof(ProofFault::Memory),
        "step proof: memory",
        3,
    ),
    (RunFault::Model(ModelFault::Memory), "model: memory", 3),
    (
        RunFault::Certificate(Fault::Memory),
        "certificate: memory",
        3,
    ),
    (
        RunFault::Strengthen(StrengthenFault::Memory),
        "strengthen: memory",
        3,
    ),
    (
        RunFault::Stimulus(StimFault::Io),
        "stimulus: input or output",
        3,
    ),
    (
        RunFault::Script(ScriptFault::Io),
        "script: input or output",
        3,
    ),
    (
        RunFault::Circuit(Fault::Text { at: u64::MAX }),
        "circuit: text at 18446744073709551615",
        1,
    ),
    (RunFault::Bench(BenchFault::Width), "bench: width", 1),
    (RunFault::Select(SelectFault::Limit), "select: limit", 1),
    (
        RunFault::Strengthen(StrengthenFault::Circuit(Fault::Range)),
        "certificate: range",
        1,
    ),
];

// Whether this is the text of a value.
fn says<T: Display>(alloc: Global, value: &T, text: &str) -> bool {
    match value.to_string(alloc) {
        Ok(said) => said.as_str() == text,
        Err(_) => false,
    }
}

/// A message names the part and its fault, and a fault alone has its words.
pub fn are_said(alloc: Global) -> bool {
    let mut right = says(alloc, &Memory, "memory")
        && says(alloc, &Io, "input or output")
        && says(alloc, &WouldCycle, "cycle");
    for (fault, text, _) in &MESSAGES {
        right &= says(alloc, fault, text);
    }
    right
}

/// The status is 3 where memory or a file fails, and else 1.
pub fn have_statuses() -> bool {
    let mut right = true;
    for (fault, _, status) in &MESSAGES {
        right &= fault.status() == *status;
    }
    right
}
