//! Sections whose entries are signals.
ghost use Rattle.std.specs.Prelude.{◌≡◌, ◌<◌, ◌≤◌, length};
ghost use Rattle.aig_signals.specs.Names.{literal_of, literals_of};

use aig_base::{Circuit, Kind, Lit};

/// The sections of signals, in the order of the circuit.
pub const SECTIONS: [Kind; 5] = [
    Kind::Input,
    Kind::Latch,
    Kind::Output,
    Kind::Bad,
    Kind::Constraint,
];

/// How many entries a section has; no justice or fairness property is a signal.
pub fn count_of(circuit: &Circuit, kind: Kind) -> u32
    ensures count { result ≡ length (literals_of circuit.now kind) }
    ensures few { result ≤ 4194303 }
{
    circuit.facts();
    match kind {
        Kind::Input => circuit.inputs().len() as u32,
        Kind::Latch => circuit.latches().len() as u32,
        Kind::Output => circuit.outputs().len() as u32,
        Kind::Bad => circuit.bad().len() as u32,
        Kind::Constraint => circuit.constraints().len() as u32,
        Kind::Justice | Kind::Fairness => 0,
    }
}

/// The literal of an entry of such a section.
pub fn literal_at(circuit: &Circuit, kind: Kind, position: u32) -> Lit
    requires { position < length (literals_of circuit.now kind) }
    ensures { result ≡ literal_of circuit.now kind position }
{
    let place = position as usize;
    match kind {
        Kind::Input => circuit.inputs()[place],
        Kind::Latch => circuit.latches()[place].lit,
        Kind::Output => circuit.outputs()[place],
        Kind::Bad => circuit.bad()[place],
        Kind::Constraint => circuit.constraints()[place],
        // It has no entry here.
        Kind::Justice | Kind::Fairness => Lit::new(0),
    }
}
