//! The files that a command reads.

/// A file that a command reads, by what it contains.
#[derive(Clone, Copy)]
pub enum Part {
    Circuit,
    Stimulus,
    Script,
    Witness,
    Model,
    Proof,
    /// The proof of an induction step.
    StepProof,
    /// A certificate of a bad state property.
    Certificate,
    /// The names of properties.
    Names,
    /// The parts of a circuit that are cut.
    Cuts,
}

impl Part {
    /// Returns the name that messages have for it. A fault of what the file contains has the same name.
    pub fn name(&self) -> &'static str {
        match self {
            Part::Circuit => "circuit",
            Part::Stimulus => "stimulus",
            Part::Script => "script",
            Part::Witness => "witness",
            Part::Model => "model",
            Part::Proof => "proof",
            Part::StepProof => "step proof",
            Part::Certificate => "certificate",
            Part::Names => "names",
            Part::Cuts => "cuts",
        }
    }
}
