//! The part of a run that refused, and why.
ghost use Rattle.std.specs.Prelude.{◌≡◌};
ghost use Rattle.aig_command.specs.Status.{status_of};

use crate::script_fault::ScriptFault;
use crate::why_fault::WhyFault;
use aig_base::{Fault, Memory, SelectFault};
use aig_bench::BenchFault;
use aig_certificate::StrengthenFault;
use aig_cnf::CnfFault;
use aig_cut::CutFault;
use aig_sat::{ModelFault, ProofFault};
use aig_signals::{NamesFault, PropertyFault};
use aig_sim::{ReachFault, StimFault, WitnessFault};
use aig_unroll::UnrollFault;
use thiserror::Error;

/// The part of a run that refused, and its fault.
#[derive(Clone, Copy, PartialEq, Eq, Debug, Error)]
pub enum RunFault {
    #[error("circuit: {0}")]
    Circuit(Fault),
    #[error("stimulus: {0}")]
    Stimulus(StimFault),
    #[error("witness: {0}")]
    Witness(WitnessFault),
    /// A witness of one property that is checked for another.
    #[error("witness: of b{found}, not b{asked}")]
    OtherProperty { found: u32, asked: u32 },
    #[error("bench: {0}")]
    Bench(BenchFault),
    #[error("script: {0}")]
    Script(ScriptFault),
    /// A write of results failed.
    #[error("output: input or output")]
    Output,
    /// No memory was found, outside these parts.
    #[error("memory")]
    Memory,
    #[error("unroll: {0}")]
    Unroll(UnrollFault),
    #[error("cnf: {0}")]
    Cnf(CnfFault),
    #[error("select: {0}")]
    Select(SelectFault),
    #[error("witness: {0}")]
    Reach(ReachFault),
    #[error("proof: {0}")]
    Proof(ProofFault),
    /// The proof of an induction step.
    #[error("step proof: {0}")]
    StepProof(ProofFault),
    #[error("model: {0}")]
    Model(ModelFault),
    /// The file of a certificate.
    #[error("certificate: {0}")]
    Certificate(Fault),
    /// What a certificate says of a model.
    #[error("{0}")]
    Strengthen(StrengthenFault),
    #[error("names: {0}")]
    Names(NamesFault),
    /// What is cut from a circuit, or the circuit that is cut.
    #[error("{0}")]
    Cut(CutFault),
    /// The property that a text names.
    #[error("property: {0}")]
    Property(PropertyFault),
    /// The value that is to be explained.
    #[error("why: {0}")]
    Why(WhyFault),
    /// A line of a session was not read, or its answer not written.
    #[error("shell: input or output")]
    Shell,
}

impl RunFault {
    /// The exit status: 3 where memory ran out, or a read or a write failed; 1 for any other refusal.
    pub fn status(&self) -> u8
        ensures { result ≡ status_of self.now }
    {
        match self {
            RunFault::Circuit(Fault::Memory | Fault::Io) => 3,
            RunFault::Stimulus(StimFault::Memory | StimFault::Io) => 3,
            RunFault::Witness(WitnessFault::Memory) => 3,
            RunFault::Bench(BenchFault::Memory) => 3,
            RunFault::Script(_) | RunFault::Shell | RunFault::Output | RunFault::Memory => 3,
            RunFault::Unroll(UnrollFault::Memory) => 3,
            RunFault::Cnf(CnfFault::Memory) => 3,
            RunFault::Select(SelectFault::Memory) => 3,
            RunFault::Reach(ReachFault::Memory) => 3,
            RunFault::Proof(ProofFault::Memory | ProofFault::Io) => 3,
            RunFault::StepProof(ProofFault::Memory | ProofFault::Io) => 3,
            RunFault::Model(ModelFault::Memory) => 3,
            RunFault::Certificate(Fault::Memory | Fault::Io) => 3,
            RunFault::Strengthen(StrengthenFault::Memory) => 3,
            RunFault::Names(NamesFault::Memory) => 3,
            RunFault::Cut(CutFault::Memory) => 3,
            RunFault::Circuit(_)
            | RunFault::Stimulus(_)
            | RunFault::Witness(_)
            | RunFault::OtherProperty { .. }
            | RunFault::Bench(_)
            | RunFault::Unroll(_)
            | RunFault::Cnf(_)
            | RunFault::Select(_)
            | RunFault::Reach(_)
            | RunFault::Proof(_)
            | RunFault::StepProof(_)
            | RunFault::Model(_)
            | RunFault::Certificate(_)
            | RunFault::Strengthen(_)
            | RunFault::Names(_)
            | RunFault::Cut(_)
            | RunFault::Property(_)
            | RunFault::Why(_) => 1,
        }
    }
}

impl From<Fault> for RunFault {
    ghost use Rattle.std.specs.Prelude.{◌≡◌};
    ghost use Rattle.aig_command.specs.declared.run_fault.RunFault.TheVariants as run_faults;

    ghost from_gives = { λ fault part. part ≡ run_faults.Circuit fault };

    fn from(fault: Fault) -> RunFault {
        RunFault::Circuit(fault)
    }
}

impl From<StimFault> for RunFault {
    ghost use Rattle.std.specs.Prelude.{◌≡◌};
    ghost use Rattle.aig_command.specs.declared.run_fault.RunFault.TheVariants as run_faults;

    ghost from_gives = { λ fault part. part ≡ run_faults.Stimulus fault };

    fn from(fault: StimFault) -> RunFault {
        RunFault::Stimulus(fault)
    }
}

impl From<WitnessFault> for RunFault {
    ghost use Rattle.std.specs.Prelude.{◌≡◌};
    ghost use Rattle.aig_command.specs.declared.run_fault.RunFault.TheVariants as run_faults;

    ghost from_gives = { λ fault part. part ≡ run_faults.Witness fault };

    fn from(fault: WitnessFault) -> RunFault {
        RunFault::Witness(fault)
    }
}

impl From<BenchFault> for RunFault {
    ghost use Rattle.std.specs.Prelude.{◌≡◌};
    ghost use Rattle.aig_command.specs.declared.run_fault.RunFault.TheVariants as run_faults;

    ghost from_gives = { λ fault part. part ≡ run_faults.Bench fault };

    fn from(fault: BenchFault) -> RunFault {
        RunFault::Bench(fault)
    }
}

impl From<ScriptFault> for RunFault {
    ghost use Rattle.std.specs.Prelude.{◌≡◌};
    ghost use Rattle.aig_command.specs.declared.run_fault.RunFault.TheVariants as run_faults;

    ghost from_gives = { λ fault part. part ≡ run_faults.Script fault };

    fn from(fault: ScriptFault) -> RunFault {
        RunFault::Script(fault)
    }
}

impl From<Memory> for RunFault {
    ghost use Rattle.std.specs.Prelude.{◌≡◌};
    ghost use Rattle.aig_command.specs.declared.run_fault.RunFault.TheVariants as run_faults;

    ghost from_gives = { λ _ part. part ≡ run_faults.Memory };

    fn from(_memory: Memory) -> RunFault {
        RunFault::Memory
    }
}

impl From<UnrollFault> for RunFault {
    ghost use Rattle.std.specs.Prelude.{◌≡◌};
    ghost use Rattle.aig_command.specs.declared.run_fault.RunFault.TheVariants as run_faults;

    ghost from_gives = { λ fault part. part ≡ run_faults.Unroll fault };

    fn from(fault: UnrollFault) -> RunFault {
        RunFault::Unroll(fault)
    }
}

impl From<CnfFault> for RunFault {
    ghost use Rattle.std.specs.Prelude.{◌≡◌};
    ghost use Rattle.aig_command.specs.declared.run_fault.RunFault.TheVariants as run_faults;

    ghost from_gives = { λ fault part. part ≡ run_faults.Cnf fault };

    fn from(fault: CnfFault) -> RunFault {
        RunFault::Cnf(fault)
    }
}

impl From<SelectFault> for RunFault {
    ghost use Rattle.std.specs.Prelude.{◌≡◌};
    ghost use Rattle.aig_command.specs.declared.run_fault.RunFault.TheVariants as run_faults;

    ghost from_gives = { λ fault part. part ≡ run_faults.Select fault };

    fn from(fault: SelectFault) -> RunFault {
        RunFault::Select(fault)
    }
}

impl From<ReachFault> for RunFault {
    ghost use Rattle.std.specs.Prelude.{◌≡◌};
    ghost use Rattle.aig_command.specs.declared.run_fault.RunFault.TheVariants as run_faults;

    ghost from_gives = { λ fault part. part ≡ run_faults.Reach fault };

    fn from(fault: ReachFault) -> RunFault {
        RunFault::Reach(fault)
    }
}

impl From<ProofFault> for RunFault {
    ghost use Rattle.std.specs.Prelude.{◌≡◌};
    ghost use Rattle.aig_command.specs.declared.run_fault.RunFault.TheVariants as run_faults;

    ghost from_gives = { λ fault part. part ≡ run_faults.Proof fault };

    fn from(fault: ProofFault) -> RunFault {
        RunFault::Proof(fault)
    }
}

impl From<ModelFault> for RunFault {
    ghost use Rattle.std.specs.Prelude.{◌≡◌};
    ghost use Rattle.aig_command.specs.declared.run_fault.RunFault.TheVariants as run_faults;

    ghost from_gives = { λ fault part. part ≡ run_faults.Model fault };

    fn from(fault: ModelFault) -> RunFault {
        RunFault::Model(fault)
    }
}

impl From<NamesFault> for RunFault {
    ghost use Rattle.std.specs.Prelude.{◌≡◌};
    ghost use Rattle.aig_command.specs.declared.run_fault.RunFault.TheVariants as run_faults;

    ghost from_gives = { λ fault part. part ≡ run_faults.Names fault };

    fn from(fault: NamesFault) -> RunFault {
        RunFault::Names(fault)
    }
}

impl From<PropertyFault> for RunFault {
    ghost use Rattle.std.specs.Prelude.{◌≡◌};
    ghost use Rattle.aig_command.specs.declared.run_fault.RunFault.TheVariants as run_faults;

    ghost from_gives = { λ fault part. part ≡ run_faults.Property fault };

    fn from(fault: PropertyFault) -> RunFault {
        RunFault::Property(fault)
    }
}

impl From<CutFault> for RunFault {
    ghost use Rattle.std.specs.Prelude.{◌≡◌};
    ghost use Rattle.aig_command.specs.declared.run_fault.RunFault.TheVariants as run_faults;

    ghost from_gives = { λ fault part. part ≡ run_faults.Cut fault };

    fn from(fault: CutFault) -> RunFault {
        RunFault::Cut(fault)
    }
}
