//! Why a witness is not reduced.
use aig_base::Memory;
use aig_bench::BenchFault;
use aig_sim::WitnessFault;
use thiserror::Error;

/// Why a witness is not reduced: a fault of the witness, or else of the bench that simulates its run.
#[derive(Clone, Copy, PartialEq, Eq, Debug, Error)]
pub enum ReduceFault {
    #[error("witness: {0}")]
    Witness(WitnessFault),
    #[error("bench: {0}")]
    Bench(BenchFault),
}

impl From<WitnessFault> for ReduceFault {
    ghost use Rattle.std.specs.Prelude.{◌≡◌};
    ghost use Rattle.aig_reduce.specs.declared.fault.ReduceFault.TheVariants as faults;

    ghost from_gives = { λ fault part. part ≡ faults.Witness fault };

    fn from(fault: WitnessFault) -> ReduceFault {
        ReduceFault::Witness(fault)
    }
}

impl From<BenchFault> for ReduceFault {
    ghost use Rattle.std.specs.Prelude.{◌≡◌};
    ghost use Rattle.aig_reduce.specs.declared.fault.ReduceFault.TheVariants as faults;

    ghost from_gives = { λ fault part. part ≡ faults.Bench fault };

    fn from(fault: BenchFault) -> ReduceFault {
        ReduceFault::Bench(fault)
    }
}

impl From<Memory> for ReduceFault {
    ghost use Rattle.std.specs.Prelude.{◌≡◌};
    ghost use Rattle.aig_bench.specs.declared.bench.fault.BenchFault.TheVariants as bench_faults;
    ghost use Rattle.aig_reduce.specs.declared.fault.ReduceFault.TheVariants as faults;

    ghost from_gives = { λ _ part. part ≡ faults.Bench bench_faults.Memory };

    fn from(_memory: Memory) -> ReduceFault {
        ReduceFault::Bench(BenchFault::Memory)
    }
}
