//! What a bench simulates.
use aig_base::Circuit;
use aig_values::Stimulus;

/// A circuit and the stimulus that drives it.
#[derive(Drop, Debug)]
pub struct DrivenCircuit {
    pub circuit: Circuit,
    pub stimulus: Stimulus,
}
