//! The files of `--circuit-out` and `--stimulus-out`.

/// The names of the files of `--circuit-out` and `--stimulus-out`.
#[derive(Clone, Copy)]
pub struct KeptFileNames<'a> {
    pub circuit: Option<&'a str>,
    pub stimulus: Option<&'a str>,
}

impl KeptFileNames<'_> {
    /// Whether both options are missing.
    pub fn is_empty(&self) -> bool {
        self.circuit.is_none() && self.stimulus.is_none()
    }
}
