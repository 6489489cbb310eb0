//! How tables of names hash.
ghost use Rattle.std.specs.Prelude.{◌≡◌, []};
ghost use Rattle.std.specs.Hash.DefaultHasher as sip;
ghost use Rattle.aig_signals.specs.state.NameHash.{hash_by};

use std::hash::{BuildHasher, DefaultHasher, Hasher};

/// Makes the hashers of a table of names. Each begins as SipHash after all names of the table, so that no choice of
/// names can crowd it.
#[derive(Clone, Copy)]
pub(crate) struct NameHash {
    mixed: DefaultHasher,
}

impl NameHash {
    /// Hashers that have taken in no name.
    pub(crate) fn new() -> NameHash
        ensures { result ≡ hash_by [] }
    {
        NameHash {
            mixed: DefaultHasher::new(),
        }
    }

    /// Takes in a name.
    pub(crate) fn mix(&mut self, name: &[u8])
        ensures { self.new ≡ record { mixed = sip.write self.old.mixed name.now } }
    {
        self.mixed.write(name);
    }
}

impl BuildHasher for NameHash {
    type Hasher = DefaultHasher;

    ghost build_hasher = { λ s. s.mixed };

    fn build_hasher(&self) -> DefaultHasher {
        self.mixed
    }
}
