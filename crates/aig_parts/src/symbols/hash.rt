//! How the table of symbols hashes.
ghost use Rattle.std.specs.Prelude.{◌≡◌, []};
ghost use Rattle.std.specs.List.{fold};
ghost use Rattle.std.specs.Hash as fed;
ghost use Rattle.std.specs.Hash.FoldHasher as folding;
ghost use Rattle.aig_parts.specs.state.SymbolHash.{hash_by, hash_of_entries};

use std::hash::{BuildHasher, DefaultHasher, FoldHasher, Hasher};

/// A hash by two keys, one taken in before the entry and one after it.
#[derive(Clone, Copy)]
pub(crate) struct SymbolHasher {
    state: FoldHasher,
    last: u64,
}

impl Hasher for SymbolHasher {
    ghost write = { λ s bytes. record { state = folding.write s.state bytes; last = s.last } };

    ghost finish = { λ s. folding.finish (fold folding.write s.state (fed.u64 s.last)) };

    fn write(&mut self, bytes: &[u8]) {
        self.state.write(bytes);
    }

    fn finish(&self) -> u64 {
        let mut state = self.state;
        state.write_u64(self.last);
        state.finish()
    }
}

/// Makes the hashers of a table of symbols. SipHash makes its keys from entries: from all of them if the table takes
/// some of a file, so that no choice of positions can crowd it. Another last position gives other keys.
#[derive(Clone, Copy)]
pub(crate) struct SymbolHash {
    hasher: SymbolHasher,
}

impl SymbolHash {
    /// Hashers by keys that are made from what was mixed.
    pub(crate) fn by(mixed: DefaultHasher) -> SymbolHash
        ensures keys { result ≡ hash_by mixed }
    {
        let mut mixed = mixed;
        let mut state = FoldHasher::default();
        state.write_u64(mixed.finish());
        mixed.write_u64(state.finish());
        SymbolHash {
            hasher: SymbolHasher {
                state,
                last: mixed.finish(),
            },
        }
    }

    /// Hashers by fixed keys, as of no entry.
    pub(crate) fn fixed() -> SymbolHash
        ensures { result ≡ hash_of_entries [] }
    {
        SymbolHash::by(DefaultHasher::new())
    }
}

impl BuildHasher for SymbolHash {
    type Hasher = SymbolHasher;

    ghost build_hasher = { λ s. s.hasher };

    fn build_hasher(&self) -> SymbolHasher {
        self.hasher
    }
}
