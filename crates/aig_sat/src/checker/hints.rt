//! The hints of a step: the ids of the clauses that it follows from. Nothing is proved of groups: a clause is looked at
//! before anything is taken from it.

ghost use Rattle.std.specs.Prelude.{◌≡◌, ◌+◌};
ghost use Rattle.aig_parts.specs.Literal.{variable};

use aig_bytes::Memory;
use aig_parts::Lit;
use std::alloc::Global;

/// How propagation finds the clauses that it looks at.
#[derive(Clone, Copy)]
pub(crate) enum Way<'a> {
    /// Those that watch a literal that has become false.
    Search,
    /// Those that hints name, in their order: the first ones, and then the others. A negative hint ends either.
    Named(&'a [Lit], &'a [Lit]),
}

/// The id that a hint names.
pub(crate) fn id_of(hint: Lit) -> u32
    ensures { result ≡ variable hint + 1 }
{
    hint.var().saturating_add(1)
}

/// The groups of a step. Each has a key: the id of its clause, and the place of the first hint after the one that names
/// the clause. The keys are sorted.
#[derive(Drop)]
pub(crate) struct Groups {
    keys: Vec<u64>,
}

// The key of a group, or of the place before all groups of a clause.
fn key_of(id: u32, place: usize) -> u64 {
    u64::from(id) << 32 | place as u64
}

impl Groups {
    /// No groups.
    pub(crate) fn new(alloc: Global) -> Groups {
        Groups {
            keys: Vec::new(alloc),
        }
    }

    /// Takes the groups of a step's hints in place of those that it has.
    pub(crate) fn put(&mut self, hints: Option<&[Lit]>) -> Result<(), Memory> {
        self.keys.clear();
        let Some(hints) = hints else {
            return Ok(());
        };
        for (place, hint) in hints.iter().enumerate() {
            if hint.is_neg() {
                self.keys.push(key_of(id_of(*hint), place + 1))?;
            }
        }
        self.keys.sort_unstable();
        Ok(())
    }

    // The place of the first hint of a clause's group. Of two groups the first one counts.
    fn place(&self, id: u32) -> Option<usize> {
        let at = match self.keys.binary_search(&key_of(id, 0)) {
            Ok(at) => at,
            Err(at) => at,
        };
        match self.keys.get(at) {
            Some(key) if *key >> 32 == u64::from(id) => Some((*key % (1 << 32)) as usize),
            _ => None,
        }
    }

    /// How a candidate of the step is tried that has these hints: by those before all groups, and by those of its own.
    pub(crate) fn way<'a>(&self, hints: Option<&'a [Lit]>, id: u32) -> Way<'a> {
        let Some(hints) = hints else {
            return Way::Search;
        };
        let place = match self.place(id) {
            Some(place) => place,
            None => hints.len(),
        };
        let (_, group) = hints.split_at(place.min(hints.len()));
        Way::Named(hints, group)
    }
}
