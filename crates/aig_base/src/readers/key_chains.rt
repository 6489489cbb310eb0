//! Positions by their keys.
ghost use Rattle.std.specs.Prelude.{◌≡◌, ◌+◌, ◌*◌, ◌^◌, ◌∷◌, ◌++◌, ◌<◌, ◌≤◌, List, [], ℕ, Some, length, All, slice_get};
ghost use Rattle.std.specs.Prelude.{IfOk, OnOk};
ghost use Rattle.aig_parts.specs.Formed.{limit};
ghost use Rattle.aig_base.specs.state.KeyChains.{AreKeyChains};
ghost use Rattle.aig_parts.specs.Literal.{variable};
ghost use Rattle.aig_base.specs.state.Marks.{sides, IsGateBelow};

use aig_bytes::Memory;
use aig_parts::Gate;
use std::alloc::{AllocError, AllocFailed, Global};

/// The positions of a list of keys, in a chain for each key. Link 0 ends a chain, and link `p + 1` leads to position
/// `p`.
#[derive(Drop)]
pub(crate) struct KeyChains {
    pub(crate) first: Vec<u32>,
    pub(crate) next: Vec<u32>,
}

impl KeyChains {
    fn empty(alloc: Global, keys: usize, positions: usize) -> Result<KeyChains, AllocError>
        ensures links { IfOk result (λ links. AreKeyChains [] links.first.items links.next.items) }
        ensures size { IfOk result (λ links. length links.first.items ≡ keys) }
    {
        Ok(KeyChains {
            first: vec![in alloc; 0; keys]?,
            next: Vec::with_capacity(alloc, positions)?,
        })
    }

    fn add(&mut self, key: u32) -> Result<(), AllocFailed<u32>>
        requires key { key < length self.old.first.items }
        requires room { length self.old.next.items + 1 < 2 ^ 32 }
        ensures links { OnOk result ((keys : List ℕ) → AreKeyChains keys self.old.first.items self.old.next.items
            → AreKeyChains (keys ++ key ∷ []) self.new.first.items self.new.next.items) }
        ensures size { OnOk result (length self.new.first.items ≡ length self.old.first.items) }
    {
        let link = self.next.len() as u32 + 1;
        let first = self.first[key as usize];
        self.next.push(first)?;
        self.first[key as usize] = link;
        Ok(())
    }

    /// The gates by the variables that they read: position `2q` is the first right side of gate `q`, position `2q + 1`
    /// the second.
    pub(crate) fn of_sides(alloc: Global, max_var: u32, gates: &[Gate]) -> Result<KeyChains, Memory>
        requires max_var { max_var ≤ limit }
        requires count { length gates.now ≤ limit }
        requires below { All (IsGateBelow (max_var + 1)) gates.now }
        ensures links { IfOk result (λ links. AreKeyChains (sides gates.now) links.first.items links.next.items) }
        ensures size { IfOk result (λ links. length links.first.items ≡ max_var + 1) }
    {
        let mut links = KeyChains::empty(alloc, max_var as usize + 1, 2 * gates.len())?;
        for gate in gates {
            links.add(gate.rhs0.var())?;
            links.add(gate.rhs1.var())?;
        }
        Ok(links)
    }

    /// The link at which the chain of a key begins.
    pub(crate) fn first(&self, key: u32) -> u32
        requires { key < length self.now.first.items }
        ensures { slice_get self.now.first.items key ≡ Some result }
    {
        self.first[key as usize]
    }

    /// The link that follows a position.
    pub(crate) fn next(&self, position: usize) -> u32
        requires { position < length self.now.next.items }
        ensures { slice_get self.now.next.items position ≡ Some result }
    {
        self.next[position]
    }
}
