//! The variables that a proof names.
ghost use Rattle.std.specs.Prelude.{◌≡◌, ◌+◌, ◌^◌, ◌<◌, ◌≤◌, IfOk, IsTrue, OnOk, length};
ghost use Rattle.aig_parts.specs.Literal.{variable};
ghost use Rattle.aig_sat.specs.proof.Steps.{IsRenamed};

use aig_bytes::Memory;
use aig_parts::Lit;
use std::alloc::Global;

/// The slots of a node: one for each hexadecimal digit.
const WIDTH: usize = 16;

/// The greatest number of variables.
const MOST: u32 = 2_147_483_647;

/// The names of a proof by their eight hexadecimal digits, the highest first.
#[derive(Drop)]
pub(crate) struct NameTree {
    // A slot has the place of the node for the next digit, or at the last digit a count: the name was the first, the
    // second and so on. 0 stands for nothing.
    slots: Vec<u32>,
}

/// The variables of the formula, and those of the proof's own, which are behind them in the order in which they were
/// first named. A look takes eight steps whatever a proof names, and a new name at most 512 bytes.
#[derive(Drop)]
pub(crate) struct Names {
    // How many variables the formula has.
    pub(crate) formula: u32,
    // How many variables of its own the proof has named.
    pub(crate) own: u32,
    tree: NameTree,
    ghost bounded: { formula + own < 2 ^ 31 },
}

/// The highest of eight hexadecimal digits.
fn first_digit(number: u32) -> usize
    ensures { result < 16 }
{
    (number / 0x1000_0000) as usize
}

impl NameTree {
    // Whether a node is at this place, which is not the first node.
    fn has_node(&self, place: usize) -> bool
        ensures { IsTrue result → place + 16 ≤ length self.now.slots.items }
    {
        place > 0 && place <= self.slots.len().saturating_sub(WIDTH)
    }

    // Adds a node, and returns its place.
    fn add_node(&mut self) -> Result<u32, Memory>
        ensures more { length self.old.slots.items ≤ length self.new.slots.items }
        ensures node { IfOk result (λ place. place + 16 ≤ length self.new.slots.items) }
    {
        let Ok(place) = u32::try_from(self.slots.len()) else {
            return Err(Memory);
        };
        self.slots.extend_from_slice(&[0; WIDTH])?;
        Ok(place)
    }

    // Adds the first node, where there is none.
    fn begin(&mut self) -> Result<(), Memory>
        ensures { OnOk result (16 ≤ length self.new.slots.items) }
    {
        if self.slots.len() < WIDTH {
            self.add_node()?;
        }
        Ok(())
    }

    // The place of the node that a slot leads to.
    fn node_below(&mut self, slot: usize) -> Result<usize, Memory>
        requires { slot < length self.old.slots.items }
        ensures { IfOk result (λ place. place + 16 ≤ length self.new.slots.items) }
    {
        let place = self.slots[slot] as usize;
        if self.has_node(place) {
            return Ok(place);
        }
        let added = self.add_node()?;
        self.slots[slot] = added;
        Ok(added as usize)
    }

    // The slot of a name's last digit.
    fn slot_of(&mut self, name: u32) -> Result<usize, Memory>
        ensures { IfOk result (λ slot. slot < length self.new.slots.items) }
    {
        self.begin()?;
        let mut node = 0;
        let mut digits = name;
        for _ in 0..7 {
            node = self.node_below(node + first_digit(digits))?;
            digits = digits.wrapping_mul(16);
        }
        Ok(node + first_digit(digits))
    }
}

impl Names {
    /// The formula has so many variables, and the proof none of its own.
    pub(crate) fn new(alloc: Global, formula: u32) -> Names
        requires { formula < 2 ^ 31 }
        ensures formula { result.formula ≡ formula }
        ensures own { result.own ≡ 0 }
    {
        Names {
            formula,
            own: 0,
            tree: NameTree {
                slots: Vec::new(alloc),
            },
        }
    }

    /// How many variables there are.
    pub(crate) fn variables(&self) -> u32
        ensures { result ≡ self.now.formula + self.now.own }
    {
        self.formula + self.own
    }

    // The variable of the proof's own that has this name: the next one where no variable has it. There always is one,
    // since no more numbers are over the formula's.
    fn own_variable(&mut self, name: u32) -> Result<u32, Memory>
        ensures formula { self.new.formula ≡ self.old.formula }
        ensures never_fewer { self.old.own ≤ self.new.own }
        ensures own { IfOk result (λ v. self.old.formula ≤ v) }
        ensures below { IfOk result (λ v. v < self.new.formula + self.new.own) }
    {
        let slot = self.tree.slot_of(name)?;
        let count = self.tree.slots[slot];
        if count > 0 && count <= self.own {
            return Ok(self.formula + (count - 1));
        }
        let variable = self.variables();
        if variable >= MOST {
            return Err(Memory);
        }
        self.own += 1;
        self.tree.slots[slot] = self.own;
        Ok(variable)
    }

    /// The literal that a proof spells so. A variable that is not the formula's gets the next free number where it is
    /// first named.
    pub(crate) fn literal(&mut self, spelled: Lit) -> Result<Lit, Memory>
        ensures formula { self.new.formula ≡ self.old.formula }
        ensures never_fewer { self.old.own ≤ self.new.own }
        ensures renamed { IfOk result (λ l. IsRenamed self.old.formula spelled l) }
        ensures below { IfOk result (λ l. variable l < self.new.formula + self.new.own) }
    {
        if spelled.var() < self.formula {
            return Ok(spelled);
        }
        let even = 2 * self.own_variable(spelled.var())?;
        Ok(Lit::new(if spelled.is_neg() { even + 1 } else { even }))
    }
}
