//! The parts of a circuit, unchecked.
ghost use Rattle.std.specs.Prelude.{◌≡◌, ◌≤◌, ◌↔◌, length, sum_by, All, IsTrue};
ghost use Rattle.aig_parts.specs.Formed.{limit, section_length, IsFormed, CountsFit, IsName, IsSymbolOf, AreNamedOnce};

use crate::gate::Gate;
use crate::latch::Latch;
use crate::list::{Bytes, List};
use crate::literal::Lit;
use crate::symbols::{Kind, Symbols};

/// The greatest variable and the greatest count of a section.
pub const LIMIT: usize = 4_194_303;

/// The parts of a circuit, unchecked.
#[derive(Debug)]
pub struct Raw {
    /// The greatest variable.
    pub max_var: u32,
    pub inputs: List<Lit>,
    pub latches: List<Latch>,
    pub outputs: List<Lit>,
    pub bad: List<Lit>,
    pub constraints: List<Lit>,
    pub justice: List<List<Lit>>,
    pub fairness: List<Lit>,
    pub gates: List<Gate>,
    pub symbols: Symbols,
    pub comment: Option<Bytes>,
}

// By hand: a value then ends in one call, which is one step of a proof (docs/PROOFS.md, Habits).
impl Drop for Raw {
    fn drop(self) {
        let Raw {
            max_var: _,
            inputs: _,
            latches: _,
            outputs: _,
            bad: _,
            constraints: _,
            justice: _,
            fairness: _,
            gates: _,
            symbols: _,
            comment: _,
        } = self;
    }
}

fn is_name(name: &[u8]) -> bool
    ensures { IsTrue result ↔ IsName name.now }
{
    !name.is_empty() && name.iter().all(|byte| *byte != b'\n')
}

// Whether the lists have at most `LIMIT` entries together.
fn sum_fits(lists: &List<List<Lit>>) -> bool
    ensures { IsTrue result ↔ (sum_by length lists.now ≤ limit) }
{
    let mut total = 0;
    for list in lists.as_slice() {
        if list.len() > LIMIT - total {
            return false;
        }
        total += list.len();
    }
    true
}

impl Raw {
    fn section_length(&self, kind: Kind) -> usize
        ensures { result ≡ section_length self.now kind }
    {
        match kind {
            Kind::Input => self.inputs.len(),
            Kind::Latch => self.latches.len(),
            Kind::Output => self.outputs.len(),
            Kind::Bad => self.bad.len(),
            Kind::Constraint => self.constraints.len(),
            Kind::Justice => self.justice.len(),
            Kind::Fairness => self.fairness.len(),
        }
    }

    fn counts_fit(&self) -> bool
        ensures { IsTrue result ↔ CountsFit self.now }
    {
        self.max_var as usize <= LIMIT
            && self.inputs.len() <= LIMIT
            && self.latches.len() <= LIMIT
            && self.outputs.len() <= LIMIT
            && self.bad.len() <= LIMIT
            && self.constraints.len() <= LIMIT
            && self.justice.len() <= LIMIT
            && self.fairness.len() <= LIMIT
            && self.gates.len() <= LIMIT
            && sum_fits(&self.justice)
    }

    fn names_entry(&self, kind: Kind, position: u32, name: &[u8]) -> bool
        ensures { IsTrue result ↔ IsSymbolOf self.now ((kind, position), name.now) }
    {
        (position as usize) < self.section_length(kind) && is_name(name)
    }

    fn symbols_fit(&self) -> bool
        ensures fit { IsTrue result ↔ All (IsSymbolOf self.now) self.now.symbols }
        // The table keeps this by its type.
        ensures once { AreNamedOnce self.now }
    {
        self.symbols
            .iter()
            .all(|(key, name)| self.names_entry(key.0, key.1, name))
    }

    /// Whether the parts are within the limits, and each symbol names an entry that is there by one or more bytes
    /// without LF. (No entry has two names: the table of symbols keeps that by its type.)
    pub fn is_formed(&self) -> bool
        ensures { IsTrue result ↔ IsFormed self.now }
    {
        self.counts_fit() && self.symbols_fit()
    }
}
