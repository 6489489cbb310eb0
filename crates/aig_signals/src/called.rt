//! What many names mean.
ghost use Rattle.std.specs.Prelude.{◌≡◌, ◌≤◌, ℕ, All, List, IfNone, IfOk, IfSome};
ghost use Rattle.std.specs.Str.{bytes_eq};
ghost use Rattle.indexmap.specs.IndexMap.{get_by};
ghost use Rattle.aig_parts.specs.Literal.{variable};
ghost use Rattle.aig_base.specs.Sections.{IsDefined};
ghost use Rattle.aig_signals.specs.Bits.{bits_named, word_bits};
ghost use Rattle.aig_signals.specs.Lookup as lookup;
ghost use Rattle.aig_signals.specs.Lookup.{IsNoName, IsPlain, Means, Unknown, literals_by};
ghost use Rattle.aig_signals.specs.Signals as signals_spec;
ghost use Rattle.aig_signals.specs.state.Called.{by_names};

mod table;
mod words;

use crate::bits::literals_of_words;
use crate::called::table::{LiteralTable, hash_of};
use crate::called::words::WordTable;
use crate::lookup::{Rule, after_not, list_of, literal_placed, literals_by_names, negated};
use crate::signal::Signal;
use aig_base::{Circuit, List, Lit, Memory};
use aig_certificate::literal_of;
use indexmap::IndexMap;
use std::alloc::Global;
use std::marker::Model;

/// A copy of literals.
fn copy_of(alloc: Global, literals: &[Lit]) -> Result<List<Lit>, Memory>
    ensures { IfOk result (λ copy. copy ≡ literals.now) }
{
    Ok(List::from_vec(Vec::from_slice(alloc, literals)?))
}

/// A copy of what was found.
fn copy_found(alloc: Global, found: &Option<List<Lit>>) -> Result<Option<List<Lit>>, Memory>
    ensures { IfOk result (λ copy. copy ≡ found.now) }
{
    match found {
        Some(literals) => Ok(Some(copy_of(alloc, literals.as_slice())?)),
        None => Ok(None),
    }
}

/// What was found of the texts by first names, by vectors and by further words.
fn names_found(
    alloc: Global,
    circuit: &Circuit,
    signals: &[Signal],
    texts: &[&[u8]],
) -> Result<LiteralTable, Memory>
    requires { signals.now ≡ signals_spec.signals_of circuit.now }
    ensures { IfOk result (λ table. (x : List ℕ) → IfSome (get_by (λ key. bytes_eq x key.items) table)
        (λ found. found ≡ by_names circuit.now x)) }
{
    let mut table = table::table_of(alloc, texts)?;
    table::note_all(alloc, &mut table, circuit, Rule::FirstName)?;
    table::note_signals(alloc, &mut table, circuit, signals)?;
    table::note_all(alloc, &mut table, circuit, Rule::FurtherWord)?;
    Ok(table)
}

/// What was found of the texts by letters and positions.
fn positions_found(
    alloc: Global,
    circuit: &Circuit,
    texts: &[&[u8]],
) -> Result<LiteralTable, Memory>
    ensures { IfOk result (λ table. (x : List ℕ) → IfSome (get_by (λ key. bytes_eq x key.items) table)
        (λ found. found ≡ literals_by circuit.now x Rule.Position)) }
{
    let mut table = table::table_of(alloc, texts)?;
    table::note_all(alloc, &mut table, circuit, Rule::Position)?;
    Ok(table)
}

/// The words X[n] of each text X.
fn words_found(alloc: Global, circuit: &Circuit, texts: &[&[u8]]) -> Result<WordTable, Memory>
    ensures { IfOk result (λ table. (x : List ℕ) → IfSome (get_by (λ key. bytes_eq x key.items) table)
        (λ bits. bits ≡ word_bits circuit.now x)) }
{
    let mut table = words::table_of(alloc, texts)?;
    words::note_all(alloc, &mut table, circuit)?;
    Ok(table)
}

/// What was found of the texts X by words X[n].
fn bits_found(alloc: Global, circuit: &Circuit, texts: &[&[u8]]) -> Result<LiteralTable, Memory>
    ensures { IfOk result (λ table. (x : List ℕ) → IfSome (get_by (λ key. bytes_eq x key.items) table)
        (λ found. found ≡ bits_named circuit.now x)) }
{
    let words = words_found(alloc, circuit, texts)?;
    let mut found = IndexMap::with_hasher(alloc, hash_of(texts));
    words::keep_all(alloc, &mut found, &words, texts)?;
    Ok(found)
}

/// The names of a circuit, and what is known before of some texts. One walk over the names for each rule finds what all
/// of these texts mean, and each is then looked up in tables of the texts. Contracts see the circuit.
pub struct SignalNames<'a> {
    circuit: &'a Circuit,
    signals: &'a [Signal],
    /// By first names, by vectors and by further words.
    named: LiteralTable,
    /// By words X[n].
    bits: LiteralTable,
    /// By letters and positions.
    placed: LiteralTable,
}

// By hand: a value then ends in one call, which is one step of a proof (docs/PROOFS.md, Habits).
impl<'a> Drop for SignalNames<'a> {
    fn drop(self) {
        let SignalNames {
            circuit: _,
            signals: _,
            named: _,
            bits: _,
            placed: _,
        } = self;
    }
}

impl<'a> Model for SignalNames<'a> {
    ghost use Rattle.std.specs.Prelude.{◌≡◌, ℕ, List, IfSome};
    ghost use Rattle.std.specs.Str.{bytes_eq};
    ghost use Rattle.indexmap.specs.IndexMap.{get_by};
    ghost use Rattle.aig_parts.specs.declared.raw.Raw.{Raw};
    ghost use Rattle.aig_signals.specs.Bits.{bits_named};
    ghost use Rattle.aig_signals.specs.Lookup.{literals_by};
    ghost use Rattle.aig_signals.specs.Signals.{signals_of};
    ghost use Rattle.aig_signals.specs.declared.lookup.Rule.TheVariants as rule;
    ghost use Rattle.aig_signals.specs.state.Called.{by_names};

    ghost Value = { Raw };

    ghost view = { λ n. n.circuit.now };

    ghost invariant = { λ n. (n.signals.now ≡ signals_of n.circuit.now)
        × ((x : List ℕ) → IfSome (get_by (λ key. bytes_eq x key.items) n.named) (λ f. f ≡ by_names n.circuit.now x))
        × ((x : List ℕ) → IfSome (get_by (λ key. bytes_eq x key.items) n.bits) (λ f. f ≡ bits_named n.circuit.now x))
        × ((x : List ℕ) → IfSome (get_by (λ key. bytes_eq x key.items) n.placed)
        (λ f. f ≡ literals_by n.circuit.now x rule.Position)) };
}

impl<'a> SignalNames<'a> {
    /// Those of a circuit, of whose texts nothing is known before: it takes no memory. The signals are those of the
    /// circuit.
    pub fn of(alloc: Global, circuit: &'a Circuit, signals: &'a [Signal]) -> SignalNames<'a>
        requires { signals.now ≡ signals_spec.signals_of circuit.now }
        ensures { result ≡ circuit.now }
    {
        SignalNames {
            circuit,
            signals,
            named: IndexMap::with_hasher(alloc, hash_of(&[])),
            bits: IndexMap::with_hasher(alloc, hash_of(&[])),
            placed: IndexMap::with_hasher(alloc, hash_of(&[])),
        }
    }

    /// Those of a circuit, for these texts. Linear in the circuit, its names and the texts; it takes memory for each
    /// text, for what it is that of and for each word X[n] where X is one of the texts.
    pub fn among(
        alloc: Global,
        circuit: &'a Circuit,
        signals: &'a [Signal],
        texts: &[&[u8]],
    ) -> Result<SignalNames<'a>, Memory>
        requires { signals.now ≡ signals_spec.signals_of circuit.now }
        ensures { IfOk result (λ names. names ≡ circuit.now) }
    {
        let named = names_found(alloc, circuit, signals, texts)?;
        let bits = bits_found(alloc, circuit, texts)?;
        let placed = positions_found(alloc, circuit, texts)?;
        Ok(SignalNames {
            circuit,
            signals,
            named,
            bits,
            placed,
        })
    }

    /// What a name is that of by first names, by vectors and by further words.
    fn by_names(&self, alloc: Global, name: &[u8]) -> Result<Option<List<Lit>>, Memory>
        ensures { IfOk result (λ found. found ≡ by_names self.now name.now) }
    {
        match self.named.get(name) {
            Some(found) => copy_found(alloc, found),
            None => literals_by_names(alloc, self.circuit, self.signals, name),
        }
    }

    /// What a name X is that of by words X[n].
    fn by_words(&self, alloc: Global, name: &[u8]) -> Result<Option<List<Lit>>, Memory>
        ensures { IfOk result (λ found. found ≡ bits_named self.now name.now) }
    {
        match self.bits.get(name) {
            Some(found) => copy_found(alloc, found),
            None => literals_of_words(alloc, self.circuit, name),
        }
    }

    /// What a name is that of by its letter and position.
    fn by_position(&self, alloc: Global, name: &[u8]) -> Result<Option<List<Lit>>, Memory>
        ensures { IfOk result (λ found. found ≡ literals_by self.now name.now Rule.Position) }
    {
        match self.placed.get(name) {
            Some(found) => copy_found(alloc, found),
            None => literal_placed(alloc, self.circuit, name),
        }
    }

    /// The literals that a name is that of, without numbers and `!`.
    fn literals_called(&self, alloc: Global, name: &[u8]) -> Result<Option<List<Lit>>, Memory>
        ensures { IfOk result (λ found. found ≡ lookup.literals_called self.now name.now) }
    {
        let named = self.by_names(alloc, name)?;
        if let Some(literals) = named {
            return Ok(Some(literals));
        }
        let bits = self.by_words(alloc, name)?;
        if let Some(literals) = bits {
            return Ok(Some(literals));
        }
        self.by_position(alloc, name)
    }

    /// The literals that a name means without `!`.
    fn plain(&self, alloc: Global, name: &[u8]) -> Result<Option<List<Lit>>, Memory>
        ensures plain { IfOk result (λ found. IfSome found (IsPlain self.now name.now)) }
        ensures none { IfOk result (λ found. IfNone found (IsNoName self.now name.now)) }
    {
        let called = self.literals_called(alloc, name)?;
        match called {
            Some(literals) => Ok(Some(literals)),
            None => list_of(alloc, literal_of(self.circuit, name)),
        }
    }

    /// The literals that a name means, as `look_up`. For one of the texts it takes time for what the name means alone.
    pub fn look_up(&self, alloc: Global, name: &[u8]) -> Result<Option<List<Lit>>, Memory>
        ensures means { IfOk result (λ found. IfSome found (Means self.now name.now)) }
        ensures unknown { IfOk result (λ found. IfNone found (Unknown self.now name.now)) }
        ensures range { IfOk result (λ found. IfSome found (All (λ l. variable l ≤ self.now.max_var))) }
        ensures defined { IfOk result (λ found. IfSome found (All (λ l. IsDefined self.now (variable l)))) }
    {
        self.circuit.facts();
        let found = self.plain(alloc, name)?;
        if let Some(literals) = found {
            return Ok(Some(literals));
        }
        let Some(rest) = after_not(name) else {
            return Ok(None);
        };
        let bits = self.plain(alloc, rest)?;
        match bits {
            Some(literals) => Ok(Some(negated(alloc, literals.as_slice())?)),
            None => Ok(None),
        }
    }
}

/// The literals that a name means, from bit 0 up; none where it means none. The signals are those of the circuit.
/// Linear in the circuit and its names.
pub fn look_up(
    alloc: Global,
    circuit: &Circuit,
    signals: &[Signal],
    name: &[u8],
) -> Result<Option<List<Lit>>, Memory>
    requires { signals.now ≡ signals_spec.signals_of circuit.now }
    ensures means { IfOk result (λ found. IfSome found (Means circuit.now name.now)) }
    ensures unknown { IfOk result (λ found. IfNone found (Unknown circuit.now name.now)) }
    ensures range { IfOk result (λ found. IfSome found (All (λ l. variable l ≤ circuit.now.max_var))) }
    ensures defined { IfOk result (λ found. IfSome found (All (λ l. IsDefined circuit.now (variable l)))) }
{
    let names = SignalNames::of(alloc, circuit, signals);
    names.look_up(alloc, name)
}
