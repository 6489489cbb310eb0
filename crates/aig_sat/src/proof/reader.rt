//! The steps of a proof, as text and in the binary form.
ghost use Rattle.std.specs.Prelude.{◌≡◌, ◌+◌, ◌^◌, ◌<◌, ◌≤◌, ℕ, [], Err, IfOk, OnOk, Some, None, false};
ghost use Rattle.aig_bytes.specs.Bytes.{failed};
ghost use Rattle.aig_sat.specs.proof.Reads.{reads_failed};
ghost use Rattle.aig_sat.specs.proof.Steps.{AreLiterals, AreRenamed, BeginsSo, NoStep, Reads, bytes_to_come};
ghost use Rattle.aig_sat.specs.proof.state.Taking.{GoesOn, HasStep, Keeps, ReadsMore, Refuses};

use crate::proof::bytes::ProofBytes;
use crate::proof::either::{look, next_kind, read_clause};
use crate::proof::fault::ReadFault;
use crate::proof::hinted::Number;
use crate::proof::names::Names;
use crate::proof::spelling::Spelling;
use crate::proof::step::StepKind;
use aig_bytes::{Failed, Memory, Read};
use aig_parts::Lit;
use std::alloc::Global;
use std::marker::Model;

/// Takes a clause as it was read, with the variables that the names in it have.
pub(crate) fn rename(
    names: &mut Names,
    spelled: &[Lit],
    clause: &mut Vec<Lit>,
) -> Result<(), Memory>
    ensures formula { names.new.formula ≡ names.old.formula }
    ensures never_fewer { names.old.own ≤ names.new.own }
    ensures literals { AreLiterals (names.new.formula + names.new.own) clause.new.items }
    ensures renamed { OnOk result (AreRenamed names.old.formula spelled.now clause.new.items) }
{
    clause.clear();
    for literal in spelled {
        clause.push(names.literal(*literal)?)?;
    }
    Ok(())
}

/// Reads the steps of a proof one by one. It keeps the clause of the last one, and a block of bytes that were read.
pub struct ProofReader {
    pub(crate) bytes: ProofBytes,
    // `None` until the first step is asked for.
    spelling: Option<Spelling>,
    pub(crate) names: Names,
    // The last clause as it was spelled.
    pub(crate) spelled: Vec<Lit>,
    pub(crate) clause: Vec<Lit>,
    // Of a step with hints: its number, and its hints or the numbers of the clauses that it deletes.
    pub(crate) number: Number,
    pub(crate) hints: Vec<Lit>,
}

// By hand: a value then ends in one call, which is one step of a proof (docs/PROOFS.md, Habits).
impl Drop for ProofReader {
    fn drop(self) {
        let ProofReader {
            bytes: _,
            spelling: _,
            names: _,
            spelled: _,
            clause: _,
            number: _,
            hints: _,
        } = self;
    }
}

impl Model for ProofReader {
    ghost use Rattle.std.specs.Prelude.{◌+◌};
    ghost use Rattle.aig_sat.specs.proof.Steps.{StepReader, AreLiterals};

    ghost Value = { StepReader };

    ghost view = { λ r. record {
      formula = r.names.formula;
      variables = r.names.formula + r.names.own;
      clause = r.clause.items;
      number = r.number.value;
      hints = r.hints.items;
      spelling = r.spelling;
      block = r.bytes;
    } };

    ghost invariant = { λ r. AreLiterals (r.names.formula + r.names.own) r.clause.items };
}

impl ProofReader {
    /// For a proof about a formula with so many variables. Nothing is read yet.
    pub fn new(alloc: Global, variables: u32) -> ProofReader
        requires { variables < 2 ^ 31 }
        ensures { result ≡ record {
          formula = variables;
          variables = variables;
          clause = [];
          number = 0;
          hints = [];
          spelling = None;
          block = record { waiting = []; ended = false; previous = 10 };
        } }
    {
        ProofReader {
            bytes: ProofBytes::new(),
            spelling: None,
            names: Names::new(alloc, variables),
            spelled: Vec::new(alloc),
            clause: Vec::new(alloc),
            number: Number { value: 0, at: 0 },
            hints: Vec::new(alloc),
        }
    }

    /// The clause of the last step that was read.
    pub fn clause(&self) -> &[Lit]
        ensures clause { result.now ≡ self.now.clause }
        ensures literals { AreLiterals self.now.variables self.now.clause }
    {
        let _variables = self.names.variables();
        &self.clause
    }

    /// The number of the last step that was read, where steps have hints.
    pub fn number(&self) -> u32
        ensures { result ≡ self.now.number }
    {
        self.number.value
    }

    /// The hints of the last step that was read, or the numbers of the clauses that it deletes.
    pub fn hints(&self) -> &[Lit]
        ensures { result.now ≡ self.now.hints }
    {
        &self.hints
    }

    /// How many variables there are: those of the formula, and those of the proof's own that were named so far. The
    /// formula's come first, and the others follow in the order in which they were first named.
    pub fn variables(&self) -> u32
        ensures variables { result ≡ self.now.variables }
        ensures bounded { result < 2 ^ 31 }
    {
        self.names.variables()
    }

    /// How the proof is spelled. The first call looks at the first bytes.
    fn spell<R: Read>(&mut self, reader: &mut R) -> Result<Spelling, Failed>
        ensures count { R.failures reader.new ≡ R.failures reader.old + failed result }
        ensures keeps { Keeps self.old.block self.new.block (R.left reader.old) (R.left reader.new) }
        ensures spelling { IfOk result (λ spelling. self.new.spelling ≡ Some spelling) }
        ensures letter { IfOk result (λ spelling. self.old.spelling ≡ None →
            BeginsSo spelling (bytes_to_come self.old.block (R.left reader.old))) }
        ensures stays { (s : Spelling) → self.old.spelling ≡ Some s → self.new.spelling ≡ Some s }
        ensures more { ReadsMore self.old self.new }
        ensures variables { self.new.variables ≡ self.old.variables }
    {
        if let Some(spelling) = self.spelling {
            return Ok(spelling);
        }
        let spelling = look(&mut self.bytes, reader)?;
        self.spelling = Some(spelling);
        Ok(spelling)
    }

    /// Reads a step that is spelled so.
    fn step<R: Read>(
        &mut self,
        reader: &mut R,
        spelling: Spelling,
        is_first: bool,
    ) -> Result<Option<StepKind>, ReadFault>
        ensures more { ReadsMore self.old self.new }
        ensures spelling { self.new.spelling ≡ self.old.spelling }
        ensures step { IfOk result (λ kind. GoesOn spelling is_first self.old.formula self.old.block self.new.block
            (R.left reader.old) (R.left reader.new) self.new.clause kind) }
        ensures refused { Refuses R.failures reader.old reader.new result
            (HasStep spelling is_first self.old.block (R.left reader.old) → ⊥) }
    {
        let Some(kind) = next_kind(spelling, &mut self.bytes, reader)? else {
            return Ok(None);
        };
        read_clause(
            spelling,
            &mut self.bytes,
            reader,
            is_first,
            &mut self.spelled,
        )?;
        rename(&mut self.names, &self.spelled, &mut self.clause)?;
        Ok(Some(kind))
    }

    /// Reads the next step, and returns what it does with its clause; `None` at the end. The first call tells a text
    /// from the binary form by the first bytes. It rejects bytes that spell no step, and a first step of a text that
    /// does not end its line. A number over the formula's last names a variable of the proof's own, which is made where
    /// it is first read. Memory is taken only for literals that were read, whatever their numbers are.
    pub fn next<R: Read>(&mut self, reader: &mut R) -> Result<Option<StepKind>, ReadFault>
        ensures formula { self.new.formula ≡ self.old.formula }
        ensures variables { self.old.variables ≤ self.new.variables }
        ensures literals { AreLiterals self.new.variables self.new.clause }
        ensures count { R.failures reader.new ≡ R.failures reader.old + reads_failed result }
        ensures spelling { (s : Spelling) → self.old.spelling ≡ Some s → self.new.spelling ≡ Some s }
        ensures letter { (s : Spelling) → OnOk result (self.old.spelling ≡ None → self.new.spelling ≡ Some s →
            BeginsSo s (bytes_to_come self.old.block (R.left reader.old))) }
        ensures step { IfOk result (λ kind. Reads self.old self.new (R.left reader.old) (R.left reader.new) kind) }
        ensures refused { (at : ℕ) → result ≡ Err (ReadFault.Text at) →
            NoStep self.old (R.left reader.old) self.new.spelling }
    {
        let is_first = self.spelling.is_none();
        let spelling = self.spell(reader)?;
        self.step(reader, spelling, is_first)
    }
}
