//! What is next in a proof that is a text or in the binary form.
ghost use Rattle.std.specs.Prelude.{◌≡◌, ◌+◌, ◌<◌, Bool, Err, IfOk, IfSome, OnOk, Some};
ghost use Rattle.aig_bytes.specs.Bytes.{failed};
ghost use Rattle.aig_parts.specs.Literal.{variable};
ghost use Rattle.aig_sat.specs.proof.Steps.{AreLiterals, BeginsSo, bytes_to_come};
ghost use Rattle.aig_sat.specs.proof.state.Taking.{Begins, Ends, HasClause, HasStep, Keeps, LeadsBy, Refuses};
ghost use Rattle.aig_sat.specs.proof.state.Taking.{TakesSome};

use crate::proof::binary::{binary_kind, binary_literal};
use crate::proof::bytes::ProofBytes;
use crate::proof::fault::ReadFault;
use crate::proof::spelling::{Spelling, spelling_of};
use crate::proof::step::StepKind;
use crate::proof::text::{text_kind, text_literal};
use aig_bytes::{Failed, Read};
use aig_parts::Lit;

/// Looks at the first bytes of a proof, and takes none.
pub(crate) fn look<R: Read>(bytes: &mut ProofBytes, reader: &mut R) -> Result<Spelling, Failed>
    ensures count { R.failures reader.new ≡ R.failures reader.old + failed result }
    ensures keeps { Keeps bytes.old bytes.new (R.left reader.old) (R.left reader.new) }
    ensures letter { IfOk result (λ spelling. BeginsSo spelling (bytes_to_come bytes.old (R.left reader.old))) }
{
    let Some(first) = bytes.peek(reader)? else {
        return Ok(Spelling::Text);
    };
    if first == b'a' {
        return Ok(Spelling::Binary);
    }
    if first != b'd' {
        return Ok(Spelling::Text);
    }
    bytes.fill(reader)?;
    Ok(spelling_of(bytes.front()))
}

/// The next literal of a clause, or `None` at its end.
fn next_literal<R: Read>(
    spelling: Spelling,
    bytes: &mut ProofBytes,
    reader: &mut R,
    is_first: bool,
) -> Result<Option<Lit>, ReadFault>
    ensures variable { IfOk result (λ next. IfSome next (λ l. variable l < 2147483647)) }
    ensures literal { IfOk result (λ next.
        LeadsBy spelling is_first bytes.old bytes.new (R.left reader.old) (R.left reader.new) next) }
    ensures goes_on { IfOk result (λ next. IfSome next (λ _.
        HasClause spelling is_first bytes.old (R.left reader.old) →
        HasClause spelling is_first bytes.new (R.left reader.new))) }
    ensures refused { TakesSome R.failures R.reads_left reader.old reader.new bytes.old bytes.new result
        (HasClause spelling is_first bytes.old (R.left reader.old) → ⊥) }
{
    match spelling {
        Spelling::Text => text_literal(bytes, reader, is_first),
        Spelling::Binary => binary_literal(bytes, reader),
    }
}

/// Reads the literals of a clause up to its end.
pub(crate) fn read_clause<R: Read>(
    spelling: Spelling,
    bytes: &mut ProofBytes,
    reader: &mut R,
    is_first: bool,
    clause: &mut Vec<Lit>,
) -> Result<(), ReadFault>
    ensures literals { AreLiterals 2147483647 clause.new.items }
    ensures spelled { OnOk result (Ends spelling is_first bytes.old bytes.new (R.left reader.old) (R.left reader.new)
        clause.new.items) }
    ensures refused { Refuses R.failures reader.old reader.new result
        (HasClause spelling is_first bytes.old (R.left reader.old) → ⊥) }
{
    clause.clear();
    while let Some(literal) = next_literal(spelling, bytes, reader, is_first)? {
        if clause.push(literal).is_err() {
            return Err(ReadFault::Memory);
        }
    }
    Ok(())
}

/// What the next step does, or `None` where there is none.
pub(crate) fn next_kind<R: Read>(
    spelling: Spelling,
    bytes: &mut ProofBytes,
    reader: &mut R,
) -> Result<Option<StepKind>, ReadFault>
    ensures kind { IfOk result (λ kind.
        Begins spelling bytes.old bytes.new (R.left reader.old) (R.left reader.new) kind) }
    ensures goes_on { IfOk result (λ kind. IfSome kind (λ _. (is_first : Bool) →
        HasStep spelling is_first bytes.old (R.left reader.old) →
        HasClause spelling is_first bytes.new (R.left reader.new))) }
    ensures refused { Refuses R.failures reader.old reader.new result
        ((is_first : Bool) →
        HasStep spelling is_first bytes.old (R.left reader.old) → ⊥) }
{
    match spelling {
        Spelling::Text => text_kind(bytes, reader),
        Spelling::Binary => binary_kind(bytes, reader),
    }
}
