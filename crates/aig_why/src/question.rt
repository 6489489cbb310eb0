//! What is asked for.
ghost use Rattle.std.specs.Prelude.{◌≡◌, ◌<◌, ◌≤◌, All, length, IfNone, IfOk, IfSome, None, Some};
ghost use Rattle.aig_parts.specs.Literal.{variable};
ghost use Rattle.aig_base.specs.Sections.{IsDefined};
ghost use Rattle.aig_signals.specs.Lookup.{Means, Unknown};
ghost use Rattle.aig_why.specs.Why.{IsQuestion};

use aig_base::{Bytes, Circuit, Kind, List, Lit, Memory};
use aig_signals::{look_up, push_first_name, signals_of};
use std::alloc::Global;

/// Literals that are asked for, from bit 0 up, and what they are called.
pub struct Question {
    pub name: Bytes,
    pub literals: List<Lit>,
}

// By hand: a value then ends in one call, which is one step of a proof (docs/PROOFS.md, Habits).
impl Drop for Question {
    fn drop(self) {
        let Question {
            name: _,
            literals: _,
        } = self;
    }
}

impl Question {
    /// The literals that a name means; none where it means none.
    pub fn of_name(
        alloc: Global,
        circuit: &Circuit,
        name: &[u8],
    ) -> Result<Option<Question>, Memory>
        ensures name { IfOk result (λ found. IfSome found (λ q. q.name ≡ name.now)) }
        ensures means { IfOk result (λ found. IfSome found (λ q. Means circuit.now name.now q.literals)) }
        ensures unknown { IfOk result (λ found. IfNone found (Unknown circuit.now name.now)) }
        ensures range { IfOk result (λ found. IfSome found
            (λ q. All (λ l. variable l ≤ circuit.now.max_var) q.literals)) }
        ensures defined { IfOk result (λ found. IfSome found
            (λ q. All (λ l. IsDefined circuit.now (variable l)) q.literals)) }
    {
        let signals = signals_of(alloc, circuit)?;
        let found = look_up(alloc, circuit, signals.as_slice(), name)?;
        let Some(literals) = found else {
            return Ok(None);
        };
        let name = List::from_vec(Vec::from_slice(alloc, name)?);
        Ok(Some(Question { name, literals }))
    }

    /// A bad state property, by its first name.
    pub fn of_property(alloc: Global, circuit: &Circuit, property: u32) -> Result<Question, Memory>
        requires { property < length circuit.now.bad }
        ensures question { IfOk result (λ q. IsQuestion circuit.now None (Some property) q.name q.literals) }
        ensures range { IfOk result (λ q. All (λ l. variable l ≤ circuit.now.max_var) q.literals) }
        ensures defined { IfOk result (λ q. All (λ l. IsDefined circuit.now (variable l)) q.literals) }
    {
        circuit.facts();
        let mut name = Vec::new(alloc);
        push_first_name(&mut name, circuit, Kind::Bad, property)?;
        let mut literals = List::new(alloc);
        literals.push(circuit.bad()[property as usize])?;
        Ok(Question {
            name: List::from_vec(name),
            literals,
        })
    }
}
