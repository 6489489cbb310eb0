//! The sections of the strengthened circuit.
ghost use Rattle.std.specs.Prelude.{◌≡◌, ◌+◌, ◌*◌, ◌≤◌, ◌∷◌, ◌++◌, Some, length, map, slice_get, All, IfOk, OnOk};
ghost use Rattle.std.specs.Prelude.{IfErr};
ghost use Rattle.aig_parts.specs.Formed.{limit};
ghost use Rattle.aig_parts.specs.Literal.{negation};
ghost use Rattle.aig_base.specs.Renumbered as renumbered;
ghost use Rattle.aig_base.specs.Renumbered.{relabelled_latch};
ghost use Rattle.aig_base.specs.RenumberingTable.{IsGateListed, IsInTable, IsLatchListed};
ghost use Rattle.aig_certificate.specs.Strengthened as spec;
ghost use Rattle.aig_certificate.specs.Strengthened.{IsStrengthened, chain, chain_end, own_literals, translated_gate};
ghost use Rattle.aig_certificate.specs.state.Marks.{meanings_of};
ghost use Rattle.aig_certificate.specs.state.Sources.{AreSources, IsProperty};
ghost use Rattle.aig_certificate.specs.state.Table.{RefusesParts, literal_by};

use crate::fault::StrengthenFault;
use crate::shared::SharedEntries;
use crate::symbols::{properties, strengthened_symbols};
use crate::translation::Translation;
use aig_base::{Circuit, Gate, Latch, List, Lit, Memory, Raw};
use std::alloc::Global;

// A list of these items.
fn list_of<T: Copy>(alloc: Global, items: &[T]) -> Result<List<T>, Memory>
    ensures { IfOk result (λ list. list ≡ items.now) }
{
    Ok(List::from_vec(Vec::from_slice(alloc, items)?))
}

// The literal, and then the others.
fn with_first(alloc: Global, first: Lit, others: &[Lit]) -> Result<List<Lit>, Memory>
    ensures { IfOk result (λ list. list ≡ first ∷ others.now) }
{
    let mut list = Vec::with_capacity(alloc, 1)?;
    list.push(first)?;
    list.extend_from_slice(others)?;
    Ok(List::from_vec(list))
}

// The gate with these sides, the greater right side first.
fn ready_gate(lhs: Lit, left: Lit, right: Lit) -> Gate
    ensures { result ≡ renumbered.ready_gate lhs left right }
{
    let (rhs0, rhs1) = if left.value() < right.value() {
        (right, left)
    } else {
        (left, right)
    };
    Gate { lhs, rhs0, rhs1 }
}

// Adds the gates from a variable on that AND the negations of these literals to one, in order. Returns the last
// literal.
fn push_chain(
    gates: &mut List<Gate>,
    first: u32,
    start: Lit,
    literals: &[Lit],
) -> Result<Lit, Memory>
    requires { first + length literals.now ≤ 8 * limit }
    ensures gates { OnOk result (gates.new ≡ gates.old ++ chain first start literals.now) }
    ensures end { IfOk result (λ literal. literal ≡ chain_end first start literals.now) }
{
    let mut last = start;
    let mut variable = first;
    for literal in literals {
        let gate = Lit::new(2 * variable);
        gates.push(ready_gate(gate, literal.not(), last))?;
        last = gate;
        variable += 1;
    }
    Ok(last)
}

/// What the strengthened circuit is made of.
pub(crate) struct Sources<'a> {
    pub model: &'a Circuit,
    pub certificate: &'a Circuit,
    pub shared: SharedEntries,
    pub translation: Translation,
}

// By hand: a value then ends in one call, which is one step of a proof (docs/PROOFS.md, Habits).
impl Drop for Sources<'_> {
    fn drop(self) {
        let Sources {
            model: _,
            certificate: _,
            shared: _,
            translation: _,
        } = self;
    }
}

// The entries that stand for nothing.
fn own<T: Copy>(alloc: Global, meanings: &[Option<Lit>], entries: &[T]) -> Result<List<T>, Memory>
    requires { length meanings.now ≡ length entries.now }
    ensures { IfOk result (λ list. list ≡ spec.own meanings.now entries.now) }
{
    let mut list = List::new(alloc);
    for place in 0..entries.len() {
        if meanings[place].is_none() {
            list.push(entries[place])?;
        }
    }
    Ok(list)
}

// Adds what literals are.
fn push_literals(
    to: &mut List<Lit>,
    translation: &Translation,
    literals: &[Lit],
) -> Result<(), Memory>
    requires { All (IsInTable translation.now.table) literals.now }
    ensures { OnOk result (to.new ≡ to.old ++ map (literal_by translation.now.table) literals.now) }
{
    for literal in literals {
        to.push(translation.literal(*literal))?;
    }
    Ok(())
}

// Adds the negations of what literals are.
fn push_negations(
    to: &mut List<Lit>,
    translation: &Translation,
    literals: &[Lit],
) -> Result<(), Memory>
    requires { All (IsInTable translation.now.table) literals.now }
    ensures { OnOk result (to.new
        ≡ to.old ++ map (λ l. negation (literal_by translation.now.table l)) literals.now) }
{
    for literal in literals {
        to.push(translation.literal(*literal).not())?;
    }
    Ok(())
}

// Adds what latches are.
fn push_latches(
    to: &mut List<Latch>,
    translation: &Translation,
    latches: &[Latch],
) -> Result<(), Memory>
    requires { All (IsLatchListed translation.now.table) latches.now }
    ensures { OnOk result (to.new
        ≡ to.old ++ map (relabelled_latch (literal_by translation.now.table)) latches.now) }
{
    for latch in latches {
        to.push(translation.latch(*latch))?;
    }
    Ok(())
}

// Adds what gates are.
fn push_gates(to: &mut List<Gate>, translation: &Translation, gates: &[Gate]) -> Result<(), Memory>
    requires { All (IsGateListed translation.now.table) gates.now }
    ensures { OnOk result (to.new
        ≡ to.old ++ map (translated_gate (literal_by translation.now.table)) gates.now) }
{
    for gate in gates {
        to.push(translation.gate(*gate))?;
    }
    Ok(())
}

/// The bad state property of the strengthened circuit: its parts, as outputs, its literal, and how many claims there
/// are.
#[derive(Drop)]
struct Property {
    outputs: List<Lit>,
    bad: List<Lit>,
    claims: u32,
}

impl<'a> Sources<'a> {
    // The model's inputs, and the certificate's own ones.
    fn inputs(&self, alloc: Global) -> Result<List<Lit>, Memory>
        requires { AreSources self.now }
        ensures { IfOk result (λ inputs. inputs ≡ self.now.model.now.inputs
            ++ map (literal_by self.now.translation.table)
            (spec.own self.now.shared.inputs self.now.certificate.now.inputs)) }
    {
        self.certificate.facts();
        let own = own(
            alloc,
            self.shared.inputs.as_slice(),
            self.certificate.inputs(),
        )?;
        let mut inputs = list_of(alloc, self.model.inputs())?;
        push_literals(&mut inputs, &self.translation, own.as_slice())?;
        Ok(inputs)
    }

    // The model's latches, and the certificate's own ones.
    fn latches(&self, alloc: Global) -> Result<List<Latch>, Memory>
        requires { AreSources self.now }
        ensures { IfOk result (λ latches. latches ≡ self.now.model.now.latches
            ++ map (relabelled_latch (literal_by self.now.translation.table))
            (spec.own self.now.shared.latches self.now.certificate.now.latches)) }
    {
        self.certificate.facts();
        let own = own(
            alloc,
            self.shared.latches.as_slice(),
            self.certificate.latches(),
        )?;
        let mut latches = list_of(alloc, self.model.latches())?;
        push_latches(&mut latches, &self.translation, own.as_slice())?;
        Ok(latches)
    }

    // The model's gates, and the certificate's.
    fn gates(&self, alloc: Global) -> Result<List<Gate>, Memory>
        requires { AreSources self.now }
        ensures { IfOk result (λ gates. gates ≡ self.now.model.now.gates
            ++ map (translated_gate (literal_by self.now.translation.table)) self.now.certificate.now.gates) }
    {
        self.certificate.facts();
        let mut gates = list_of(alloc, self.model.gates())?;
        push_gates(&mut gates, &self.translation, self.certificate.gates())?;
        Ok(gates)
    }

    // Literals that are 1 where a claim of the certificate is broken.
    fn claims(&self, alloc: Global) -> Result<List<Lit>, Memory>
        requires { AreSources self.now }
        ensures { IfOk result (λ claims. claims
            ≡ spec.claims self.now.certificate.now (literal_by self.now.translation.table)) }
    {
        self.certificate.facts();
        let mut claims = List::new(alloc);
        push_literals(&mut claims, &self.translation, properties(self.certificate))?;
        push_negations(
            &mut claims,
            &self.translation,
            self.certificate.constraints(),
        )?;
        Ok(claims)
    }

    // How many variables the certificate adds with its inputs, latches and gates, where these are all inputs and
    // latches.
    fn own_count(&self, inputs: &List<Lit>, latches: &List<Latch>) -> u32
        requires inputs { inputs.now ≡ self.now.model.now.inputs
            ++ map (literal_by self.now.translation.table)
            (spec.own self.now.shared.inputs self.now.certificate.now.inputs) }
        requires latches { latches.now ≡ self.now.model.now.latches
            ++ map (relabelled_latch (literal_by self.now.translation.table))
            (spec.own self.now.shared.latches self.now.certificate.now.latches) }
        ensures own { result ≡ length (own_literals (meanings_of self.now.shared) self.now.certificate.now) }
        ensures few { result ≤ 3 * limit }
    {
        self.model.facts();
        self.certificate.facts();
        let own_inputs = inputs.len() - self.model.inputs().len();
        let own_latches = latches.len() - self.model.latches().len();
        (own_inputs + own_latches + self.certificate.gates().len()) as u32
    }

    // Adds the gates of the bad state property, after this last variable: bad literal `bad` is 1, or a claim is broken.
    fn push_property(
        &self,
        alloc: Global,
        gates: &mut List<Gate>,
        bad: Lit,
        last: u32,
    ) -> Result<Property, Memory>
        requires sources { AreSources self.now }
        requires few { last ≤ 4 * limit }
        ensures property { IfOk result (IsProperty self.now bad last) }
        ensures gates { OnOk result (gates.new ≡ gates.old ++ chain (last + 1) (negation bad)
            (spec.claims self.now.certificate.now (literal_by self.now.translation.table))) }
    {
        self.certificate.facts();
        let claims = self.claims(alloc)?;
        let good = push_chain(gates, last + 1, bad.not(), claims.as_slice())?;
        let outputs = with_first(alloc, bad, claims.as_slice())?;
        Ok(Property {
            outputs,
            bad: with_first(alloc, good.not(), &[])?,
            claims: claims.len() as u32,
        })
    }

    /// The parts of the circuit that is strengthened at bad literal `bad`, which is this property.
    pub fn parts(&self, alloc: Global, property: u32, bad: Lit) -> Result<Raw, StrengthenFault>
        requires sources { AreSources self.now }
        requires bad { slice_get self.now.model.now.bad property ≡ Some bad }
        ensures parts { IfOk result (IsStrengthened self.now.model.now property self.now.certificate.now) }
        ensures refused { IfErr result (RefusesParts self.now.model.now property self.now.certificate.now) }
    {
        self.model.facts();
        let inputs = self.inputs(alloc)?;
        let latches = self.latches(alloc)?;
        let last = self.model.max_var() + self.own_count(&inputs, &latches);
        let mut gates = self.gates(alloc)?;
        let added = self.push_property(alloc, &mut gates, bad, last)?;
        let constraints = list_of(alloc, self.model.constraints())?;
        let symbols = strengthened_symbols(
            alloc,
            self.model,
            property,
            self.certificate,
            &self.shared,
        )?;
        let Property {
            outputs,
            bad,
            claims,
        } = added;
        Ok(Raw {
            max_var: last + claims,
            inputs,
            latches,
            outputs,
            bad,
            constraints,
            justice: List::new(alloc),
            fairness: List::new(alloc),
            gates,
            symbols,
            comment: None,
        })
    }
}
