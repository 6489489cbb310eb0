//! The properties that a circuit keeps.
ghost use Rattle.std.specs.Prelude.{◌≡◌, ◌≢◌, ◌≤◌, ◌<◌, ◌∷◌, ◌++◌, length, map, replicate, slice_index, All, AllPairs};
ghost use Rattle.std.specs.Prelude.{IfOk, IfErr, OnOk, OnErr};
ghost use Rattle.std.specs.List.{flat_map, range_with_len};
ghost use Rattle.std.specs.Map.{keys_of};
ghost use Rattle.aig_parts.specs.Formed.{limit};
ghost use Rattle.aig_base.specs.Circuit.{IsCircuit};
ghost use Rattle.aig_base.specs.Selected as spec;
ghost use Rattle.aig_base.specs.Selected.{AreProperties, CanSelect, RefusesSelection, kept_entries, kept_symbols};
ghost use Rattle.aig_base.specs.Selected.{moved, properties_in};
ghost use Rattle.aig_base.specs.Selected.{bad_in, outputs_in, selected, selected_at, selected_positions};
ghost use Rattle.aig_base.specs.Selected.{with_properties};
ghost use Rattle.aig_base.specs.state.PropertyPlaces.{ArePlaces};

use crate::circuit::Circuit;
use aig_bytes::Memory;
use aig_parts::{Kind, LIMIT, List, Lit, SymbolList, Symbols};
use std::alloc::{AllocError, Global};
use thiserror::Error;

/// A section of properties that can be selected.
#[derive(Clone, Copy, PartialEq, Eq)]
pub enum PropertySection {
    /// Bad state properties (AIGER 1.9).
    Bad,
    /// Outputs, which are the properties of AIGER 1.0.
    Outputs,
}

/// Why no properties are selected. The faults are in the order in which they are tried.
#[derive(Clone, Copy, PartialEq, Eq, Debug, Error)]
pub enum SelectFault {
    /// More properties than a section may have.
    #[error("limit")]
    Limit,
    /// The section does not have a property at a position that is named.
    #[error("property")]
    Property,
    /// No memory was found.
    #[error("memory")]
    Memory,
}

impl From<Memory> for SelectFault {
    ghost use Rattle.std.specs.Prelude.{◌≡◌};
    ghost use Rattle.aig_base.specs.declared.select.SelectFault.TheVariants as faults;

    ghost from_gives = { λ _ fault. fault ≡ faults.Memory };

    fn from(_error: Memory) -> SelectFault {
        SelectFault::Memory
    }
}

/// The section, as symbols name it.
fn kind_of(section: PropertySection) -> Kind
    ensures { result ≡ spec.kind_of section }
{
    match section {
        PropertySection::Bad => Kind::Bad,
        PropertySection::Outputs => Kind::Output,
    }
}

/// The literals of a section.
fn properties_in(circuit: &Circuit, section: PropertySection) -> &[Lit]
    ensures literals { result.now ≡ spec.properties_in section circuit.now }
    ensures few { length result.now ≤ limit }
{
    // Its contract says how many there are at most.
    let _max_var = circuit.max_var();
    match section {
        PropertySection::Bad => circuit.bad(),
        PropertySection::Outputs => circuit.outputs(),
    }
}

/// The positions of each number in a list, in a chain that rises. The length of the list ends a chain.
#[derive(Drop)]
struct PositionChains<'a> {
    numbers: &'a [u32],
    first: Vec<u32>,
    next: Vec<u32>,
}

// Links each position with the next one that has the same number.
fn link(numbers: &[u32], first: &mut [u32], next: &mut [u32])
    requires numbers { All (λ p. p < length first.old) numbers.now }
    requires few { length numbers.now ≤ limit }
    requires first { first.old ≡ replicate (length first.old) (length numbers.now) }
    requires next { length next.old ≡ length numbers.now }
    ensures { ArePlaces numbers.now first.new next.new }
{
    let mut place = numbers.len();
    while place > 0 {
        place -= 1;
        let number = numbers[place] as usize;
        next[place] = first[number];
        first[number] = place as u32;
    }
}

impl<'a> PositionChains<'a> {
    /// The positions of the numbers below `count` in a list of such numbers.
    fn of(alloc: Global, count: usize, numbers: &'a [u32]) -> Result<PositionChains<'a>, Memory>
        requires numbers { All (λ p. p < count) numbers.now }
        requires few { length numbers.now ≤ limit }
        ensures numbers { IfOk result (λ places. places.numbers.now ≡ numbers.now) }
        ensures places { IfOk result (λ places. ArePlaces numbers.now places.first.items places.next.items) }
        ensures count { IfOk result (λ places. length places.first.items ≡ count) }
    {
        let end = numbers.len() as u32;
        let mut first = vec![in alloc; end; count]?;
        let mut next = vec![in alloc; end; numbers.len()]?;
        link(numbers, &mut first, &mut next);
        Ok(PositionChains {
            numbers,
            first,
            next,
        })
    }

    /// Adds a name for the entry of each position that has the number, or fails and may have added some.
    fn push_each(
        &self,
        list: &mut SymbolList,
        into: PropertySection,
        number: u32,
        name: &[u8],
    ) -> Result<(), AllocError>
        requires places { ArePlaces self.now.numbers.now self.now.first.items self.now.next.items }
        requires number { number < length self.now.first.items }
        requires fresh { AllPairs (λ x y. x ≢ y) (keys_of list.old ++ moved into self.now.numbers.now number) }
        ensures { OnOk result
            (list.new ≡ list.old ++ map (λ entry. (entry, name.now)) (moved into self.now.numbers.now number)) }
    {
        let mut place = self.first[number as usize];
        while (place as usize) < self.next.len() {
            list.push(kind_of(into), place, name)?;
            place = self.next[place as usize];
        }
        Ok(())
    }
}

/// Properties of one section that are kept in another, at the positions in the list that have their numbers.
#[derive(Drop)]
struct KeptProperties<'a> {
    from: PropertySection,
    into: PropertySection,
    places: PositionChains<'a>,
}

impl KeptProperties<'_> {
    /// Adds what is left of a symbol, or fails and may have added some.
    fn push_symbol(
        &self,
        list: &mut SymbolList,
        entry: (Kind, u32),
        name: &[u8],
    ) -> Result<(), AllocError>
        requires places { ArePlaces self.now.places.numbers.now self.now.places.first.items self.now.places.next.items }
        requires number { entry.0 ≡ spec.kind_of self.now.from → entry.1 < length self.now.places.first.items }
        requires fresh { AllPairs (λ x y. x ≢ y) (keys_of list.old
            ++ kept_entries self.now.from self.now.into self.now.places.numbers.now entry.0 entry.1) }
        ensures { OnOk result (list.new ≡ list.old
            ++ kept_symbols self.now.from self.now.into self.now.places.numbers.now (entry, name.now)) }
    {
        match entry.0 {
            Kind::Input | Kind::Latch | Kind::Constraint => list.push(entry.0, entry.1, name),
            Kind::Bad => match self.from {
                PropertySection::Bad => self.places.push_each(list, self.into, entry.1, name),
                PropertySection::Outputs => Ok(()),
            },
            Kind::Output => match self.from {
                PropertySection::Bad => Ok(()),
                PropertySection::Outputs => self.places.push_each(list, self.into, entry.1, name),
            },
            Kind::Justice | Kind::Fairness => Ok(()),
        }
    }
}

/// The symbols of the circuit that keeps the properties at these positions.
fn selected_symbols(
    alloc: Global,
    circuit: &Circuit,
    from: PropertySection,
    into: PropertySection,
    positions: &[u32],
) -> Result<Symbols, Memory>
    requires { CanSelect circuit.now from positions.now }
    ensures { IfOk result (λ symbols. symbols ≡ flat_map (kept_symbols from into positions.now) circuit.now.symbols) }
{
    // Its contract says that each symbol names an entry that is there, and no two the same one.
    let _max_var = circuit.max_var();
    let count = properties_in(circuit, from).len();
    let places = PositionChains::of(alloc, count, positions)?;
    let kept = KeptProperties { from, into, places };
    let mut list = SymbolList::new(alloc);
    for (entry, name) in circuit.symbols().iter() {
        kept.push_symbol(&mut list, *entry, name)?;
    }
    Ok(list.into_symbols()?)
}

/// The literals at these positions.
fn literals_at(alloc: Global, literals: &[Lit], positions: &[u32]) -> Result<List<Lit>, Memory>
    requires { All (λ p. p < length literals.now) positions.now }
    ensures { IfOk result (λ chosen. chosen ≡ map (slice_index literals.now) positions.now) }
{
    let mut chosen = List::with_capacity(alloc, positions.len())?;
    for position in positions {
        chosen.push(literals[*position as usize])?;
    }
    Ok(chosen)
}

/// What a circuit keeps of its properties, and its symbols.
#[derive(Drop)]
struct NewProperties {
    outputs: List<Lit>,
    bad: List<Lit>,
    symbols: Symbols,
}

/// These literals as all properties: the outputs and the bad state properties of the circuit.
fn all_in(alloc: Global, into: PropertySection, literals: List<Lit>) -> (List<Lit>, List<Lit>)
    ensures outputs { result.0 ≡ outputs_in into literals }
    ensures bad { result.1 ≡ bad_in into literals }
{
    match into {
        PropertySection::Bad => (List::new(alloc), literals),
        PropertySection::Outputs => (literals, List::new(alloc)),
    }
}

/// What the circuit keeps where these positions are selected.
fn selected_at(
    alloc: Global,
    circuit: &Circuit,
    from: PropertySection,
    into: PropertySection,
    positions: &[u32],
) -> Result<NewProperties, Memory>
    requires { CanSelect circuit.now from positions.now }
    ensures { IfOk result (λ new. with_properties circuit.now new.outputs new.bad new.symbols
        ≡ spec.selected_at circuit.now from into positions.now) }
{
    let literals = literals_at(alloc, properties_in(circuit, from), positions)?;
    let (outputs, bad) = all_in(alloc, into, literals);
    Ok(NewProperties {
        outputs,
        bad,
        symbols: selected_symbols(alloc, circuit, from, into, positions)?,
    })
}

/// So many positions, from 0 on.
fn all_positions(alloc: Global, count: usize) -> Result<Vec<u32>, Memory>
    requires { count ≤ limit }
    ensures { IfOk result (λ positions. positions.items ≡ range_with_len 0 count) }
{
    let mut positions = Vec::with_capacity(alloc, count)?;
    for position in 0..count as u32 {
        positions.push(position)?;
    }
    Ok(positions)
}

/// What the circuit keeps where the properties at these positions are named.
fn selected(
    alloc: Global,
    circuit: &Circuit,
    from: PropertySection,
    into: PropertySection,
    named: &[u32],
) -> Result<NewProperties, Memory>
    requires { CanSelect circuit.now from named.now }
    ensures { IfOk result (λ new. with_properties circuit.now new.outputs new.bad new.symbols
        ≡ spec.selected circuit.now from into named.now) }
{
    if !named.is_empty() {
        return selected_at(alloc, circuit, from, into, named);
    }
    let all = all_positions(alloc, properties_in(circuit, from).len())?;
    selected_at(alloc, circuit, from, into, &all)
}

/// Whether these properties can be selected.
fn test_selection(
    circuit: &Circuit,
    from: PropertySection,
    named: &[u32],
) -> Result<(), SelectFault>
    ensures possible { OnOk result (CanSelect circuit.now from named.now) }
    ensures fault { IfErr result (RefusesSelection circuit.now from named.now) }
{
    if named.len() > LIMIT {
        return Err(SelectFault::Limit);
    }
    let count = properties_in(circuit, from).len();
    if !named.iter().all(|position| (*position as usize) < count) {
        return Err(SelectFault::Property);
    }
    Ok(())
}

impl Circuit {
    // Puts properties in place of all that there are.
    fn put_properties(&mut self, alloc: Global, new: NewProperties)
        requires { IsCircuit (with_properties self.old new.outputs new.bad new.symbols) }
        ensures { self.new ≡ with_properties self.old new.outputs new.bad new.symbols }
    {
        self.raw.outputs = new.outputs;
        self.raw.bad = new.bad;
        self.raw.justice = List::new(alloc);
        self.raw.fairness = List::new(alloc);
        self.raw.symbols = new.symbols;
    }

    /// Keeps of the properties those of a section that are named by their positions, counted from 0, and drops all
    /// others: justice and fairness too (our own choice). Where none is named, all of the section are kept. They are in
    /// the order in which they are named, in the section `into`; a property that is named twice is there twice. A kept
    /// property keeps its name at each of its new positions. Inputs, latches, constraints, gates and the comment stay,
    /// and symbols stay in their order. The circuit stays as it is where this fails. Linear in the properties, the
    /// names and the positions.
    pub fn select(
        &mut self,
        alloc: Global,
        from: PropertySection,
        into: PropertySection,
        named: &[u32],
    ) -> Result<(), SelectFault>
        ensures possible { OnOk result (CanSelect self.old from named.now) }
        ensures selected { OnOk result (self.new ≡ selected self.old from into named.now) }
        ensures same { OnErr result (self.new ≡ self.old) }
        ensures fault { IfErr result (RefusesSelection self.old from named.now) }
    {
        // Its contract says that the parts are a circuit.
        let _max_var = self.max_var();
        test_selection(self, from, named)?;
        let new = selected(alloc, self, from, into, named)?;
        self.put_properties(alloc, new);
        Ok(())
    }
}
