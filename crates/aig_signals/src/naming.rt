//! What a line names of a section, and the words for it.
ghost use Rattle.std.specs.Prelude.{◌≡◌, ℕ, ◌++◌, ◌<◌, ◌≤◌, length, None, OnOk, IfOk, Some, slice_get, slice_index_or};
ghost use Rattle.std.specs.Prelude.{slice_set, replicate};
ghost use Rattle.std.specs.List.Sorted.{IsSorted};
ghost use Rattle.std.specs.Ordering.{nat_cmp};
ghost use Rattle.aig_signals.specs.Names.{literals_of};
ghost use Rattle.aig_signals.specs.Signals as signals_spec;
ghost use Rattle.aig_signals.specs.Naming.{section_words, signal_bits, signal_word, unnamed};
ghost use Rattle.aig_signals.specs.state.Naming.{AreNamed, AreNeighbours, IsEntryOf, is_repeated};

mod objects;

use crate::section::count_of;
use crate::signal::{Signal, section_signals};
use crate::value::push_value;
use aig_base::{Circuit, Kind, Memory, Tern};
use std::alloc::Global;
use std::marker::Model;

/// Entries of a section that a line names, with their values.
pub struct SectionNaming {
    signals: Vec<Signal>,
    values: Vec<Option<Tern>>,
    /// The numbers of the signals of which a bit is named, in no order.
    named: Vec<usize>,
}

// By hand: a value then ends in one call, which is one step of a proof (docs/PROOFS.md, Habits).
impl Drop for SectionNaming {
    fn drop(self) {
        let SectionNaming {
            signals: _,
            values: _,
            named: _,
        } = self;
    }
}

impl Model for SectionNaming {
    ghost use Rattle.aig_signals.specs.Naming.{SectionNamed};
    ghost use Rattle.aig_signals.specs.state.Naming.{IsNaming};

    ghost Value = { SectionNamed };

    ghost view = { λ n. record { signals = n.signals.items; values = n.values.items } };

    ghost invariant = { λ n. IsNaming n.signals.items n.values.items n.named.items };
}

/// The number of the signal that the entry at a position is of.
fn number_of(signals: &[Signal], position: u32) -> usize
    requires { (count : ℕ) × AreNeighbours 0 signals.now count × (position < count) }
    ensures { IsEntryOf signals.now result position }
{
    signals.partition_point(|signal| signal.end <= position)
}

/// The values of a signal's bits.
fn bits_of<'a>(values: &'a [Option<Tern>], signal: &Signal) -> &'a [Option<Tern>]
    requires order { signal.now.first ≤ signal.now.end }
    requires end { signal.now.end ≤ length values.now }
    ensures { result.now ≡ signal_bits values.now signal.now }
{
    &values[signal.first as usize..signal.end as usize]
}

/// Adds `NAME=VALUE` of a signal.
fn push_signal_word(
    text: &mut Vec<u8>,
    values: &[Option<Tern>],
    signal: &Signal,
) -> Result<(), Memory>
    requires order { signal.now.first ≤ signal.now.end }
    requires end { signal.now.end ≤ length values.now }
    ensures { OnOk result (text.new.items ≡ text.old.items ++ signal_word values.now signal.now) }
{
    text.extend_from_slice(signal.name.as_slice())?;
    text.push(b'=')?;
    push_value(text, bits_of(values, signal))
}

/// The signal with a number.
fn signal_at(signals: &[Signal], number: usize) -> &Signal
    requires { number < length signals.now }
    ensures { slice_get signals.now number ≡ Some result.now }
{
    &signals[number]
}

/// Whether a number is the same as the one before it.
fn is_repeated(named: &[usize], place: usize) -> bool
    requires { place < length named.now }
    ensures { result ≡ is_repeated named.now place }
{
    place > 0 && named[place - 1] == named[place]
}

/// Adds the words of the signals with these numbers, each once and after a blank.
fn push_words_of(
    text: &mut Vec<u8>,
    signals: &[Signal],
    values: &[Option<Tern>],
    named: &[usize],
) -> Result<(), Memory>
    requires neighbours { AreNeighbours 0 signals.now (length values.now) }
    requires named { AreNamed signals.now values.now named.now }
    requires sorted { IsSorted nat_cmp named.now }
    ensures { OnOk result (text.new.items
        ≡ text.old.items ++ section_words (record { signals = signals.now; values = values.now })) }
{
    for place in 0..named.len() {
        if is_repeated(named, place) {
            continue;
        }
        text.push(b' ')?;
        push_signal_word(text, values, signal_at(signals, named[place]))?;
    }
    Ok(())
}

/// Takes the values of a signal's bits away.
fn forget(values: &mut [Option<Tern>], signal: &Signal)
    requires { signal.now.end ≤ length values.old }
    ensures size { length values.new ≡ length values.old }
    ensures gone { (p : ℕ) → signal.now.first ≤ p → p < signal.now.end → slice_index_or values.new p None ≡ None }
    ensures kept { (p : ℕ) → slice_index_or values.old p None ≡ None → slice_index_or values.new p None ≡ None }
{
    for position in signal.first..signal.end {
        values[position as usize] = None;
    }
}

impl SectionNaming {
    /// For the entries of a section, of which none is named so far. Linear in the section and its names.
    pub fn new(alloc: Global, circuit: &Circuit, kind: Kind) -> Result<SectionNaming, Memory>
        ensures signals { IfOk result (λ n. n.signals ≡ signals_spec.section_signals circuit.now kind) }
        ensures values { IfOk result (λ n. n.values ≡ replicate (length (literals_of circuit.now kind)) None) }
    {
        let signals = section_signals(alloc, circuit, kind)?;
        let values = vec![in alloc; None; count_of(circuit, kind) as usize]?;
        Ok(SectionNaming {
            signals,
            values,
            named: Vec::new(alloc),
        })
    }

    /// The signals of the section.
    pub fn signals(&self) -> &[Signal]
        ensures { result.now ≡ self.now.signals }
    {
        &self.signals
    }

    /// Names an entry with its value.
    pub fn name(&mut self, position: u32, value: Tern) -> Result<(), Memory>
        requires { position < length self.old.values }
        ensures { OnOk result (self.new ≡ record {
          signals = self.old.signals;
          values = slice_set self.old.values position (Some value);
        }) }
    {
        self.named.push(number_of(&self.signals, position))?;
        self.values[position as usize] = Some(value);
        Ok(())
    }

    /// Adds `NAME=VALUE` of a signal.
    pub fn push_word(&self, text: &mut Vec<u8>, number: usize) -> Result<(), Memory>
        requires { number < length self.now.signals }
        ensures { (signal : Signal) × (slice_get self.now.signals number ≡ Some signal)
            × OnOk result (text.new.items ≡ text.old.items ++ signal_word self.now.values signal) }
    {
        push_signal_word(text, &self.values, signal_at(&self.signals, number))
    }

    /// Adds the words of all signals of which a bit is named, each after a blank. Linear in their bits and names, but
    /// for the order of what was named.
    pub fn push_words(&mut self, text: &mut Vec<u8>) -> Result<(), Memory>
        ensures text { OnOk result (text.new.items ≡ text.old.items ++ section_words self.old) }
        ensures kept { self.new ≡ self.old }
    {
        self.named.sort_unstable();
        push_words_of(text, &self.signals, &self.values, &self.named)
    }

    /// Names nothing from now on. Linear in the bits of what was named.
    pub fn clear(&mut self)
        ensures { self.new ≡ unnamed self.old }
    {
        while let Some(number) = self.named.pop() {
            forget(&mut self.values, signal_at(&self.signals, number));
        }
    }
}
