//! What a line names of a section as JSON.
ghost use Rattle.std.specs.Prelude.{◌≡◌, ◌++◌, ◌<◌, length, flat_map, OnOk, Some, slice_get};
ghost use Rattle.std.specs.List.Sorted.{IsSorted};
ghost use Rattle.std.specs.Ordering.{nat_cmp};
ghost use Rattle.aig_signals.specs.declared.signal.Signal.{Signal};
ghost use Rattle.aig_signals.specs.Json.{comma_before, section_objects, signal_object};
ghost use Rattle.aig_signals.specs.state.Naming.{AreNamed, AreNeighbours};

use crate::json::push_signal;
use crate::naming::{SectionNaming, bits_of, is_repeated, signal_at};
use crate::signal::Signal;
use aig_base::{Memory, Tern};

/// Adds the objects of the signals with these numbers, each once and after a comma.
fn push_objects_of(
    text: &mut Vec<u8>,
    signals: &[Signal],
    values: &[Option<Tern>],
    named: &[usize],
) -> Result<(), Memory>
    requires neighbours { AreNeighbours 0 signals.now (length values.now) }
    requires named { AreNamed signals.now values.now named.now }
    requires sorted { IsSorted nat_cmp named.now }
    ensures { OnOk result (text.new.items ≡ text.old.items
        ++ flat_map comma_before (section_objects (record { signals = signals.now; values = values.now }))) }
{
    for place in 0..named.len() {
        if is_repeated(named, place) {
            continue;
        }
        text.push(b',')?;
        let signal = signal_at(signals, named[place]);
        push_signal(text, signal, bits_of(values, signal))?;
    }
    Ok(())
}

impl SectionNaming {
    /// Adds the object of a signal.
    pub(crate) fn push_object(&self, text: &mut Vec<u8>, number: usize) -> Result<(), Memory>
        requires { number < length self.now.signals }
        ensures { (signal : Signal) × (slice_get self.now.signals number ≡ Some signal)
            × OnOk result (text.new.items ≡ text.old.items ++ signal_object self.now.values signal) }
    {
        let signal = signal_at(&self.signals, number);
        push_signal(text, signal, bits_of(&self.values, signal))
    }

    /// Adds the objects of all signals of which a bit is named, each after a comma. Linear in their bits and names, but
    /// for the order of what was named.
    pub(crate) fn push_objects(&mut self, text: &mut Vec<u8>) -> Result<(), Memory>
        ensures text { OnOk result
            (text.new.items ≡ text.old.items ++ flat_map comma_before (section_objects self.old)) }
        ensures kept { self.new ≡ self.old }
    {
        self.named.sort_unstable();
        push_objects_of(text, &self.signals, &self.values, &self.named)
    }
}
