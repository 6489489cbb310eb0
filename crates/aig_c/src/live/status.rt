//! The statuses of edits and questions, and values as numbers.
ghost use Rattle.std.specs.Prelude.{◌≡◌, ◌≤◌};
ghost use Rattle.aig_bench.specs.Edit.{edit_fault_number};
ghost use Rattle.aig_c.specs.Live.{number_of, value_of};

use aig_base::Tern;
use aig_bench::EditFault;

/// There is no such kind of edit.
pub(crate) const NO_KIND: u8 = 252;
/// A value over 2.
pub(crate) const NO_VALUE: u8 = 253;
/// There are fewer places for values than questions.
pub(crate) const SHORT: u8 = 254;
/// There is no bench.
pub(crate) const NOT_OPEN: u8 = 255;

/// The value that a number stands for.
pub(crate) fn value_of(number: u32) -> Option<Tern>
    ensures value { result ≡ value_of number }
{
    match number {
        0 => Some(Tern::Zero),
        1 => Some(Tern::One),
        2 => Some(Tern::X),
        _ => None,
    }
}

/// The number that stands for a value.
pub(crate) fn number_of(value: Tern) -> u8
    ensures number { result ≡ number_of value }
    ensures small { result ≤ 2 }
{
    match value {
        Tern::Zero => 0,
        Tern::One => 1,
        Tern::X => 2,
    }
}

/// The number of a fault, as `no N` names it.
pub(crate) fn status_of(fault: EditFault) -> u8
    ensures number { result ≡ edit_fault_number fault }
    ensures positive { 1 ≤ result }
    ensures small { result ≤ 13 }
{
    match fault {
        EditFault::NotAGate => 1,
        EditFault::NotALatch => 2,
        EditFault::Range => 3,
        EditFault::Undefined => 4,
        EditFault::Cycle => 5,
        EditFault::NoFrame => 6,
        EditFault::NoInput => 7,
        EditFault::Length => 8,
        EditFault::Empty => 9,
        EditFault::Limit => 10,
        EditFault::Memory => 11,
        EditFault::NoOutput => 13,
    }
}
