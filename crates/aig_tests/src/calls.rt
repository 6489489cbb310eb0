//! Calls that no command makes: readers and writers that fail, generic calls at other types, and arguments that no file
//! brings about.

mod bytes;
mod failures;
mod fakes;
mod formulas;
mod messages;
mod parts;
mod refutations;
mod rewires;

use std::io;

/// Prints a line for each call that is tested.
pub(crate) fn run(rt: HostRuntime) -> io::Result<()> {
    let alloc = rt.alloc();
    tell(rt, "room in a block", bytes::has_room())?;
    tell(rt, "prefixes", bytes::writes_a_prefix(alloc))?;
    tell(rt, "writers of std", bytes::writes_to_std(alloc))?;
    tell(rt, "a flush", bytes::flushes_through(alloc))?;
    tell(rt, "held bytes", bytes::leaves_no_byte(alloc))?;
    tell(rt, "a broken buffer", bytes::stays_broken(alloc))?;
    tell(rt, "a plain writer", bytes::holds_nothing(alloc))?;
    tell(rt, "failing reads", failures::reads_fail(alloc))?;
    tell(rt, "single bytes", failures::reads_single_bytes(alloc))?;
    tell(rt, "failing runs", failures::runs_fail(alloc))?;
    tell(rt, "a script", failures::answers_a_script(alloc))?;
    tell(rt, "formulas", formulas::are_of_goals(alloc))?;
    tell(rt, "heads of formulas", formulas::have_heads(alloc))?;
    tell(rt, "messages", messages::are_said(alloc))?;
    tell(rt, "statuses", messages::have_statuses())?;
    tell(rt, "cycles", rewires::close_cycles(alloc))?;
    tell(rt, "rewires", rewires::go_in_turn(alloc))?;
    tell(rt, "other variables", refutations::know_no_other(alloc))
}

fn tell(rt: HostRuntime, what: &str, is_right: bool) -> io::Result<()> {
    println!(rt; "{what}: {}", if is_right { "right" } else { "WRONG" })
}
