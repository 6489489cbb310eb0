//! The four programs of docs/CALLING.md, one after the other. Each module is a program of its own if its `run` is
//! called `main`.

mod check_witness;
mod count;
mod toggle;
mod unroll_text;

use std::io;

pub(crate) fn run(rt: HostRuntime) -> io::Result<()> {
    count::run(rt)?;
    toggle::run(rt)?;
    unroll_text::run(rt)?;
    check_witness::run(rt)
}
