//! Standard output, as the reader at its end gets it.
ghost use Rattle.std.specs.Prelude.{◌≡◌, IfOk, OnErr, None, take};
ghost use Rattle.std.specs.Io.{WritesAtMost};
ghost use Rattle.std.specs.Io.KnownBytes.{Appends, Keeps, WriteAppends};
ghost use Rattle.aig_files.specs.Shown.{AppendsSome};
ghost use Rattle.aig_files.specs.StandardOutput.{as_shown};

use crate::shown::Shown;
use std::io::{self, Write};
use std::marker::Model;

/// A writer to standard output. If that is a terminal, it gets the bytes that it may obey escaped. Else it gets each
/// byte as it is.
#[derive(Drop)]
pub struct StandardOutput<W> {
    is_terminal: bool,
    shown: Shown<W>,
}

impl<W> Model for StandardOutput<W> {
    ghost use Rattle.aig_files.specs.StandardOutput.{ToOutput};

    ghost Value = { ToOutput W };

    ghost view = { λ o. record { inner = o.shown; is_terminal = o.is_terminal } };
}

impl<W> StandardOutput<W> {
    /// Over the writer of a run's standard output, which is a terminal or not.
    pub fn new(writer: W, is_terminal: bool) -> StandardOutput<W>
        ensures inner { result.inner ≡ writer }
        ensures terminal { result.is_terminal ≡ is_terminal }
    {
        StandardOutput {
            is_terminal,
            shown: Shown::new(writer),
        }
    }
}

impl<W: Write> Write for StandardOutput<W> {
    fn write(&mut self, bytes: &[u8]) -> io::Result<usize>
        // The trait's clauses: what the writer holds is not what it takes.
        ensures bound { WritesAtMost result bytes.now }
        ensures bytes { WriteAppends None None result bytes.now }

        // The other writer gets each byte that is taken, and no other; where the write fails, the first of them.
        ensures shown { IfOk result (λ n. Appends (W.contents self.old.inner) (W.contents self.new.inner)
            (as_shown self.old.is_terminal (take n bytes.now))) }
        ensures broken { OnErr result (AppendsSome (W.contents self.old.inner) (W.contents self.new.inner)
            (as_shown self.old.is_terminal bytes.now)) }
        ensures stays { self.new.is_terminal ≡ self.old.is_terminal }
    {
        if self.is_terminal {
            self.shown.write(bytes)
        } else {
            self.shown.forward(bytes)
        }
    }

    fn flush(&mut self) -> io::Result<()>
        // The trait's clause, and the same of the other writer.
        ensures bytes { Keeps None None }
        ensures inner { Keeps (W.contents self.old.inner) (W.contents self.new.inner) }
    {
        self.shown.flush()
    }
}
