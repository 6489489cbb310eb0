//! The property that a run reaches, and the one that a word names.
ghost use Rattle.std.specs.Prelude.{◌≡◌, ◌≢◌, ◌<◌, IfErr, IfOk, IfSome, None, Some, length};
ghost use Rattle.aig_base.specs.Value.{start_of};
ghost use Rattle.aig_parts.specs.declared.symbols.Kind.TheVariants as kinds;
ghost use Rattle.aig_signals.specs.Lookup.{entry_in};
ghost use Rattle.aig_sim.specs.Reached.{IsFirstReached, ReachesNone};
ghost use Rattle.aig_shell.specs.Session.{own_circuit};

use crate::refusal::{Refusal, Wanted};
use crate::session::Session;
use aig_base::Kind;
use aig_signals::entry_named;
use aig_sim::{Reached, first_reached, first_states};

impl Session {
    /// The first frame that reaches a property, and which; of those that are asked for.
    pub(crate) fn reached<'a>(&self, asked: Option<u32>) -> Result<Reached, Refusal<'a>>
        requires property { IfSome asked (λ k. k < length self.now.run.bench.pair.circuit.bad) }
        ensures ok { IfOk result (λ found. IsFirstReached (own_circuit self.now)
            (start_of self.now.run.bench.pair.circuit)
            self.now.run.bench.pair.rows asked found.frame found.property) }
        ensures err { IfErr result (λ refusal. refusal ≢ Refusal.Memory →
            ReachesNone (own_circuit self.now) (start_of self.now.run.bench.pair.circuit) self.now.run.bench.pair.rows
            asked) }
    {
        if let Some((latch, value)) = self.other_start() {
            return Err(Refusal::OtherStart { latch, value });
        }
        let circuit = self.circuit();
        let start = first_states(self.alloc, circuit)?;
        let bench = self.bench();
        let rows = bench.stimulus();
        match first_reached(self.alloc, circuit, start.as_slice(), rows, asked)? {
            Some(reached) => Ok(reached),
            None => Err(Refusal::NotReached(asked)),
        }
    }

    /// The position of the property that a word names.
    pub(crate) fn property<'a>(&self, word: &'a [u8]) -> Result<u32, Refusal<'a>>
        ensures ok { IfOk result (λ k. entry_in self.now.run.bench.pair.circuit word.now kinds.Bad ≡ Some k) }
        ensures within { IfOk result (λ k. k < length self.now.run.bench.pair.circuit.bad) }
        ensures err { IfErr result (λ refusal. refusal ≢ Refusal.Memory →
            entry_in self.now.run.bench.pair.circuit word.now kinds.Bad ≡ None) }
    {
        let found = entry_named(self.alloc, self.circuit(), Kind::Bad, word)?;
        if let Some(position) = found {
            return Ok(position);
        }
        // Its refusal says that there is no such name.
        self.literals(word)?;
        Err(Refusal::No {
            word,
            wanted: Wanted::Property,
        })
    }
}
