//! What is written to files.
ghost use Rattle.std.specs.Prelude.{◌≡◌, ◌≢◌, ℕ, ◌+◌, ◌<◌, ◌++◌, [], IfErr, IfOk, IfSome, OnOk, decimal, length, map};
ghost use Rattle.std.specs.Prelude.{option_map, take, None, Option, Some};
ghost use Rattle.aig_base.specs.Value.{start_of};
ghost use Rattle.aig_format.specs.Spelling.{short_ascii};
ghost use Rattle.aig_sim.specs.Dump.{IsDump};
ghost use Rattle.aig_sim.specs.StimulusText.{SpellsRows};
ghost use Rattle.aig_sim.specs.WitnessText.{witness_text};
ghost use Rattle.aig_shell.specs.Ends.{EndsFiles};
ghost use Rattle.aig_shell.specs.Files.{IsAsked, after_keeping, no_start_text, reached_text};
ghost use Rattle.aig_shell.specs.Request as request;
ghost use Rattle.aig_shell.specs.Session.{own_circuit};

pub(crate) mod keeper;
mod text;

use crate::files::keeper::{FileText, Keep, Unkept};
use crate::files::text::TextBuffer;
use crate::pieces::{Piece, push_pieces};
use crate::refusal::Refusal;
use crate::session::Session;
use crate::session::run_kept::KeptRun;
use aig_base::{Kind, MemReader, Memory};
use aig_format::write_ascii_with;
use aig_names::push_position;
use aig_sim::{Reached, dump, first_states, write_stimulus, write_witness};

/// Gives texts to the files, and says of which none was written.
fn keep<'a, K: Keep>(files: &mut K, texts: &[FileText<'a, '_>]) -> Result<(), Refusal<'a>>
    ensures calls { K.calls files.new ≡ after_keeping (K.calls files.old) (map (λ file. record {
      name = file.name.now;
      text = file.text.now;
    }) texts.now) result }
    ensures refused { IfErr result (λ refusal. refusal ≢ Refusal.Memory) }
{
    match files.keep(texts) {
        Ok(()) => Ok(()),
        Err(Unkept { place, reason }) => {
            let file = match texts.get(place) {
                Some(text) => text.name,
                None => b"",
            };
            Err(Refusal::NotWritten { file, reason })
        }
    }
}

/// Adds that a file of rows does not say how the latches start.
fn push_no_start(text: &mut Vec<u8>, stimulus: &[u8]) -> Result<(), Memory>
    ensures { OnOk result (text.new.items ≡ text.old.items ++ no_start_text stimulus.now) }
{
    let line = [
        Piece::Text(stimulus),
        Piece::Text(b" has no start of latches; witness FILE has\n"),
    ];
    push_pieces(text, &line)
}

/// Adds which property a witness reaches at which frame.
fn push_reached(text: &mut Vec<u8>, reached: Reached, file: &[u8]) -> Result<(), Memory>
    ensures { OnOk result (text.new.items ≡ text.old.items ++ reached_text reached.property reached.frame file.now) }
{
    push_position(text, Kind::Bad, reached.property)?;
    let rest = [
        Piece::Text(b" at "),
        Piece::Number(u64::from(reached.frame)),
        Piece::Text(b": "),
        Piece::Text(file),
        Piece::Text(b"\n"),
    ];
    push_pieces(text, &rest)
}

impl Session {
    /// The text of the circuit as it is now, with the resets of the file.
    fn saved_circuit(&self) -> Result<Vec<u8>, Memory>
        ensures { IfOk result (λ text. text.items ≡ short_ascii (own_circuit self.now)) }
    {
        let mut out = TextBuffer::new(self.alloc);
        match write_ascii_with(self.circuit(), self.run.latches.as_slice(), &mut out) {
            Ok(()) => Ok(out.into_bytes()),
            Err(_) => Err(Memory),
        }
    }

    /// The text of the rows.
    fn saved_rows(&self) -> Result<Vec<u8>, Memory>
        ensures { IfOk result (λ text. SpellsRows (length self.now.run.bench.pair.circuit.inputs) text.items
            self.now.run.bench.pair.rows) }
    {
        let mut out = TextBuffer::new(self.alloc);
        match write_stimulus(&mut out, self.bench().stimulus()) {
            Ok(()) => Ok(out.into_bytes()),
            Err(_) => Err(Memory),
        }
    }

    /// Writes the circuit alone.
    fn save_circuit<'a, K: Keep>(
        &mut self,
        files: &mut K,
        name: &'a [u8],
    ) -> Result<(), Refusal<'a>>
        ensures { EndsFiles self.old (request.save name.now None) result [] (K.calls files.old)
            (K.calls files.new) self.new }
    {
        let circuit = self.saved_circuit()?;
        keep(
            files,
            &[FileText {
                name,
                text: circuit.as_slice(),
            }],
        )?;
        self.has_edited_circuit = false;
        Ok(())
    }

    /// Writes the circuit and the rows. Says so where the start is not that of the resets. All that takes memory comes
    /// before the files: a line that is refused has written nothing.
    fn save_both<'a, K: Keep>(
        &mut self,
        files: &mut K,
        text: &mut Vec<u8>,
        name: &'a [u8],
        stimulus: &'a [u8],
    ) -> Result<(), Refusal<'a>>
        requires empty { text.old.items ≡ [] }
        ensures { EndsFiles self.old (request.save name.now (Some stimulus.now)) result text.new.items
            (K.calls files.old) (K.calls files.new) self.new }
    {
        let circuit = self.saved_circuit()?;
        let rows = self.saved_rows()?;
        let texts = [
            FileText {
                name,
                text: circuit.as_slice(),
            },
            FileText {
                name: stimulus,
                text: rows.as_slice(),
            },
        ];
        if !self.starts_by_reset() {
            push_no_start(text, stimulus)?;
            keep(files, &texts)?;
            self.has_edited_circuit = false;
            return Ok(());
        }
        let run = KeptRun::of(self.alloc, self.bench())?;
        keep(files, &texts)?;
        self.has_edited_circuit = false;
        self.kept = run;
        Ok(())
    }

    /// Writes the circuit, and the rows where a file is named for them.
    pub(crate) fn save<'a, K: Keep>(
        &mut self,
        files: &mut K,
        text: &mut Vec<u8>,
        circuit: &'a [u8],
        stimulus: Option<&'a [u8]>,
    ) -> Result<(), Refusal<'a>>
        requires empty { text.old.items ≡ [] }
        ensures { EndsFiles self.old (request.save circuit.now (option_map (λ w. w.now) stimulus.entry)) result
            text.new.items (K.calls files.old) (K.calls files.new) self.new }
    {
        match stimulus {
            Some(stimulus) => self.save_both(files, text, circuit, stimulus),
            None => self.save_circuit(files, circuit),
        }
    }

    /// The text of the witness of a property that is reached.
    fn witness_text(&self, reached: Reached) -> Result<Vec<u8>, Memory>
        requires { reached.frame < length self.now.run.bench.pair.rows }
        ensures { IfOk result (λ text. text.items ≡ witness_text (decimal reached.property)
            (start_of self.now.run.bench.pair.circuit) (take (reached.frame + 1) self.now.run.bench.pair.rows)) }
    {
        let start = first_states(self.alloc, self.circuit())?;
        let mut out = TextBuffer::new(self.alloc);
        let written = write_witness(
            &mut out,
            reached.property,
            start.as_slice(),
            self.bench().stimulus(),
            reached.frame + 1,
        );
        match written {
            Ok(()) => Ok(out.into_bytes()),
            Err(_) => Err(Memory),
        }
    }

    /// The property that a word names; without a word, that of the witness that was opened.
    fn asked<'a>(&self, property: Option<&'a [u8]>) -> Result<Option<u32>, Refusal<'a>>
        ensures asked { IfOk result
            (IsAsked self.now.run.bench.pair.circuit self.now.property (option_map (λ w. w.now) property.entry)) }
        ensures within { IfOk result (λ asked. IfSome asked (λ k. k < length self.now.run.bench.pair.circuit.bad)) }
        ensures err { IfErr result (λ refusal. refusal ≢ Refusal.Memory → (asked : Option ℕ) →
            IsAsked self.now.run.bench.pair.circuit self.now.property (option_map (λ w. w.now) property.entry) asked →
            ⊥) }
    {
        match property {
            Some(word) => Ok(Some(self.property(word)?)),
            None => Ok(self.property),
        }
    }

    /// Writes the run up to a property as a witness.
    pub(crate) fn witness<'a, K: Keep>(
        &mut self,
        files: &mut K,
        text: &mut Vec<u8>,
        name: &'a [u8],
        property: Option<&'a [u8]>,
    ) -> Result<(), Refusal<'a>>
        requires empty { text.old.items ≡ [] }
        ensures { EndsFiles self.old (request.witness name.now (option_map (λ w. w.now) property.entry)) result
            text.new.items (K.calls files.old) (K.calls files.new) self.new }
    {
        let asked = self.asked(property)?;
        let reached = self.reached(asked)?;
        push_reached(text, reached, name)?;
        let witness = self.witness_text(reached)?;
        let run = KeptRun::of(self.alloc, self.bench())?;
        keep(
            files,
            &[FileText {
                name,
                text: witness.as_slice(),
            }],
        )?;
        self.kept = run;
        Ok(())
    }

    /// The dump of the run.
    fn wave_text(&self) -> Result<Vec<u8>, Memory>
        ensures { IfOk result (λ text. IsDump (own_circuit self.now) (start_of self.now.run.bench.pair.circuit)
            self.now.run.bench.pair.rows text.items) }
    {
        let rows = self.saved_rows()?;
        let mut reader = MemReader::new(rows.as_slice());
        let mut out = TextBuffer::new(self.alloc);
        match dump(self.alloc, self.circuit(), &mut reader, &mut out) {
            Ok(_frames) => Ok(out.into_bytes()),
            Err(_) => Err(Memory),
        }
    }

    /// Writes the run as a dump.
    pub(crate) fn wave<'a, K: Keep>(&self, files: &mut K, name: &'a [u8]) -> Result<(), Refusal<'a>>
        ensures files { EndsFiles self.now (request.wave name.now) result [] (K.calls files.old) (K.calls files.new)
            self.now }
    {
        let text = self.wave_text()?;
        keep(
            files,
            &[FileText {
                name,
                text: text.as_slice(),
            }],
        )
    }
}
