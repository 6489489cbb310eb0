//! Lines that are read and answered one by one.
ghost use Rattle.std.specs.Prelude.{◌≡◌, ◌↔◌, ◌++◌, ℕ, List, [], Bool, IsTrue, OnOk, OnErr};
ghost use Rattle.aig_bytes.specs.Bytes.{Writes};
ghost use Rattle.aig_bytes.specs.Flow.{flow};
ghost use Rattle.aig_shell.specs.Answers.{IsUnsaved};
ghost use Rattle.aig_shell.specs.Conversation.{BreaksDown, Ended, IsAt, IsGreeting, prompt};
ghost use Rattle.aig_shell.specs.State.{SessionState};
ghost use Rattle.aig_shell.specs.Talking.{EndsInput, Feeds, Finishes, HoldsLine, Moment, Replies, Stands, moment};
ghost use Rattle.aig_shell.specs.Talking.{newline};

pub(crate) mod conversation;

use crate::files::keeper::Keep;
use crate::pieces::{Piece, push_pieces};
use crate::session::Session;
use crate::talk::conversation::{AfterLine, Conversation};
use aig_base::{Circuit, Io, Memory, Read, Write, line_length, write_all};
use std::alloc::Global;

/// The answer where no memory is found.
const NO_MEMORY: &[u8] = b"no: out of memory\n";

/// The prompt.
const PROMPT: &[u8] = b"aig> ";

/// The line that is being read.
#[derive(Drop)]
pub(crate) struct LineBuffer {
    /// Its first bytes.
    pub(crate) bytes: Vec<u8>,
    /// Whether no memory was found for more of it.
    pub(crate) is_cut: bool,
}

impl LineBuffer {
    /// Before the first byte.
    fn new(alloc: Global) -> LineBuffer
        ensures { HoldsLine [] result }
    {
        LineBuffer {
            bytes: Vec::new(alloc),
            is_cut: false,
        }
    }

    /// Whether it has no byte.
    fn is_empty(&self) -> bool
        ensures { (text : List ℕ) → HoldsLine text self.now → IsTrue result ↔ (text ≡ []) }
    {
        self.bytes.is_empty() && !self.is_cut
    }

    /// Takes more bytes of it.
    fn extend(&mut self, bytes: &[u8])
        ensures { (text : List ℕ) → HoldsLine text self.old → HoldsLine (text ++ bytes.now) self.new }
    {
        if bytes.is_empty() || self.is_cut {
            return;
        }
        if self.bytes.extend_from_slice(bytes).is_err() {
            self.is_cut = true;
        }
    }
}

impl Conversation {
    /// Answers a line.
    fn answer<K: Keep, W: Write>(
        &mut self,
        files: &mut K,
        line: &[u8],
        out: &mut W,
    ) -> Result<AfterLine, Io>
        ensures { Replies self.old line.now (moment W.written W.failures K.calls out.old files.old)
            (moment W.written W.failures K.calls out.new files.new) result self.new }
    {
        match self.make_answer(files, line) {
            Ok(next) => {
                write_all(out, self.text.as_slice())?;
                Ok(next)
            }
            Err(Memory) => {
                write_all(out, NO_MEMORY)?;
                Ok(AfterLine::GoesOn)
            }
        }
    }

    /// Says what is unsaved, where something is.
    fn write_unsaved<W: Write>(&mut self, out: &mut W) -> Result<(), Io>
        ensures { (what : List ℕ) × ((s : SessionState) → IsAt self.old s → (IsUnsaved s → ⊥) → what ≡ [])
            × Writes W.written W.failures out.old out.new what result }
    {
        self.text.clear();
        if let Ok(true) = self.push_unsaved() {
            write_all(out, self.text.as_slice())?;
            write_all(out, b"\n")?;
        }
        Ok(())
    }
}

/// Adds the first line that a person sees.
fn push_greeting(text: &mut Vec<u8>, session: &Session) -> Result<(), Memory> {
    let circuit: &Circuit = session.circuit();
    let line = [
        Piece::Number(u64::from(session.bench().frames())),
        Piece::Text(b" frames, "),
        Piece::Number(circuit.inputs().len() as u64),
        Piece::Text(b" inputs, "),
        Piece::Number(circuit.latches().len() as u64),
        Piece::Text(b" latches, "),
        Piece::Number(circuit.gates().len() as u64),
        Piece::Text(b" gates, "),
        Piece::Number(circuit.bad().len() as u64),
        Piece::Text(b" properties; try help\n"),
    ];
    push_pieces(text, &line)
}

/// A conversation with the line that is being read.
#[derive(Drop)]
pub(crate) struct Talker {
    pub(crate) conversation: Conversation,
    pub(crate) line: LineBuffer,
    /// Whether a person sees the prompt.
    pub(crate) has_prompt: bool,
}

impl Talker {
    /// Before the first line.
    pub(crate) fn new(conversation: Conversation, has_prompt: bool) -> Talker
        ensures conversation { result.conversation ≡ conversation }
        ensures line { HoldsLine [] result.line }
        ensures prompt { result.has_prompt ≡ has_prompt }
    {
        let line = LineBuffer::new(conversation.session.alloc);
        Talker {
            conversation,
            line,
            has_prompt,
        }
    }

    /// Writes the prompt, where a person sees it.
    fn write_prompt<W: Write>(&self, out: &mut W) -> Result<(), Io>
        ensures { Writes W.written W.failures out.old out.new (prompt self.now.has_prompt) result }
    {
        if self.has_prompt {
            write_all(out, PROMPT)?;
        }
        Ok(())
    }

    /// Writes the first line and the first prompt, where a person sees them.
    fn begin<W: Write>(&self, out: &mut W) -> Result<(), Io>
        ensures { (text : List ℕ) × IsGreeting self.now.has_prompt text
            × Writes W.written W.failures out.old out.new text result }
    {
        if !self.has_prompt {
            return Ok(());
        }
        let mut text = Vec::new(self.conversation.session.alloc);
        // Without memory there is no first line.
        if push_greeting(&mut text, &self.conversation.session).is_err() {
            text.clear();
        }
        write_all(out, text.as_slice())?;
        self.write_prompt(out)
    }

    /// Answers the line that ends with these bytes, and begins the next.
    fn end_line<K: Keep, W: Write>(
        &mut self,
        files: &mut K,
        piece: &[u8],
        out: &mut W,
    ) -> Result<AfterLine, Io>
        ensures reply { (held : List ℕ) → HoldsLine held self.old.line
            → Replies self.old.conversation (held ++ piece.now)
            (moment W.written W.failures K.calls out.old files.old)
            (moment W.written W.failures K.calls out.new files.new)
            result self.new.conversation }
        ensures empty { OnOk result ((held : List ℕ) → HoldsLine held self.old.line → HoldsLine [] self.new.line) }
        ensures prompt { self.new.has_prompt ≡ self.old.has_prompt }
    {
        if self.line.is_empty() {
            return self.conversation.answer(files, piece, out);
        }
        self.line.extend(piece);
        let next = LineBuffer::new(self.conversation.session.alloc);
        let LineBuffer { bytes, is_cut } = std::mem::replace(&mut self.line, next);
        if is_cut {
            write_all(out, NO_MEMORY)?;
            return Ok(AfterLine::GoesOn);
        }
        self.conversation.answer(files, bytes.as_slice(), out)
    }

    /// Answers each line that these bytes end.
    fn feed<K: Keep, W: Write>(
        &mut self,
        files: &mut K,
        bytes: &[u8],
        out: &mut W,
    ) -> Result<AfterLine, Io>
        ensures { (start : Moment) (person : Bool) (s : SessionState) (input : List ℕ)
            → Stands start (moment W.written W.failures K.calls out.old files.old) person s input self.old
            → Feeds start (moment W.written W.failures K.calls out.new files.new) person s (input ++ bytes.now) result
            self.new }
    {
        let mut rest = bytes;
        loop {
            let size = line_length(rest);
            if size == rest.len() {
                self.line.extend(rest);
                return Ok(AfterLine::GoesOn);
            }
            match self.end_line(files, &rest[..size], out)? {
                AfterLine::Ends => return Ok(AfterLine::Ends),
                AfterLine::GoesOn => self.write_prompt(out)?,
            }
            rest = &rest[size + 1..];
        }
    }

    /// Writes a newline, where a person sees it.
    fn write_newline<W: Write>(&self, out: &mut W) -> Result<(), Io>
        ensures { Writes W.written W.failures out.old out.new (newline self.now.has_prompt) result }
    {
        if self.has_prompt {
            write_all(out, b"\n")?;
        }
        Ok(())
    }

    /// Answers a last line without an LF, if there is one.
    fn end_last_line<K: Keep, W: Write>(
        &mut self,
        files: &mut K,
        out: &mut W,
    ) -> Result<AfterLine, Io>
        ensures { (start : Moment) (person : Bool) (s : SessionState) (input : List ℕ)
            → Stands start (moment W.written W.failures K.calls out.old files.old) person s input self.old
            → Finishes start (moment W.written W.failures K.calls out.new files.new) person s input result self.new }
    {
        if self.line.is_empty() {
            return Ok(AfterLine::GoesOn);
        }
        self.end_line(files, b"", out)
    }

    /// Answers a last line without an LF, and says what is unsaved.
    fn end<K: Keep, W: Write>(&mut self, files: &mut K, out: &mut W) -> Result<(), Io>
        ensures { (start : Moment) (person : Bool) (s : SessionState) (input : List ℕ)
            → Stands start (moment W.written W.failures K.calls out.old files.old) person s input self.old
            → EndsInput start (moment W.written W.failures K.calls out.new files.new) person s input result }
    {
        match self.end_last_line(files, out)? {
            AfterLine::Ends => Ok(()),
            AfterLine::GoesOn => {
                self.write_newline(out)?;
                self.conversation.write_unsaved(out)
            }
        }
    }

    /// Reads lines to their end, or to a `quit`, and answers each. It flushes the answers before it reads on.
    pub(crate) fn run<K: Keep, R: Read, W: Write>(
        &mut self,
        files: &mut K,
        reader: &mut R,
        out: &mut W,
    ) -> Result<(), Io>
        ensures ended { OnOk result ((s : SessionState) → IsAt self.old.conversation s → HoldsLine [] self.old.line
            → Ended (record {
              reader = flow R.left R.failures reader.old reader.new;
              out = flow W.written W.failures out.old out.new;
              calls = K.calls;
              files = files.old;
              files_after = files.new;
            }) self.old.has_prompt s) }
        ensures failed { OnErr result ((s : SessionState) → IsAt self.old.conversation s → HoldsLine [] self.old.line
            → BreaksDown (record {
              reader = flow R.left R.failures reader.old reader.new;
              out = flow W.written W.failures out.old out.new;
              calls = K.calls;
              files = files.old;
              files_after = files.new;
            }) self.old.has_prompt s) }
    {
        self.begin(out)?;
        let mut buffer = [0u8; 4096];
        loop {
            out.flush()?;
            let size = reader.read(&mut buffer)?;
            if size == 0 {
                return self.end(files, out);
            }
            match self.feed(files, &buffer[..size], out)? {
                AfterLine::Ends => return Ok(()),
                AfterLine::GoesOn => {}
            }
        }
    }
}
