//! What a line does, and its answer.
ghost use Rattle.std.specs.Prelude.{◌≡◌, ◌++◌, ◌∷◌, ◌↔◌, [], IfNone, IfOk, IfSome, IsTrue, List, codes, OnErr, false};
ghost use Rattle.std.specs.Prelude.{map, ℕ};
ghost use Rattle.aig_names.specs.Names.{words};
ghost use Rattle.aig_shell.specs.Commands.{request_of};
ghost use Rattle.aig_shell.specs.Conversation.{AnswersLine, EndsQuit, EndsRequest, EndsWords, ends_after, no_memory};
ghost use Rattle.aig_shell.specs.Session.{HasUnsaved, IsIn};
ghost use Rattle.aig_shell.specs.Answers.{IsUnsaved};
ghost use Rattle.aig_shell.specs.State.{SessionState};

use crate::files::keeper::Keep;
use crate::refusal::Refusal;
use crate::refusal::words::push_refusal;
use crate::request::command::{ShellCommand, after_byte};
use crate::session::Session;
use aig_base::Memory;
use aig_prompt::{spaced, words_of};

/// Whether lines go on after one.
#[derive(Clone, Copy, Drop)]
pub(crate) enum AfterLine {
    GoesOn,
    Ends,
}

/// A session, and the answers to its lines.
#[derive(Drop)]
pub(crate) struct Conversation {
    pub(crate) session: Session,
    /// Whether the last command was a `quit` that said what is unsaved.
    pub(crate) has_warned: bool,
    /// The answer to a line.
    pub(crate) text: Vec<u8>,
}

/// What of a session is unsaved; none where nothing is.
fn what_is_unsaved(session: &Session) -> Option<&'static [u8]>
    ensures some { IfSome result (λ _. HasUnsaved session.now) }
    ensures none { IfNone result (HasUnsaved session.now → ⊥) }
{
    match (session.has_edited_circuit, session.has_edited_run()) {
        (false, false) => None,
        (true, false) => Some(b"circuit"),
        (false, true) => Some(b"run"),
        (true, true) => Some(b"circuit and run"),
    }
}

impl Conversation {
    /// About a session, before the first line.
    pub(crate) fn new(session: Session) -> Conversation
        ensures session { result.session ≡ session }
        ensures warned { result.has_warned ≡ false }
    {
        let text = Vec::new(session.alloc);
        Conversation {
            session,
            has_warned: false,
            text,
        }
    }

    /// Adds what is unsaved, where something is.
    pub(crate) fn push_unsaved(&mut self) -> Result<bool, Memory>
        ensures unsaved { IfOk result (λ told. IsTrue told ↔ HasUnsaved self.old.session) }
        ensures says { IfOk result (λ told. IsTrue told → (s : SessionState) → IsIn self.old.session s → IsUnsaved s) }
        ensures said { IfOk result (λ told. IsTrue told → (what : List ℕ)
            × (self.new.text.items ≡ self.old.text.items ++ (codes "unsaved: " ++ what))) }
        ensures silent { IfOk result (λ told. told ≡ false → self.new ≡ self.old) }
        ensures rest { self.new ≡ record self.old { text = self.new.text } }
    {
        let Some(words) = what_is_unsaved(&self.session) else {
            return Ok(false);
        };
        self.text.extend_from_slice(b"unsaved: ")?;
        self.text.extend_from_slice(words)?;
        Ok(true)
    }

    /// Answers `quit`: where something is unsaved, the first of two says so.
    fn quit(&mut self, has_warned: bool) -> Result<AfterLine, Memory>
        requires calm { self.old.has_warned ≡ false }
        requires empty { self.old.text.items ≡ [] }
        ensures { EndsQuit self.old has_warned result self.new }
    {
        if has_warned {
            return Ok(AfterLine::Ends);
        }
        let told = self.push_unsaved()?;
        if !told {
            return Ok(AfterLine::Ends);
        }
        self.text.extend_from_slice(b"; quit again to leave\n")?;
        self.has_warned = true;
        Ok(AfterLine::GoesOn)
    }

    /// Does what a command asks for, and makes its answer.
    fn do_command<'a, K: Keep>(
        &mut self,
        files: &mut K,
        command: ShellCommand<'a, '_>,
        has_warned: bool,
    ) -> Result<AfterLine, Refusal<'a>>
        requires calm { self.old.has_warned ≡ false }
        requires empty { self.old.text.items ≡ [] }
        ensures { EndsRequest self.old has_warned (request_of command.entry) result (K.calls files.old)
            (K.calls files.new) self.new }
    {
        match command {
            ShellCommand::Query(query) => {
                self.session.ask(&mut self.text, query)?;
                Ok(AfterLine::GoesOn)
            }
            ShellCommand::Edit(edit) => {
                self.session.edit(&mut self.text, edit)?;
                Ok(AfterLine::GoesOn)
            }
            ShellCommand::Export(export) => {
                self.session.export(files, &mut self.text, export)?;
                Ok(AfterLine::GoesOn)
            }
            ShellCommand::Quit => Ok(self.quit(has_warned)?),
        }
    }

    /// Does what a word and those after it ask for, and makes the answer.
    fn do_request<'a, K: Keep>(
        &mut self,
        files: &mut K,
        word: &'a [u8],
        words: &[&'a [u8]],
    ) -> Result<AfterLine, Refusal<'a>>
        requires empty { self.old.text.items ≡ [] }
        ensures { EndsWords self.old (word.now ∷ map (λ w. w.now) words.now) result (K.calls files.old)
            (K.calls files.new) self.new }
    {
        let has_warned = self.has_warned;
        self.has_warned = false;
        let command = ShellCommand::of(word, words)?;
        self.do_command(files, command, has_warned)
    }

    /// Does what the words of a line ask for, and makes its answer. A comment asks for nothing.
    fn do_words<'a, K: Keep>(
        &mut self,
        files: &mut K,
        words: &[&'a [u8]],
    ) -> Result<AfterLine, Refusal<'a>>
        requires empty { self.old.text.items ≡ [] }
        ensures { EndsWords self.old (map (λ w. w.now) words.now) result (K.calls files.old) (K.calls files.new)
            self.new }
    {
        let Some((first, rest)) = words.split_first() else {
            return Ok(AfterLine::GoesOn);
        };
        match after_byte(*first, b'#') {
            Some(_) => Ok(AfterLine::GoesOn),
            None => self.do_request(files, *first, rest),
        }
    }

    /// Does what a line asks for, and makes its answer.
    fn do_line<'a, K: Keep>(
        &mut self,
        files: &mut K,
        line: &'a [u8],
    ) -> Result<AfterLine, Refusal<'a>>
        requires empty { self.old.text.items ≡ [] }
        ensures { EndsWords self.old (words line.now) result (K.calls files.old) (K.calls files.new) self.new }
    {
        let words = words_of(self.session.alloc, line)?;
        self.do_words(files, words.as_slice())
    }

    /// Makes the answer to a line. Where it finds no memory, the answer is that.
    pub(crate) fn make_answer<K: Keep>(
        &mut self,
        files: &mut K,
        line: &[u8],
    ) -> Result<AfterLine, Memory>
        ensures answered { IfOk result (λ next. AnswersLine self.old line.now self.new.text.items (K.calls files.old)
            (K.calls files.new) (ends_after next) self.new) }
        ensures memory { OnErr result (AnswersLine self.old line.now no_memory (K.calls files.old) (K.calls files.new)
            false
            self.new) }
    {
        self.text.clear();
        let line = spaced(self.session.alloc, line)?;
        match self.do_line(files, line.as_slice()) {
            Ok(next) => Ok(next),
            Err(refusal) => {
                self.text.clear();
                push_refusal(&mut self.text, &self.session, refusal)?;
                Ok(AfterLine::GoesOn)
            }
        }
    }
}
