//! What a session does for the command of a line.
ghost use Rattle.std.specs.Prelude.{◌≡◌, []};
ghost use Rattle.aig_shell.specs.Commands.{edit_of, export_of, query_of};
ghost use Rattle.aig_shell.specs.Ends.{EndsChange, EndsFiles, EndsQuery};

use crate::answers::help::push_help;
use crate::files::keeper::Keep;
use crate::refusal::Refusal;
use crate::request::command::{Edit, Export, ShellQuery};
use crate::session::Session;

impl Session {
    /// Answers what is asked.
    pub(crate) fn ask<'a>(
        &self,
        text: &mut Vec<u8>,
        query: ShellQuery<'a, '_>,
    ) -> Result<(), Refusal<'a>>
        requires empty { text.old.items ≡ [] }
        ensures { EndsQuery self.now (query_of query.entry) result text.new.items }
    {
        match query {
            ShellQuery::Show { names, frames } => self.show(text, names, frames),
            ShellQuery::Why { name, frame } => self.why(text, name, frame),
            ShellQuery::Gate { name } => self.gate(text, name),
            ShellQuery::Check => Ok(self.check(text)?),
            ShellQuery::Diff { frames } => self.diff(text, frames),
            ShellQuery::Names { text: part } => self.names(text, part),
            ShellQuery::Help { command } => push_help(text, command),
        }
    }

    /// Does an edit.
    pub(crate) fn edit<'a>(&mut self, text: &mut Vec<u8>, edit: Edit<'a>) -> Result<(), Refusal<'a>>
        requires empty { text.old.items ≡ [] }
        ensures { EndsChange self.old (edit_of edit.entry) result text.new.items self.new }
    {
        match edit {
            Edit::Set {
                frames,
                name,
                value,
            } => self.set(frames, name, value),
            Edit::Start { name, value } => self.start(name, value),
            Edit::Add { count } => self.add(count),
            Edit::Drop { count } => self.drop_last(count),
            Edit::Rewire { name, side0, side1 } => self.rewire(text, name, side0, side1),
            Edit::New { side0, side1 } => self.new_gate(text, side0, side1),
            Edit::Out { name, literal } => self.set_output(name, literal),
        }
    }

    /// Writes files.
    pub(crate) fn export<'a, K: Keep>(
        &mut self,
        files: &mut K,
        text: &mut Vec<u8>,
        export: Export<'a>,
    ) -> Result<(), Refusal<'a>>
        requires empty { text.old.items ≡ [] }
        ensures { EndsFiles self.old (export_of export.entry) result text.new.items (K.calls files.old)
            (K.calls files.new) self.new }
    {
        match export {
            Export::Save { circuit, stimulus } => self.save(files, text, circuit, stimulus),
            Export::Witness { file, name } => self.witness(files, text, file, name),
            Export::Wave { file } => self.wave(files, file),
        }
    }
}
