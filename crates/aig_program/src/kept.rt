//! The files of `--circuit-out`, `--stimulus-out` and `--map`, and those that a session writes.

use aig_base::{Buffered, Circuit, Std};
use aig_bench::Bench;
use aig_command::{RunFault, flushed};
use aig_commands::unroll::unroll_map;
use aig_files::{KeptFileNames, OutputFile, Shown, Unwritten, open_direct};
use aig_script::{keep_circuit, keep_stimulus};
use aig_sim::PlaneGrid;
use std::fs::{Files, Metadata, OpenFile};
use std::io::{self, ErrorKind, IsTerminal};
use std::os::fd::AsFd;

/// One or two files that get their texts at once. The new files are on the disk only while these are written, so a run
/// that is killed before leaves nothing.
#[derive(Drop)]
pub struct KeptFiles<F: Drop> {
    first: OutputFile<F>,
    second: OutputFile<F>,
}

/// A file of two that was not written.
#[derive(Clone, Copy, Drop)]
pub struct Failure {
    /// Which of the two it is: 0 or 1.
    pub place: usize,
    /// Why it was not written.
    pub why: Unwritten,
}

fn at<T: Drop>(place: usize, done: Result<T, Unwritten>) -> Result<T, Failure> {
    match done {
        Ok(value) => Ok(value),
        Err(why) => Err(Failure { place, why }),
    }
}

impl<F: io::Write + OpenFile + AsFd + Drop> KeptFiles<F> {
    /// What the names lead to. It fails if one of these cannot be written.
    fn find<R: Files<File = F> + AllocGlobal>(
        rt: &R,
        names: KeptFileNames<'_>,
    ) -> Result<KeptFiles<F>, Failure> {
        let first = at(0, OutputFile::find(rt, names.circuit))?;
        let second = at(1, OutputFile::find(rt, names.stimulus))?;
        Ok(KeptFiles { first, second })
    }

    /// The same. Both new files are created, because one may be in the other's way, and removed.
    pub fn begin<R: Files<File = F> + AllocGlobal>(
        rt: &R,
        names: KeptFileNames<'_>,
    ) -> Result<KeptFiles<F>, Failure> {
        let mut files = KeptFiles::find(rt, names)?;
        let created = files.create(rt);
        let removed = files.remove(rt);
        created.and(removed)?;
        Ok(files)
    }

    fn create<R: Files<File = F>>(&mut self, rt: &R) -> Result<(), Failure> {
        at(1, self.second.check_name(rt))?;
        at(0, self.first.create(rt))?;
        match self.second.create(rt) {
            // It was not there when they were found, so it is that of the first.
            Err(Unwritten::NewExists) => at(1, Err(Unwritten::Twice))?,
            created => at(1, created)?,
        }
        // The new file of the second may have the name of the first.
        at(0, self.first.check_name(rt))
    }

    /// Gives the files their texts. If that fails, the new files are removed.
    pub fn write<R: Files<File = F>>(
        &mut self,
        rt: &R,
        first: FileText<'_>,
        second: FileText<'_>,
    ) -> Result<(), Failure> {
        let written = self.write_new(rt, first, second);
        if written.is_err() {
            // The program reports the fault that led here, and can do no more.
            let _ = self.remove(rt);
        }
        written
    }

    /// All texts are on disk before the first file gets its name.
    fn write_new<R: Files<File = F>>(
        &mut self,
        rt: &R,
        first: FileText<'_>,
        second: FileText<'_>,
    ) -> Result<(), Failure> {
        self.create(rt)?;
        at(0, write_to(rt, first, &mut self.first))?;
        at(1, write_to(rt, second, &mut self.second))?;
        at(0, self.first.take_name(rt))?;
        at(1, self.second.take_name(rt))
    }

    /// Removes the new files that have not taken their names.
    fn remove<R: Files>(&mut self, rt: &R) -> Result<(), Failure> {
        let first = at(0, self.first.remove(rt));
        let second = at(1, self.second.remove(rt));
        first.and(second)
    }
}

/// The file of the map of a circuit. It fails if it cannot be written, or would replace the circuit's own file.
pub fn begin_map<R: Files + AllocGlobal>(
    rt: &R,
    name: &str,
    circuit: &Metadata,
) -> Result<KeptFiles<R::File>, Failure>
where
    R::File: AsFd,
{
    let names = KeptFileNames {
        circuit: Some(name),
        stimulus: None,
    };
    let files = KeptFiles::begin(rt, names)?;
    if files.first.replaces(circuit) {
        return at(0, Err(Unwritten::Twice));
    }
    Ok(files)
}

/// Gives one or two files their texts at once.
pub fn keep_texts<R: Files + AllocGlobal>(
    rt: &R,
    names: KeptFileNames<'_>,
    first: &[u8],
    second: &[u8],
) -> Result<(), Failure>
where
    R::File: AsFd,
{
    let mut files = KeptFiles::find(rt, names)?;
    files.write(rt, FileText::Bytes(first), FileText::Bytes(second))
}

/// What a file gets: the circuit or the rows of a bench, the inputs of a circuit unrolled for some frames, or bytes.
#[derive(Clone, Copy)]
pub enum FileText<'a> {
    Circuit(&'a Bench<PlaneGrid>),
    Stimulus(&'a Bench<PlaneGrid>),
    Inputs(&'a Circuit, u32),
    Bytes(&'a [u8]),
}

/// Writes a text if its option is given. A file has not taken its name then.
fn write_to<R: Files>(
    rt: &R,
    text: FileText<'_>,
    output: &mut OutputFile<R::File>,
) -> Result<(), Unwritten>
where
    R::File: AsFd,
{
    match output.new_file() {
        Some(file) => {
            write_text(text, file)?;
            Ok(file.sync_all()?)
        }
        None => write_direct(rt, text, output.name()),
    }
}

/// Writes a text to a device or a pipe, if there is one. A terminal gets the bytes that it may obey escaped.
fn write_direct<R: Files>(rt: &R, text: FileText<'_>, name: &str) -> Result<(), Unwritten>
where
    R::File: AsFd,
{
    if name.is_empty() {
        return Ok(());
    }
    let mut file = open_direct(rt, name)?;
    if file.as_fd().is_terminal() {
        write_text(text, &mut Shown::new(file))
    } else {
        write_text(text, &mut file)
    }
}

fn write_text<F: io::Write>(text: FileText<'_>, file: &mut F) -> Result<(), Unwritten> {
    match text {
        FileText::Circuit(bench) => written(keep_circuit(bench, &mut Std::new(file))),
        FileText::Stimulus(bench) => written(keep_stimulus(bench, &mut Std::new(file))),
        FileText::Inputs(circuit, frames) => written(write_inputs(circuit, frames, file)),
        FileText::Bytes(bytes) => Ok(file.write_all(bytes)?),
    }
}

/// A write that failed, of which no more is known.
fn written(done: Result<(), RunFault>) -> Result<(), Unwritten> {
    match done {
        Ok(()) => Ok(()),
        Err(RunFault::Memory) => Err(Unwritten::Memory),
        Err(_) => Err(Unwritten::System(ErrorKind::Other)),
    }
}

fn write_inputs<F: io::Write>(
    circuit: &Circuit,
    frames: u32,
    file: &mut F,
) -> Result<(), RunFault> {
    let mut out = Buffered::new(Std::new(file));
    let done = unroll_map(circuit, frames, &mut out);
    flushed(done, &mut out, RunFault::Output)
}
