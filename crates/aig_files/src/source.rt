//! What a command reads.
ghost use Rattle.std.specs.Prelude.{◌≡◌, ◌⊎◌, IfErr, IfOk, IfSome, None, Some};
ghost use Rattle.aig_files.specs.Source.{source_name, source_remaining, whole_bytes, whole_name};

use crate::exit::Exit;
use crate::files::read_whole;
use crate::part::Part;
use aig_command::RunFault;
use std::alloc::Global;
use std::fs::{Files, Metadata, OpenFile};
use std::io::{self, Cursor, ErrorKind, Read};

/// A file that an argument names, as a command reads it. `open` alone makes one of an open file, and nothing changes its
/// name, so that file has this name.
pub struct FileSource<'a, F: Drop> {
    // Empty where no argument names a file.
    name: &'a str,
    content: Content<F>,
}

/// A file of the system that a run has opened by its name.
pub type Opened<'a, R> = FileSource<'a, <R as Files>::File>;

/// An open file, or the bytes of one that was read before.
enum Content<F: Drop> {
    File(F),
    Bytes(Cursor<Vec<u8>>),
}

/// A file that was read whole, with the name that it was opened by.
#[derive(Drop)]
pub struct Whole<'a> {
    name: &'a str,
    bytes: Vec<u8>,
}

// By hand: a value then ends in one call, which is one step of a proof (docs/PROOFS.md, Habits).
impl<F: Drop> Drop for FileSource<'_, F> {
    fn drop(self) {
        let FileSource {
            name: _,
            content: _,
        } = self;
    }
}

impl<F: Drop> Drop for Content<F> {
    fn drop(self) {
        match self {
            Content::File(_) | Content::Bytes(_) => {}
        }
    }
}

impl<'a, F: Drop> FileSource<'a, F> {
    /// Of an open file, by the name that it was opened by.
    pub(crate) fn new(name: &'a str, file: F) -> FileSource<'a, F>
        ensures name { source_name result ≡ name.now }
    {
        FileSource {
            name,
            content: Content::File(file),
        }
    }

    /// What stands for a file that no argument names: there is nothing to read.
    pub fn none(alloc: Global) -> FileSource<'a, F> {
        FileSource {
            name: "",
            content: Content::Bytes(Cursor::new(Vec::new(alloc))),
        }
    }
}

impl<'a, F: Read + Drop> FileSource<'a, F> {
    /// Reads all bytes that are left. A read that fails is never taken for the end of the file.
    pub fn read_whole(self, alloc: Global, part: Part) -> Result<Whole<'a>, Exit>
        ensures name { IfOk result (λ file. whole_name file ≡ source_name self.entry) }
        ensures whole { IfOk result (λ file. IfSome (source_remaining F.remaining self.entry) (λ left.
            whole_bytes file ≡ left)) }
        ensures fails { IfErr result (λ exit. (exit ≡ Exit.Unread part) ⊎ (exit ≡ Exit.Run RunFault.Memory)) }
    {
        let name = self.name;
        let bytes = read_whole(alloc, self, part)?;
        Ok(Whole { name, bytes })
    }
}

/// Returns what the system says of a file, if it is open.
pub fn metadata_of<F: OpenFile + Drop>(source: &FileSource<'_, F>) -> io::Result<Metadata> {
    match &source.content {
        Content::File(file) => file.metadata(),
        Content::Bytes(_) => Err(io::Error::from(ErrorKind::Unsupported)),
    }
}

impl<'a> Whole<'a> {
    /// Returns its bytes.
    pub fn bytes(&self) -> &[u8]
        ensures bytes { result.now ≡ whole_bytes self.now }
    {
        self.bytes.as_slice()
    }

    /// As a command reads it.
    pub fn into_source<F: Drop>(self) -> FileSource<'a, F>
        ensures name { source_name result ≡ whole_name self.entry }
        ensures left { source_remaining (λ file. None) result ≡ Some (whole_bytes self.entry) }
    {
        FileSource {
            name: self.name,
            content: Content::Bytes(Cursor::new(self.bytes)),
        }
    }
}

impl<F: Read + Drop> Read for FileSource<'_, F> {
    ghost remaining = { source_remaining F.remaining };

    fn read(&mut self, buffer: &mut [u8]) -> io::Result<usize> {
        self.content.read(buffer)
    }
}

impl<F: Read + Drop> Read for Content<F> {
    ghost use Rattle.aig_files.specs.Source.{content_remaining};

    ghost remaining = { content_remaining F.remaining };

    fn read(&mut self, buffer: &mut [u8]) -> io::Result<usize> {
        match self {
            Content::File(file) => file.read(buffer),
            Content::Bytes(bytes) => bytes.read(buffer),
        }
    }
}
