//! How texts are kept in files.
ghost use Rattle.std.specs.Prelude.{◌≡◌, List, Option, Result, map};
ghost use Rattle.aig_shell.specs.Files.{Call, after_keeping};

/// A text, and the name of the file that is to get it.
#[derive(Clone, Copy)]
pub struct FileText<'n, 't> {
    pub name: &'n [u8],
    pub text: &'t [u8],
}

/// Why a file was not written.
#[derive(Clone, Copy, PartialEq, Eq, Debug, Drop)]
pub enum Reason {
    NoSpace,
    NoPermission,
    NotFound,
    /// The new file that was to take its name is there already.
    NewExists,
    IsFolder,
    NoFolder,
    ReadOnly,
    Quota,
    TooLarge,
    LongName,
    /// It is standard output or standard error, or may be one of them.
    Standard,
    /// Two names are those of one file.
    Twice,
    /// Its name is not UTF-8.
    Name,
    /// No memory was found.
    Memory,
    /// Anything else.
    Failed,
}

impl Reason {
    /// What a refusal says.
    pub(crate) fn words(self) -> &'static str {
        match self {
            Reason::NoSpace => "No space left on device",
            Reason::NoPermission => "Permission denied",
            Reason::NotFound => "No such file or directory",
            Reason::NewExists => "the file of its name and .new exists",
            Reason::IsFolder => "Is a directory",
            Reason::NoFolder => "Not a directory",
            Reason::ReadOnly => "Read-only file system",
            Reason::Quota => "Disk quota exceeded",
            Reason::TooLarge => "File too large",
            Reason::LongName => "File name too long",
            Reason::Standard => "it may be standard output or standard error",
            Reason::Twice => "it is named twice",
            Reason::Name => "its name is not UTF-8",
            Reason::Memory => "out of memory",
            Reason::Failed => "Input/output error",
        }
    }
}

/// The place of a file in a list of texts that was not written, and why.
#[derive(Clone, Copy, PartialEq, Eq, Debug, Drop)]
pub struct Unkept {
    pub place: usize,
    pub reason: Reason,
}

/// Keeps texts in files.
pub trait Keep {
    // The calls so far, each with its texts and what came of it, where the value knows them.
    ghost calls: { Self → Option (List Call) };

    /// Gives each file its text, or none of them. All texts are complete before the first file changes.
    fn keep(&mut self, files: &[FileText<'_, '_>]) -> Result<(), Unkept>
        ensures { calls self.new ≡ after_keeping (calls self.old)
            (map (λ file. record { name = file.name.now; text = file.text.now }) files.now) result };
}
