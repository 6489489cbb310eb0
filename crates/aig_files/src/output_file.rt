//! The files, devices and pipes that the options name for a text. A file gets its name only once its text is complete.

use crate::unwritten::Unwritten;
use std::fs::{self, Files, Metadata, OpenFile, OpenOptions, Permissions};
use std::io::{self, ErrorKind, IsTerminal};
use std::os::fd::AsFd;
use std::os::unix::fs::{FileTypeExt, MetadataExt, OpenOptionsExt, PermissionsExt, fchown};

/// The bits of a mode that say who may read, write and run a file. Setuid and setgid are not among them, because the
/// new file may have another owner.
const PERMISSIONS: u32 = 0o777;

/// The permissions of a new file until it has those of the file that it replaces.
const PRIVATE: u32 = 0o600;

/// The permissions that programs usually ask for. The system takes away those that the umask names.
const USUAL: u32 = 0o666;

/// Where the text of an option goes: to a file by a new one in the same folder, which is renamed when its text is
/// complete, or directly to a device or a pipe.
pub struct OutputFile<F: Drop> {
    // Empty if the option is not given.
    name: String,
    // Empty for a device or a pipe.
    new_name: String,
    // The file that has the name when the run begins.
    old: Option<Metadata>,
    // The new file, as long as it exists under its own name.
    new: Option<F>,
}

// By hand: a value then ends in one call, which is one step of a proof (docs/PROOFS.md, Habits).
impl<F: Drop> Drop for OutputFile<F> {
    fn drop(self) {
        let OutputFile {
            name: _,
            new_name: _,
            old: _,
            new: _,
        } = self;
    }
}

impl<F: Drop> OutputFile<F> {
    /// A file that is to take a name, or to replace a file of it. It is not yet created.
    fn of_file<R: AllocGlobal>(
        rt: &R,
        name: &str,
        old: Option<Metadata>,
    ) -> Result<OutputFile<F>, Unwritten> {
        let mut new_name = String::from_str(rt.alloc(), name)?;
        new_name.push_str(".new")?;
        Ok(OutputFile {
            name: String::from_str(rt.alloc(), name)?,
            new_name,
            old,
            new: None,
        })
    }

    /// A device or a pipe, or with an empty name what stands for an option that is not given.
    fn direct<R: AllocGlobal>(rt: &R, name: &str) -> Result<OutputFile<F>, Unwritten> {
        Ok(OutputFile {
            name: String::from_str(rt.alloc(), name)?,
            new_name: String::new(rt.alloc()),
            old: None,
            new: None,
        })
    }

    /// Whether it is a file that replaces this one.
    pub fn replaces(&self, other: &Metadata) -> bool {
        match &self.old {
            Some(old) => are_one(old, other),
            None => false,
        }
    }

    /// Returns the name of a device or of a pipe, or an empty one.
    pub fn name(&self) -> &str {
        self.name.as_str()
    }

    /// Returns the new file, if there is one. To sync it is for whoever writes it.
    pub fn new_file(&mut self) -> Option<&mut F> {
        match &mut self.new {
            Some(file) => Some(file),
            None => None,
        }
    }

    /// Fails if it is a file whose name was free when the run began, and now another file has it.
    pub fn check_name<R: Files>(&self, rt: &R) -> Result<(), Unwritten> {
        let is_new = !self.new_name.is_empty() && self.old.is_none();
        if is_new && found(rt, self.name.as_str())?.is_some() {
            return Err(Unwritten::System(ErrorKind::AlreadyExists));
        }
        Ok(())
    }

    /// Renames the new file, if there is one, over the one that existed.
    pub fn take_name<R: Files>(&mut self, rt: &R) -> Result<(), Unwritten> {
        if self.new.is_some() {
            fs::rename(rt, self.new_name.as_str(), self.name.as_str())?;
            self.new = None;
        }
        Ok(())
    }

    /// Removes the new file, unless there is none or it has taken its name.
    pub fn remove<R: Files>(&mut self, rt: &R) -> Result<(), Unwritten> {
        if self.new.is_some() {
            self.new = None;
            fs::remove_file(rt, self.new_name.as_str())?;
        }
        Ok(())
    }
}

impl<F: OpenFile + AsFd + Drop> OutputFile<F> {
    /// Finds out what an option names, and changes nothing. It fails if that cannot be written.
    pub fn find<R: Files<File = F> + AllocGlobal>(
        rt: &R,
        name: Option<&str>,
    ) -> Result<OutputFile<F>, Unwritten> {
        let Some(name) = name else {
            return OutputFile::direct(rt, "");
        };
        match fs::metadata(rt, name) {
            Ok(old) => OutputFile::find_existing(rt, name, old),
            Err(error) if error.kind() == ErrorKind::NotFound && !name.is_empty() => {
                OutputFile::find_file(rt, name, None)
            }
            Err(error) => Err(Unwritten::from(error)),
        }
    }

    /// The same for what exists. It may not be standard output or standard error, which have other output of this run,
    /// unless it is a device that keeps nothing, such as `/dev/null`.
    fn find_existing<R: Files<File = F> + AllocGlobal>(
        rt: &R,
        name: &str,
        old: Metadata,
    ) -> Result<OutputFile<F>, Unwritten> {
        let is_file = old.is_file();
        let is_pipe = old.file_type().is_fifo();
        let is_terminal = !is_pipe && open_to_write(rt, name)?.as_fd().is_terminal();
        if (is_file || is_pipe || is_terminal) && may_be_standard(rt, &old) {
            return Err(Unwritten::Standard);
        }
        if is_file {
            OutputFile::find_file(rt, name, Some(old))
        } else {
            OutputFile::direct(rt, name)
        }
    }

    /// The same for a file that is there or not. If the name is a link, the file that it leads to is replaced.
    fn find_file<R: Files<File = F> + AllocGlobal>(
        rt: &R,
        name: &str,
        old: Option<Metadata>,
    ) -> Result<OutputFile<F>, Unwritten> {
        let file = match found(rt, name)? {
            Some(found) if found.is_symlink() => {
                let path = fs::canonicalize(rt, name)?;
                OutputFile::of_file(rt, path.as_path().as_str(), old)?
            }
            _ => OutputFile::of_file(rt, name, old)?,
        };
        match found(rt, file.new_name.as_str())? {
            Some(_) => Err(Unwritten::NewExists),
            None => Ok(file),
        }
    }

    /// Creates the new file for a file. One that replaces another has its owner and permissions before it has a text.
    pub fn create<R: Files<File = F>>(&mut self, rt: &R) -> Result<(), Unwritten> {
        if self.new_name.is_empty() {
            return Ok(());
        }
        let mode = if self.old.is_some() { PRIVATE } else { USUAL };
        let file = create_new(rt, self.new_name.as_str(), mode)?;
        let kept = match &self.old {
            Some(old) => keep_owner(&file, old),
            None => Ok(()),
        };
        self.new = Some(file);
        Ok(kept?)
    }
}

/// What a name is the name of, if there is something.
fn found<R: Files>(rt: &R, name: &str) -> Result<Option<Metadata>, Unwritten> {
    match fs::symlink_metadata(rt, name) {
        Ok(metadata) => Ok(Some(metadata)),
        Err(error) if error.kind() == ErrorKind::NotFound => Ok(None),
        Err(error) => Err(Unwritten::from(error)),
    }
}

/// Creates a file that does not exist, for writing.
fn create_new<R: Files>(rt: &R, name: &str, mode: u32) -> Result<R::File, Unwritten> {
    let opened = OpenOptions::new()
        .write(true)
        .create_new(true)
        .mode(mode)
        .open(rt, name);
    match opened {
        Ok(file) => Ok(file),
        Err(error) if error.kind() == ErrorKind::AlreadyExists => Err(Unwritten::NewExists),
        Err(error) => Err(Unwritten::from(error)),
    }
}

/// Gives a new file the owner, the group and the permissions of another. If the group cannot be kept, no group gets its
/// permissions, and others only those that it had too: its members are among them then.
fn keep_owner<F: OpenFile + AsFd + Drop>(file: &F, old: &Metadata) -> io::Result<()> {
    let new = file.metadata()?;
    let mut mode = old.mode() & PERMISSIONS;
    if new.uid() != old.uid() {
        fchown(file, Some(old.uid()), None)?;
    }
    if new.gid() != old.gid() && fchown(file, None, Some(old.gid())).is_err() {
        mode &= 0o700 | ((mode >> 3) & 0o007);
    }
    // Some file systems have one mode for all files, and do not allow a program to set another.
    if new.mode() & PERMISSIONS != mode {
        file.set_permissions(Permissions::from_mode(mode))?;
    }
    Ok(())
}

/// Opens what is there, and does not change it.
fn open_to_write<R: Files>(rt: &R, name: &str) -> Result<R::File, Unwritten> {
    Ok(OpenOptions::new().write(true).open(rt, name)?)
}

/// Opens a device or a pipe for its text.
pub fn open_direct<R: Files>(rt: &R, name: &str) -> Result<R::File, Unwritten> {
    let file = open_to_write(rt, name)?;
    if file.metadata()?.is_file() {
        // A file has the name meanwhile.
        return Err(Unwritten::System(ErrorKind::AlreadyExists));
    }
    Ok(file)
}

/// Whether it may be standard output or standard error. It may if the system does not say which files they are, as
/// without the folder `/dev`.
fn may_be_standard<R: Files>(rt: &R, file: &Metadata) -> bool {
    may_be(rt, "/dev/stdout", file) || may_be(rt, "/dev/stderr", file)
}

fn may_be<R: Files>(rt: &R, name: &str, file: &Metadata) -> bool {
    match fs::metadata(rt, name) {
        Ok(other) => are_one(&other, file),
        Err(_) => true,
    }
}

/// Whether both are of one file.
fn are_one(one: &Metadata, other: &Metadata) -> bool {
    one.dev() == other.dev() && one.ino() == other.ino()
}
