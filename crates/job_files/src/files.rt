//! The files of a command line: those that are read are opened, and the new ones are created.

ghost use Rattle.std.specs.Prelude.{◌≡◌, IfErr, IfOk, bit_and, string_bytes};
ghost use Rattle.std.specs.Fs.{metadata_mode};
ghost use Rattle.job_files.specs.Opening.{IsNotCreated, IsNotOpen, part_of};

use crate::cleaning::cleaned;
use crate::stop::FileStop;
use std::alloc::AllocError;
use std::fs;
use std::fs::{Metadata, OpenFile, OpenOptions};
use std::os::unix::fs::{MetadataExt, OpenOptionsExt};
use std::rt::Files;

/// Who may use a file that isn't whole yet: its owner alone.
const PRIVATE: u32 = 0o600;

/// Opens a file to be read.
pub fn open<R: Files + AllocGlobal>(rt: &R, path: &str) -> Result<R::File, FileStop>
    ensures { IfErr result (IsNotOpen path.now) }
{
    match fs::open(rt, path) {
        Ok(file) => Ok(file),
        Err(error) => Err(FileStop::CannotOpen(cleaned(rt.alloc(), path)?, error)),
    }
}

/// Creates a file to be written. Where there is one of this name, it stays as it is.
pub fn create<R: Files + AllocGlobal>(rt: &R, path: &str) -> Result<R::File, FileStop>
    ensures { IfErr result (IsNotCreated path.now) }
{
    create_by(rt, &mut OpenOptions::new(), path)
}

/// The same, of a file that its owner alone may use.
pub fn create_private<R: Files + AllocGlobal>(rt: &R, path: &str) -> Result<R::File, FileStop>
    ensures { IfErr result (IsNotCreated path.now) }
{
    create_by(rt, OpenOptions::new().mode(PRIVATE), path)
}

/// The same, with these options.
fn create_by<R: Files + AllocGlobal>(
    rt: &R,
    options: &mut OpenOptions,
    path: &str,
) -> Result<R::File, FileStop>
    ensures { IfErr result (IsNotCreated path.now) }
{
    match options.write(true).create_new(true).open(rt, path) {
        Ok(file) => Ok(file),
        Err(error) => Err(FileStop::CannotCreate(cleaned(rt.alloc(), path)?, error)),
    }
}

/// The path of the file beside a new one into which is written what the new one is to hold.
pub fn part_of<R: AllocGlobal>(rt: &R, path: &str) -> Result<String, AllocError>
    ensures { IfOk result (λ part. string_bytes part ≡ part_of path.now) }
{
    let mut part = String::from_str(rt.alloc(), path)?;
    part.push_str(".part")?;
    Ok(part)
}

/// Who may use a new file: who may use the old one, where that is a regular file, and else what the umask has left to the
/// new one as it was created. Where the system tells neither, its owner.
pub fn mode_of<F: OpenFile>(old: &F, new: &F) -> u32 {
    match old.metadata() {
        Ok(metadata) if metadata.is_file() => nine_bits(&metadata),
        _ => match new.metadata() {
            Ok(metadata) => nine_bits(&metadata),
            Err(_) => PRIVATE,
        },
    }
}

/// The bits that say who may read, write and run a file.
fn nine_bits(metadata: &Metadata) -> u32
    ensures { result ≡ bit_and (metadata_mode metadata.now) 0o777 }
{
    metadata.mode() & 0o777
}
