//! The new files of a job, which are whole or refused.
//!
//! Both are made, empty, before anything is read, and beside each a `.part` file, into which is written what the new one
//! is to hold. When both are whole the steps below put them in place.

ghost use Rattle.std.specs.Prelude.{◌≡◌, IfErr, IfOk, false, true};
ghost use Rattle.tape_core.specs.Devices.{has_failed};
ghost use Rattle.job_files.specs.Pair.{is_in_place, is_safe};
ghost use Rattle.job_files.specs.Opening.{IsNoPair, IsNotCreated, part_of};

use crate::devices::{buffered, released};
use crate::files::{create, create_private, mode_of, part_of};
use crate::stop::FileStop;
use std::fs::{OpenFile, Permissions};
use std::io::BufWriter;
use std::os::unix::fs::PermissionsExt;
use std::path::Path;
use std::rt::Files;
use std::{fs, io};
use tape_core::Watched;

/// Which of the new files.
#[derive(Clone, Copy, Debug, PartialEq, Eq)]
pub enum New {
    Script,
    Timing,
}

/// A step that puts a new file in place.
#[derive(Clone, Copy, Debug, PartialEq, Eq)]
pub enum Step {
    /// What was written into its `.part` file, and who may use it, is on the disk.
    Sync(New),
    /// The `.part` file gets its name.
    Rename(New),
    /// The name is on the disk.
    SyncName(New),
}

impl Step {
    /// For which file it is.
    fn new_file(self) -> New {
        match self {
            Step::Sync(new) | Step::Rename(new) | Step::SyncName(new) => new,
        }
    }
}

/// All steps, in their order.
fn steps() -> [Step; 6]
    // Before each step, after the last, and after a crash of the machine there, the pair is refused or whole.
    ensures safe { is_safe result ≡ true }
    ensures whole { is_in_place result ≡ true }
{
    [
        Step::Sync(New::Script),
        Step::Sync(New::Timing),
        Step::Rename(New::Timing),
        Step::SyncName(New::Timing),
        Step::Rename(New::Script),
        Step::SyncName(New::Script),
    ]
}

/// A new file that is being written. It isn't dropped: whoever has it puts it in place or gives it up.
pub struct NewFile<'a, F: io::Write + Drop> {
    path: &'a str,
    part: String,
    mode: u32,
    pub out: Watched<BufWriter<F>>,
}

/// The two new files.
pub struct NewPair<'a, F: io::Write + Drop> {
    pub script: NewFile<'a, F>,
    pub timing: NewFile<'a, F>,
}

/// A new file that is written, and whether it has its name.
struct Written<'a, F> {
    path: &'a str,
    part: String,
    mode: u32,
    file: F,
    renamed: bool,
}

/// Creates both new files, and then their `.part` files, the script's first. The first that can't be created decides: then
/// no `.part` file is left.
pub fn create_pair<'a, R: Files + AllocGlobal>(
    rt: &R,
    paths: (&'a str, &'a str),
    old: (&R::File, &R::File),
) -> Result<NewPair<'a, R::File>, FileStop>
    ensures sound { IfOk result (λ pair. (has_failed pair.script.out ≡ false)
        × (has_failed pair.timing.out ≡ false)) }
    ensures stop { IfErr result (IsNoPair paths.entry.0.now paths.entry.1.now) }
{
    let script = create(rt, paths.0)?;
    let timing = create(rt, paths.1)?;
    let script = create_file(rt, paths.0, mode_of(old.0, &script))?;
    match create_file(rt, paths.1, mode_of(old.1, &timing)) {
        Ok(timing) => Ok(NewPair { script, timing }),
        Err(stop) => {
            script.written().give_up(rt);
            Err(stop)
        }
    }
}

/// Creates the `.part` file of a new one.
fn create_file<'a, R: Files + AllocGlobal>(
    rt: &R,
    path: &'a str,
    mode: u32,
) -> Result<NewFile<'a, R::File>, FileStop>
    ensures sound { IfOk result (λ new. has_failed new.out ≡ false) }
    ensures stop { IfErr result (IsNotCreated (part_of path.entry.now)) }
{
    let part = part_of(rt, path)?;
    let file = create_private(rt, part.as_str())?;
    match buffered(rt, file) {
        Ok(out) => Ok(NewFile {
            path,
            part,
            mode,
            out,
        }),
        Err(stop) => {
            let _ = fs::remove_file(rt, part.as_str());
            Err(stop)
        }
    }
}

impl<'a, F: io::Write + Drop> NewFile<'a, F> {
    /// The file, behind its buffer.
    fn written(self) -> Written<'a, F> {
        let NewFile {
            path,
            part,
            mode,
            out,
        } = self;
        Written {
            path,
            part,
            mode,
            file: released(out),
            renamed: false,
        }
    }
}

impl<F: OpenFile + Drop> Written<'_, F> {
    /// Takes a step of this file.
    fn take(&mut self, rt: &impl Files, step: Step) -> io::Result<()> {
        match step {
            Step::Sync(_) => self.sync(),
            Step::Rename(_) => self.rename(rt),
            Step::SyncName(_) => sync_directory(rt, self.path),
        }
    }

    /// Has the disk keep what was written, and who may use it.
    fn sync(&self) -> io::Result<()> {
        self.file
            .set_permissions(Permissions::from_mode(self.mode))?;
        self.file.sync_all()
    }

    /// Gives the `.part` file its name.
    fn rename(&mut self, rt: &impl Files) -> io::Result<()> {
        fs::rename(rt, self.part.as_str(), self.path)?;
        self.renamed = true;
        Ok(())
    }

    /// Leaves the new file as it is.
    fn keep(self) {
        let Written {
            path: _,
            part: _,
            mode: _,
            file: _,
            renamed: _,
        } = self;
    }

    /// Leaves the new file empty, with no `.part` file.
    fn give_up(self, rt: &impl Files) {
        let Written {
            path: _,
            part,
            mode: _,
            file,
            renamed,
        } = self;
        let _ = if renamed {
            file.set_len(0)
        } else {
            fs::remove_file(rt, part.as_str())
        };
    }
}

/// Has the disk keep the names of a file's directory.
fn sync_directory<R: Files>(rt: &R, path: &str) -> io::Result<()> {
    let directory = match Path::new(path).parent() {
        Some(parent) if parent.as_str().is_empty() => ".",
        Some(parent) => parent.as_str(),
        None => path,
    };
    fs::open(rt, directory)?.sync_all()
}

impl<F: io::Write + OpenFile + Drop> NewPair<'_, F> {
    /// Puts both files, when they are written, in place. Where a step fails both are left empty, with no `.part` file, and
    /// the answer is which of them it was for.
    pub fn put_in_place<R: Files<File = F>>(self, rt: &R) -> Result<(), New> {
        let NewPair { script, timing } = self;
        let mut script = script.written();
        let mut timing = timing.written();
        let taken = take_steps(rt, &mut script, &mut timing);
        if taken.is_ok() {
            script.keep();
            timing.keep();
        } else {
            script.give_up(rt);
            timing.give_up(rt);
        }
        taken
    }

    /// Leaves both files empty, with no `.part` file.
    pub fn give_up<R: Files<File = F>>(self, rt: &R) {
        let NewPair { script, timing } = self;
        script.written().give_up(rt);
        timing.written().give_up(rt);
    }
}

/// Takes all steps, up to the first that fails.
fn take_steps<R: Files<File = F>, F: OpenFile + Drop>(
    rt: &R,
    script: &mut Written<'_, F>,
    timing: &mut Written<'_, F>,
) -> Result<(), New> {
    for step in steps() {
        let new = step.new_file();
        let taken = match new {
            New::Script => script.take(rt, step),
            New::Timing => timing.take(rt, step),
        };
        if taken.is_err() {
            return Err(new);
        }
    }
    Ok(())
}
