//! The job `import`: a recording of another form as a pair of files, and then what was lost.

ghost use Rattle.std.specs.Prelude.{◌≡◌, ◌≢◌, ℕ, List, OnOk, Some, false, true, IfErr, IfOk};
ghost use Rattle.tape_core.specs.Devices.{Puts, has_failed, inner_of, is_flushed};
ghost use Rattle.tape_core.specs.declared.fault.Fault.TheVariants as fault;
ghost use Rattle.tape_import.specs.ImportedFile.{IsImported, import_of};
ghost use Rattle.tape_import.specs.Told.{losses_text};
ghost use Rattle.tape_jobs.specs.Endings.{JobEnds, TookPartOfBoth, used, writers_of};
ghost use Rattle.tape_jobs.specs.Importing.{ImportEnds, IsOfForm};
ghost use Rattle.tape_jobs.specs.Output.{HasNoForm, done_importing, is_stopped};
ghost use Rattle.tape_jobs.specs.Telling.{ThreeEnd};

use crate::job::mend::ending_of;
use crate::job::{Ending, JobFault, Outcome, outcome_of};
use command_line::Job;
use std::alloc::Global;
use std::io::{Read, Write};
use std::mem::ManuallyDrop;
use std::rc::Rc;
use tape_core::{Fault, Watched, slurp, write_script, write_timing};
use tape_import::{Imported, put_losses};

/// Imports a recording of another form: reads it whole, writes the typescript and then its timing, and tells what was lost.
///
/// It is done, with status 1 where something was left out or cut, and not just events for which a pair has no place; or
/// refused, where the recording is compressed or its form isn't known: then nothing is written. It ends for want of
/// memory, or as a device fails: then a beginning of the three texts has gone out, the timing not before the typescript is
/// whole, and what is told not before both files are; and nothing, where it ended while the recording was read. No fault
/// is retried.
pub fn import<S: Read, O: Write, P: Write, L: Write>(
    alloc: Global,
    recording: &mut Watched<S>,
    out: &mut Watched<O>,
    out_timing: &mut Watched<P>,
    told: &mut Watched<L>,
) -> Outcome
    requires recording { has_failed recording.old ≡ false }
    requires out { has_failed out.old ≡ false }
    requires out_timing { has_failed out_timing.old ≡ false }
    requires told { has_failed told.old ≡ false }
    ensures { let writers = writers_of (used O.contents out.old out.new)
        (used P.contents out_timing.old out_timing.new) in
        ImportEnds (used S.remaining recording.old recording.new) writers
        (used L.contents told.old told.new) result }
{
    match read_imported(alloc, recording) {
        Ok(imported) => {
            outcome_of(write_and_tell(&ManuallyDrop::new(imported), out, out_timing, told))
        }
        Err(fault) => outcome_of(Err(fault)),
    }
}

/// Reads a recording whole, and then all that can be read of it.
pub fn read_imported<S: Read>(
    alloc: Global,
    recording: &mut Watched<S>,
) -> Result<Imported, JobFault>
    requires { has_failed recording.old ≡ false }
    ensures ok { IfOk result (λ imported. (file : List ℕ)
        → S.remaining (inner_of recording.old) ≡ Some file
        → IsImported (import_of file) imported.recording imported.losses) }
    ensures fault { IfErr result (λ f. is_stopped (Some f) ≡ false → (file : List ℕ)
        → S.remaining (inner_of recording.old) ≡ Some file → HasNoForm file f) }
    ensures form { IfErr result (λ f. is_stopped (Some f) ≡ false → IsOfForm (Some f)) }
    ensures sound { result ≢ Err (JobFault.File fault.ReadFault)
        → has_failed recording.new ≡ false }
    ensures read_fault { IfErr result (λ f. f ≡ JobFault.File fault.ReadFault
        → has_failed recording.new ≡ true) }
    ensures no_write_fault { IfErr result (λ f. f ≢ JobFault.File fault.WriteFault) }
    ensures memory { IfErr result (λ f. f ≢ JobFault.Memory) }
{
    let file = slurp(alloc, recording)?;
    let Ok(file) = Rc::new(alloc, file) else {
        return Err(JobFault::File(Fault::OutOfMemory));
    };
    Ok(tape_import::import(alloc, &file)?)
}

/// Writes the whole script, and after it the timing, and flushes both.
pub fn write_imported<O: Write, P: Write>(
    imported: &Imported,
    out: &mut Watched<O>,
    out_timing: &mut Watched<P>,
) -> Result<Ending, JobFault>
    requires out { has_failed out.old ≡ false }
    requires out_timing { has_failed out_timing.old ≡ false }
    ensures ends { let writers = writers_of (used O.contents out.old out.new)
        (used P.contents out_timing.old out_timing.new) in
        JobEnds writers Job.Import
        (done_importing imported.now.recording imported.now.losses) result }
    ensures stopped { let writers = writers_of (used O.contents out.old out.new)
        (used P.contents out_timing.old out_timing.new) in
        IfErr result (λ f. (f ≡ JobFault.File fault.WriteFault)
        × TookPartOfBoth writers (done_importing imported.now.recording imported.now.losses) true) }
{
    write_script(&imported.recording, out)?;
    write_timing(&imported.recording, out_timing)?;
    Ok(ending_of(imported.losses.is_damaged()))
}

/// Writes both files, and when they are whole tells what was lost.
fn write_and_tell<O: Write, P: Write, L: Write>(
    imported: &Imported,
    out: &mut Watched<O>,
    out_timing: &mut Watched<P>,
    told: &mut Watched<L>,
) -> Result<Ending, JobFault>
    requires out { has_failed out.old ≡ false }
    requires out_timing { has_failed out_timing.old ≡ false }
    requires told { has_failed told.old ≡ false }
    ensures { let writers = writers_of (used O.contents out.old out.new)
        (used P.contents out_timing.old out_timing.new) in
        ThreeEnd writers (used L.contents told.old told.new) Job.Import
        (done_importing imported.now.recording imported.now.losses)
        (losses_text imported.now.losses) result }
{
    let ending = write_imported(imported, out, out_timing)?;
    tell(imported, told)?;
    Ok(ending)
}

/// Tells what was lost, and flushes.
fn tell<L: Write>(imported: &Imported, told: &mut Watched<L>) -> Result<(), Fault>
    requires { has_failed told.old ≡ false }
    ensures puts { Puts L.contents told.old told.new (losses_text imported.now.losses) result }
    ensures flushed { OnOk result (is_flushed told.new ≡ true) }
{
    put_losses(&imported.losses, told)?;
    told.settle()
}
