//! The job `mend`: both files anew of all that can be read of them, and then what was lost.

ghost use Rattle.std.specs.Prelude.{◌≡◌, ◌⊎◌, ◌≢◌, ℕ, List, None, OnOk, Some, false, true, IfErr, IfOk};
ghost use Rattle.tape_core.specs.Devices.{Gave, Puts, has_failed, inner_of, is_flushed};
ghost use Rattle.tape_core.specs.Faults.{is_stop};
ghost use Rattle.tape_core.specs.Reading.{has_header};
ghost use Rattle.tape_core.specs.declared.fault.Fault.TheVariants as fault;
ghost use Rattle.tape_jobs.specs.Endings.{JobEnds, TookPartOfBoth, used, writers_of};
ghost use Rattle.tape_jobs.specs.Mending.{MendEnds, is_doubtful, pair_of, remains_of, told_of, untimed_line, untimed_text};
ghost use Rattle.tape_jobs.specs.Output.{done_mending, ending_of_mend, is_lacking};
ghost use Rattle.tape_jobs.specs.Telling.{ThreeEnd};
ghost use Rattle.tape_mend.specs.Front.{is_sudos};
ghost use Rattle.tape_mend.specs.Mended.{mended, seen};
ghost use Rattle.tape_mend.specs.declared.opening.Header.{Header as How};

use crate::job::{Ending, JobFault, Outcome, outcome_of};
use command_line::Job;
use itoa::Buffer;
use std::alloc::Global;
use std::io::{Read, Write};
use std::mem::ManuallyDrop;
use tape_check::is_usual;
use tape_core::laws::gives_join;
use tape_core::{Fault, Watched, slurp, write_script, write_timing};
use tape_mend::{Header, Mended, put_losses};

/// How mending ended, and, where it is done, whether a file of the pair may be another one than it is taken for: reading
/// ended before line 1 of the timing, or the timing is sudo's, whose logs are compressed more often than not.
#[derive(Clone, Copy, Debug, PartialEq, Eq)]
pub struct Mending {
    pub outcome: Outcome,
    pub doubtful: bool,
}

/// Mends a pair of files: reads both whole, writes the typescript anew and then its timing, and tells what was lost, and
/// how many bytes have no timing, behind them.
///
/// It is done, with status 1 where a line or a chunk was left out or cut, or bytes behind the last chunk have no timing; or
/// refused, where no line of the typescript can be its header: then nothing is written. It ends for want of memory, or as
/// a device fails: then a beginning of the three texts has gone out, the timing not before the typescript is whole, and
/// what is told not before both files are; and nothing, where it ended while the files were read. No fault is retried.
pub fn mend<S: Read, T: Read, O: Write, P: Write, L: Write>(
    alloc: Global,
    header: Header,
    script: &mut Watched<S>,
    timing: &mut Watched<T>,
    out: &mut Watched<O>,
    out_timing: &mut Watched<P>,
    told: &mut Watched<L>,
) -> Mending
    requires script { has_failed script.old ≡ false }
    requires timing { has_failed timing.old ≡ false }
    requires out { has_failed out.old ≡ false }
    requires out_timing { has_failed out_timing.old ≡ false }
    requires told { has_failed told.old ≡ false }
    ensures ends { let pair = pair_of (used S.remaining script.old script.new)
        (used T.remaining timing.old timing.new) in
        let writers = writers_of (used O.contents out.old out.new)
        (used P.contents out_timing.old out_timing.new) in
        MendEnds pair writers (used L.contents told.old told.new) header result.outcome }
    ensures doubtful { result.outcome.fault ≡ None → (s : List ℕ) (t : List ℕ)
        → S.remaining (inner_of script.old) ≡ Some s → T.remaining (inner_of timing.old) ≡ Some t
        → result.doubtful ≡ is_doubtful t (mended header s t) }
{
    match read_remains(alloc, header, script, timing) {
        Ok(mended) => {
            let doubtful = is_doubtful(&mended);
            let done = write_and_tell(&ManuallyDrop::new(mended), out, out_timing, told);
            Mending {
                outcome: outcome_of(done),
                doubtful,
            }
        }
        Err(fault) => Mending {
            outcome: outcome_of(Err(JobFault::File(fault))),
            doubtful: false,
        },
    }
}

/// Whether a file of the pair may be another one than it is taken for.
fn is_doubtful(mended: &Mended) -> bool
    ensures { (t : List ℕ) → mended.now.sudo ≡ is_sudos t → result ≡ is_doubtful t (remains_of mended.now) }
{
    mended.sudo || matches!(mended.losses.lines, Some(left) if left.line == 1)
}

/// Reads both files whole, and then all that can be read of them.
pub fn read_remains<S: Read, T: Read>(
    alloc: Global,
    header: Header,
    script: &mut Watched<S>,
    timing: &mut Watched<T>,
) -> Result<Mended, Fault>
    requires script { has_failed script.old ≡ false }
    requires timing { has_failed timing.old ≡ false }
    ensures ok { IfOk result (λ m. (s : List ℕ) (t : List ℕ)
        → S.remaining (inner_of script.old) ≡ Some s → T.remaining (inner_of timing.old) ≡ Some t
        → (has_header (seen header s) ≡ true) × (mended header s t ≡ remains_of m)) }
    ensures sudo { IfOk result (λ m. (t : List ℕ) → T.remaining (inner_of timing.old) ≡ Some t
        → m.sudo ≡ is_sudos t) }
    ensures fault { IfErr result (λ f. is_stop f ≡ false → (f ≡ fault.NoHeader)
        × ((s : List ℕ) → S.remaining (inner_of script.old) ≡ Some s
        → has_header (seen header s) ≡ false)) }
    ensures sound { result ≢ Err Fault.ReadFault
        → (has_failed script.new ≡ false) × (has_failed timing.new ≡ false) }
    ensures read_fault { IfErr result (λ f. f ≡ fault.ReadFault
        → (has_failed script.new ≡ true) ⊎ (has_failed timing.new ≡ true)) }
    ensures no_write_fault { IfErr result (λ f. f ≢ fault.WriteFault) }
{
    let script = slurp(alloc, script)?;
    let timing = slurp(alloc, timing)?;
    tape_mend::mend(alloc, script, &timing, header)
}

/// Writes the whole script, and after it the timing, and flushes both.
pub fn write_remains<O: Write, P: Write>(
    mended: &Mended,
    out: &mut Watched<O>,
    out_timing: &mut Watched<P>,
) -> Result<Ending, JobFault>
    requires out { has_failed out.old ≡ false }
    requires out_timing { has_failed out_timing.old ≡ false }
    ensures ends { (how : How) → let writers = writers_of (used O.contents out.old out.new)
        (used P.contents out_timing.old out_timing.new) in
        JobEnds writers (Job.Mend how) (done_mending (remains_of mended.now)) result }
    ensures stopped { let writers = writers_of (used O.contents out.old out.new)
        (used P.contents out_timing.old out_timing.new) in
        IfErr result (λ f. (f ≡ JobFault.File fault.WriteFault)
        × TookPartOfBoth writers (done_mending (remains_of mended.now)) true) }
{
    write_script(&mended.recording, out)?;
    write_timing(&mended.recording, out_timing)?;
    Ok(ending_of(is_lacking(mended)))
}

/// Whether a line or a chunk was left out or cut, or bytes behind the last chunk have no timing.
fn is_lacking(mended: &Mended) -> bool
    ensures { result ≡ is_lacking (remains_of mended.now) }
{
    mended.losses.is_damaged() || !is_usual(mended.recording.trailer())
}

/// How mending ends, and importing, by whether something is lacking.
pub fn ending_of(lacking: bool) -> Ending
    ensures { result ≡ ending_of_mend lacking }
{
    if lacking {
        Ending::WithLosses
    } else {
        Ending::Clean
    }
}

/// Writes both files, and when they are whole tells what was lost, and how many bytes have no timing.
fn write_and_tell<O: Write, P: Write, L: Write>(
    mended: &Mended,
    out: &mut Watched<O>,
    out_timing: &mut Watched<P>,
    told: &mut Watched<L>,
) -> Result<Ending, JobFault>
    requires out { has_failed out.old ≡ false }
    requires out_timing { has_failed out_timing.old ≡ false }
    requires told { has_failed told.old ≡ false }
    ensures ends { (how : How) → let writers = writers_of (used O.contents out.old out.new)
        (used P.contents out_timing.old out_timing.new) in
        ThreeEnd writers (used L.contents told.old told.new) (Job.Mend how)
        (done_mending (remains_of mended.now)) (told_of (remains_of mended.now)) result }
{
    let ending = write_remains(mended, out, out_timing)?;
    tell(mended, told)?;
    Ok(ending)
}

/// Tells what was lost, and how many bytes have no timing, and flushes.
fn tell<L: Write>(mended: &Mended, told: &mut Watched<L>) -> Result<(), Fault>
    requires { has_failed told.old ≡ false }
    ensures puts { Puts L.contents told.old told.new (told_of (remains_of mended.now)) result }
    ensures flushed { OnOk result (is_flushed told.new ≡ true) }
{
    put_losses(&mended.losses, told)?;
    put_untimed(mended.recording.trailer(), told);
    told.settle()
}

/// Writes how many bytes behind the last chunk have no timing, where they are more than script's closing line.
fn put_untimed<L: Write>(trailer: &[u8], told: &mut Watched<L>)
    ensures { Gave L.contents told.old told.new (untimed_text trailer.now) }
{
    gives_join::<L>();
    if !is_usual(trailer) {
        put_untimed_line(trailer.len(), told);
    }
}

/// Writes how many bytes have no timing.
fn put_untimed_line<L: Write>(count: usize, told: &mut Watched<L>)
    ensures { Gave L.contents told.old told.new (untimed_line count) }
{
    told.give_all(&[
        Buffer::new().format(count).as_bytes(),
        b" bytes behind the last chunk have no timing\n",
    ]);
}
