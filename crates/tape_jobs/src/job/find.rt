//! The job `find`: where a text stands at a moment, and at which chunks it comes, goes, or does both.

ghost use Rattle.std.specs.Prelude.{◌≡◌, false, true, IfErr, IfOk, OnOk};
ghost use Rattle.tape_core.specs.Devices.{has_failed, is_flushed};
ghost use Rattle.tape_jobs.specs.Endings.{JobPuts};
ghost use Rattle.tape_jobs.specs.Output.{ending_of_find, is_some_text};
ghost use Rattle.tape_jobs.specs.Player.{found_of, played_of};
ghost use Rattle.tape_jobs.specs.Requests.{course_of};

use crate::answers::Answers;
use crate::job::{Ending, JobFault};
use crate::player::{Setup, set_up};
use crate::shared::{EVERY, open_session};
use command_line::Player;
use std::alloc::Global;
use std::io;
use std::io::Write;
use std::mem::ManuallyDrop;
use tape_core::{Recording, Watched};
use tape_seek::Session;

/// Writes the find lines, and flushes. Where memory is refused, a beginning of them has gone out.
pub fn write_found<O: Write>(
    alloc: Global,
    recording: Recording,
    player: Player,
    from: Option<u64>,
    to: u64,
    text: &[char],
    out: &mut Watched<O>,
) -> Result<Ending, JobFault>
    requires { has_failed out.old ≡ false }
    ensures puts { JobPuts O.contents out.old out.new
        (found_of (played_of player recording) recording from to text.now) result }
    ensures ending { IfOk result (λ ending. ending
        ≡ ending_of_find (is_some_text (found_of (played_of player recording) recording from to text.now))) }
    ensures flushed { OnOk result (is_flushed out.new ≡ true) }
{
    match set_up(player, &recording) {
        Setup::Vt(profile) => {
            write_lines::<vt_term::Terminal, O>(alloc, recording, profile, from, to, text, out)
        }
        Setup::Today(size) => {
            write_lines::<xterm_term::Terminal, O>(alloc, recording, size, from, to, text, out)
        }
    }
}

/// Writes those of a terminal that is set up so.
fn write_lines<T: Answers, O: Write>(
    alloc: Global,
    recording: Recording,
    profile: T::Profile,
    from: Option<u64>,
    to: u64,
    text: &[char],
    out: &mut Watched<O>,
) -> Result<Ending, JobFault>
    requires { has_failed out.old ≡ false }
    ensures puts { JobPuts O.contents out.old out.new
        (found_of (T.played profile) recording from to text.now) result }
    ensures ending { IfOk result (λ ending. ending
        ≡ ending_of_find (is_some_text (found_of (T.played profile) recording from to text.now))) }
    ensures flushed { OnOk result (is_flushed out.new ≡ true) }
{
    let session = open_session::<T>(alloc, recording, EVERY, profile)?;
    let mut session = ManuallyDrop::new(session);
    let found = put_lines(alloc, &mut *session, from, to, text, out)?;
    Ok(ending_of(found))
}

/// Writes the find lines of a session, flushes, and tells whether there is one. Where memory is refused, a beginning of
/// them has gone out.
pub fn put_lines<T: Answers, O: Write>(
    alloc: Global,
    session: &mut Session<T>,
    from: Option<u64>,
    to: u64,
    text: &[char],
    out: &mut Watched<O>,
) -> Result<bool, JobFault>
    requires { has_failed out.old ≡ false }
    ensures puts { JobPuts O.contents out.old out.new
        (found_of (T.played session.old.profile) session.old.recording from to text.now) result }
    ensures found { IfOk result (λ found. found ≡ is_some_text
        (found_of (T.played session.old.profile) session.old.recording from to text.now)) }
    ensures flushed { OnOk result (is_flushed out.new ≡ true) }
{
    // A writer that took bytes before doesn't tell whether it takes any now.
    let known = if out.written() {
        Some(finds(alloc, session, from, to, text)?)
    } else {
        None
    };
    T::put_found(alloc, session, from, to, text, out)?;
    Ok(known.unwrap_or(out.written()))
}

/// Whether the search writes a line, by doing it over a writer of its own. That takes all, so only want of memory stops it.
pub fn finds<T: Answers>(
    alloc: Global,
    session: &mut Session<T>,
    from: Option<u64>,
    to: u64,
    text: &[char],
) -> Result<bool, JobFault>
    ensures ok { IfOk result (λ found. found ≡ is_some_text
        (found_of (T.played session.old.profile) session.old.recording from to text.now)) }
    ensures fault { IfErr result (λ fault. fault ≡ JobFault.Memory) }
    ensures stays { course_of T.played session.new ≡ course_of T.played session.old }
{
    let mut taken = Watched::new(io::sink());
    let searched = T::put_found(alloc, session, from, to, text, &mut taken);
    searched.map_err(|_| JobFault::Memory)?;
    Ok(taken.written())
}

/// How a search ends, by whether a line was written.
fn ending_of(found: bool) -> Ending
    ensures { result ≡ ending_of_find found }
{
    if found {
        Ending::Clean
    } else {
        Ending::WithNothing
    }
}
