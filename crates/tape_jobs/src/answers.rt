//! What is asked of a terminal on the recording that it plays, and what writes the answers.

use crate::job::JobFault;
use plays::Plays;
use std::alloc::Global;
use std::io::Write;
use tape_core::Watched;
use tape_seek::Session;

mod today;
mod vt;

/// What is asked at a moment.
#[derive(Clone, Copy, Debug, PartialEq, Eq)]
pub enum Asked {
    /// The screen as plain text.
    Screen,
    /// The screen as a text that draws it again.
    Escaped,
    /// All that the terminal is, as a text that makes any terminal like it the same.
    State,
    /// The screen as a picture.
    Picture,
    /// All that the terminal has sent.
    Reports,
}

/// A question, and the moment that it is on.
#[derive(Clone, Copy, Debug, PartialEq, Eq)]
pub struct Question {
    pub asked: Asked,
    pub at: u64,
}

/// A terminal that answers questions on the recording that it plays. What feeds is a function of the lowest crate that names
/// the terminal, so that it is compiled once.
pub trait Answers: Plays {
    ghost use Rattle.std.specs.Prelude.{◌≡◌, Err, OnOk, false, true};
    ghost use Rattle.tape_core.specs.Devices.{has_failed, is_flushed};
    ghost use Rattle.tape_jobs.specs.Endings.{JobPuts};
    ghost use Rattle.tape_jobs.specs.Moment.{told_at};
    ghost use Rattle.tape_jobs.specs.Player.{changes_of, found_of};
    ghost use Rattle.tape_jobs.specs.Requests.{course_of};
    ghost use Rattle.tape_check.specs.declared.played.PlayedAs.{PlayedAs};

    /// As what it plays, where it is set up so.
    ghost played: { Self.Profile → PlayedAs };

    /// Answers a question, and flushes. Nothing is written where memory is refused.
    fn put_answer<O: Write>(
        session: &mut Session<Self>,
        question: Question,
        out: &mut Watched<O>,
    ) -> Result<(), JobFault>
        requires { has_failed out.old ≡ false }
        ensures puts { JobPuts O.contents out.old out.new
            (told_at (played session.old.profile) session.old.recording question) result }
        ensures flushed { OnOk result (is_flushed out.new ≡ true) }
        ensures unwritten { result ≡ Err JobFault.Memory → out.new ≡ out.old }
        ensures stays { course_of played session.new ≡ course_of played session.old };

    /// Writes the change lines of the chunks that are due after `from` (None: from chunk 0 on) and by `to`, and flushes.
    /// Where memory is refused, a beginning of them has gone out.
    fn put_changes<O: Write>(
        alloc: Global,
        session: &mut Session<Self>,
        from: Option<u64>,
        to: u64,
        out: &mut Watched<O>,
    ) -> Result<(), JobFault>
        requires { has_failed out.old ≡ false }
        ensures puts { JobPuts O.contents out.old out.new
            (changes_of (played session.old.profile) session.old.recording from to) result }
        ensures flushed { OnOk result (is_flushed out.new ≡ true) }
        ensures stays { course_of played session.new ≡ course_of played session.old };

    /// Writes the find lines of a text at the moment `from`, and of the chunks that are due after it (None: from chunk 0 on)
    /// and by `to`, and flushes. Where memory is refused, a beginning of them has gone out.
    fn put_found<O: Write>(
        alloc: Global,
        session: &mut Session<Self>,
        from: Option<u64>,
        to: u64,
        text: &[char],
        out: &mut Watched<O>,
    ) -> Result<(), JobFault>
        requires { has_failed out.old ≡ false }
        ensures puts { JobPuts O.contents out.old out.new
            (found_of (played session.old.profile) session.old.recording from to text.now) result }
        ensures flushed { OnOk result (is_flushed out.new ≡ true) }
        ensures stays { course_of played session.new ≡ course_of played session.old };
}
