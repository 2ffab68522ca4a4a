//! The jobs `screen`, `picture` and `reports`: what a terminal shows at a moment, and what it has sent by then.

ghost use Rattle.std.specs.Prelude.{◌≡◌, Err, false, true, OnOk};
ghost use Rattle.tape_core.specs.Devices.{has_failed, is_flushed};
ghost use Rattle.tape_jobs.specs.Endings.{JobPuts};
ghost use Rattle.tape_jobs.specs.Moment.{drawn_at, printed_at, sent_at, told_at};
ghost use Rattle.tape_jobs.specs.Player.{played_of};

use crate::answers::{Answers, Asked, Question};
use crate::job::JobFault;
use crate::player::{Setup, set_up};
use crate::shared::{EVERY, open_session};
use command_line::{Player, Print};
use std::alloc::Global;
use std::io::Write;
use std::mem::ManuallyDrop;
use tape_core::{Recording, Watched};

/// Prints the screen of the moment, and flushes. Nothing is written where memory is refused.
pub fn write_screen<O: Write>(
    alloc: Global,
    recording: Recording,
    print: Print,
    at: u64,
    out: &mut Watched<O>,
) -> Result<(), JobFault>
    requires { has_failed out.old ≡ false }
    ensures puts { JobPuts O.contents out.old out.new (printed_at print recording at) result }
    ensures flushed { OnOk result (is_flushed out.new ≡ true) }
    ensures unwritten { result ≡ Err JobFault.Memory → out.new ≡ out.old }
{
    match print {
        Print::Plain(player) => {
            let asked = Asked::Screen;
            write_answer(alloc, recording, player, Question { asked, at }, out)
        }
        Print::Escaped(player) => {
            let asked = Asked::Escaped;
            write_answer(alloc, recording, player, Question { asked, at }, out)
        }
        Print::State(player) => {
            let asked = Asked::State;
            write_answer(alloc, recording, player, Question { asked, at }, out)
        }
    }
}

/// Draws the screen of the moment, and flushes. Nothing is written where memory is refused.
pub fn write_picture<O: Write>(
    alloc: Global,
    recording: Recording,
    player: Player,
    at: u64,
    out: &mut Watched<O>,
) -> Result<(), JobFault>
    requires { has_failed out.old ≡ false }
    ensures puts { JobPuts O.contents out.old out.new (drawn_at (played_of player recording) recording at) result }
    ensures flushed { OnOk result (is_flushed out.new ≡ true) }
    ensures unwritten { result ≡ Err JobFault.Memory → out.new ≡ out.old }
{
    let asked = Asked::Picture;
    write_answer(alloc, recording, player, Question { asked, at }, out)
}

/// Writes all that the terminal has sent by the moment, and flushes. Nothing is written where memory is refused.
pub fn write_reports<O: Write>(
    alloc: Global,
    recording: Recording,
    player: Player,
    at: u64,
    out: &mut Watched<O>,
) -> Result<(), JobFault>
    requires { has_failed out.old ≡ false }
    ensures puts { JobPuts O.contents out.old out.new (sent_at (played_of player recording) recording at) result }
    ensures flushed { OnOk result (is_flushed out.new ≡ true) }
    ensures unwritten { result ≡ Err JobFault.Memory → out.new ≡ out.old }
{
    let asked = Asked::Reports;
    write_answer(alloc, recording, player, Question { asked, at }, out)
}

/// Answers a question on a recording, and flushes. Nothing is written where memory is refused.
fn write_answer<O: Write>(
    alloc: Global,
    recording: Recording,
    player: Player,
    question: Question,
    out: &mut Watched<O>,
) -> Result<(), JobFault>
    requires { has_failed out.old ≡ false }
    ensures puts { JobPuts O.contents out.old out.new (told_at (played_of player recording) recording question) result }
    ensures flushed { OnOk result (is_flushed out.new ≡ true) }
    ensures unwritten { result ≡ Err JobFault.Memory → out.new ≡ out.old }
{
    match set_up(player, &recording) {
        Setup::Vt(profile) => {
            put_from_start::<vt_term::Terminal, O>(alloc, recording, profile, question, out)
        }
        Setup::Today(size) => {
            put_from_start::<xterm_term::Terminal, O>(alloc, recording, size, question, out)
        }
    }
}

/// Answers a question on a recording that a terminal plays which is set up so, and flushes.
fn put_from_start<T: Answers, O: Write>(
    alloc: Global,
    recording: Recording,
    profile: T::Profile,
    question: Question,
    out: &mut Watched<O>,
) -> Result<(), JobFault>
    requires { has_failed out.old ≡ false }
    ensures puts { JobPuts O.contents out.old out.new
        (told_at (T.played profile) recording question) result }
    ensures flushed { OnOk result (is_flushed out.new ≡ true) }
    ensures unwritten { result ≡ Err JobFault.Memory → out.new ≡ out.old }
{
    let session = open_session::<T>(alloc, recording, EVERY, profile)?;
    T::put_answer(&mut ManuallyDrop::new(session), question, out)
}
