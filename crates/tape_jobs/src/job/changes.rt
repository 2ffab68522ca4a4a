//! The job `changes`: which lines of the screen each chunk changes.

ghost use Rattle.std.specs.Prelude.{◌≡◌, false, true, OnOk};
ghost use Rattle.tape_core.specs.Devices.{has_failed, is_flushed};
ghost use Rattle.tape_jobs.specs.Endings.{JobPuts};
ghost use Rattle.tape_jobs.specs.Player.{changes_of, played_of};

use crate::answers::Answers;
use crate::job::JobFault;
use crate::player::{Setup, set_up};
use crate::shared::{EVERY, open_session};
use command_line::Player;
use std::alloc::Global;
use std::io::Write;
use std::mem::ManuallyDrop;
use tape_core::{Recording, Watched};

/// Writes the change lines, and flushes. Where memory is refused, a beginning of them has gone out.
pub fn write_changes<O: Write>(
    alloc: Global,
    recording: Recording,
    player: Player,
    from: Option<u64>,
    to: u64,
    out: &mut Watched<O>,
) -> Result<(), JobFault>
    requires { has_failed out.old ≡ false }
    ensures puts { JobPuts O.contents out.old out.new
        (changes_of (played_of player recording) recording from to) result }
    ensures flushed { OnOk result (is_flushed out.new ≡ true) }
{
    match set_up(player, &recording) {
        Setup::Vt(profile) => {
            write_lines::<vt_term::Terminal, O>(alloc, recording, profile, from, to, out)
        }
        Setup::Today(size) => {
            write_lines::<xterm_term::Terminal, O>(alloc, recording, size, from, to, out)
        }
    }
}

/// Writes those of a terminal that is set up so.
fn write_lines<T: Answers, O: Write>(
    alloc: Global,
    recording: Recording,
    profile: T::Profile,
    from: Option<u64>,
    to: u64,
    out: &mut Watched<O>,
) -> Result<(), JobFault>
    requires { has_failed out.old ≡ false }
    ensures puts { JobPuts O.contents out.old out.new
        (changes_of (T.played profile) recording from to) result }
    ensures flushed { OnOk result (is_flushed out.new ≡ true) }
{
    let session = open_session::<T>(alloc, recording, EVERY, profile)?;
    T::put_changes(alloc, &mut ManuallyDrop::new(session), from, to, out)
}
