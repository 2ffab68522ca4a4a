//! The job `cast`: the recording as an asciicast.

ghost use Rattle.std.specs.Prelude.{◌≡◌, false, true, OnOk};
ghost use Rattle.output_cast.specs.Cast.{cast_text as output_text};
ghost use Rattle.screen_cast.specs.Cast.{cast_text};
ghost use Rattle.tape_core.specs.Devices.{has_failed, is_flushed};
ghost use Rattle.tape_jobs.specs.Endings.{JobPuts};
ghost use Rattle.tape_jobs.specs.Player.{played_of};
ghost use Rattle.tape_jobs.specs.Texts.{cast_of};

use crate::job::JobFault;
use crate::player::{Setup, set_up};
use crate::shared::{EVERY, open_session};
use command_line::Player;
use std::alloc::Global;
use std::io::Write;
use std::mem::ManuallyDrop;
use tape_core::{Recording, Watched};
use vt_term::Profile;
use xterm_term::Size;

/// Writes the cast, and flushes. Where memory is refused, a beginning of it has gone out.
#[tactic(auto, unfolding(crate::specs::Texts::cast_of))]
pub fn write_cast<O: Write>(
    alloc: Global,
    recording: Recording,
    player: Player,
    out: &mut Watched<O>,
) -> Result<(), JobFault>
    requires { has_failed out.old ≡ false }
    ensures puts { JobPuts O.contents out.old out.new (cast_of (played_of player recording) recording) result }
    ensures flushed { OnOk result (is_flushed out.new ≡ true) }
{
    match set_up(player, &recording) {
        Setup::Vt(profile) => write_drawn(alloc, recording, profile, out),
        Setup::Today(size) => write_output(&ManuallyDrop::new(recording), size, out),
    }
}

/// Writes a cast whose events draw what a VT shows.
fn write_drawn<O: Write>(
    alloc: Global,
    recording: Recording,
    profile: Profile,
    out: &mut Watched<O>,
) -> Result<(), JobFault>
    requires { has_failed out.old ≡ false }
    ensures puts { JobPuts O.contents out.old out.new (cast_text profile recording) result }
    ensures flushed { OnOk result (is_flushed out.new ≡ true) }
{
    let session = open_session(alloc, recording, EVERY, profile)?;
    screen_cast::cast(alloc, &mut ManuallyDrop::new(session), out)?;
    Ok(())
}

/// Writes a cast of the output itself, of this size.
fn write_output<O: Write>(
    recording: &Recording,
    size: Size,
    out: &mut Watched<O>,
) -> Result<(), JobFault>
    requires { has_failed out.old ≡ false }
    ensures puts { JobPuts O.contents out.old out.new (output_text size.columns size.lines recording.now) result }
    ensures flushed { OnOk result (is_flushed out.new ≡ true) }
{
    output_cast::cast(size.columns, size.lines, recording, out)?;
    Ok(())
}
