//! The job `transcript`: the session as text.

ghost use Rattle.std.specs.Prelude.{◌≡◌, false, true, OnOk};
ghost use Rattle.tape_core.specs.Devices.{has_failed, is_flushed};
ghost use Rattle.tape_jobs.specs.Endings.{JobPuts};
ghost use Rattle.tape_jobs.specs.Player.{played_of};
ghost use Rattle.tape_jobs.specs.Texts.{transcript_of};
ghost use Rattle.transcripts.specs.Transcript.{transcript};

use crate::job::JobFault;
use crate::player::{Setup, set_up};
use command_line::Player;
use screen_transcript::Transcriber;
use std::alloc::Global;
use std::io::Write;
use tape_core::{Recording, Watched};
use transcripts::{Transcribes, transcript};
use xterm_transcript::Transcriber as TodaysTranscriber;

/// Writes the transcript, and flushes. Where memory is refused, a beginning of it has gone out.
#[tactic(auto, using(crate::proofs::PlayerLemmas::transcript_of_size), unfolding(crate::specs::Texts::transcript_of))]
pub fn write_transcript<O: Write>(
    alloc: Global,
    recording: &Recording,
    player: Player,
    from: Option<u64>,
    to: Option<u64>,
    out: &mut Watched<O>,
) -> Result<(), JobFault>
    requires { has_failed out.old ≡ false }
    ensures puts { JobPuts O.contents out.old out.new
        (transcript_of (played_of player recording.now) recording.now from to) result }
    ensures flushed { OnOk result (is_flushed out.new ≡ true) }
{
    match set_up(player, recording) {
        Setup::Vt(profile) => {
            write_rows::<Transcriber, O>(alloc, recording, profile, from, to, out)
        }
        Setup::Today(size) => {
            write_rows::<TodaysTranscriber, O>(alloc, recording, size, from, to, out)
        }
    }
}

/// Writes that of a terminal that is set up so.
fn write_rows<T: Transcribes, O: Write>(
    alloc: Global,
    recording: &Recording,
    profile: T::Profile,
    from: Option<u64>,
    to: Option<u64>,
    out: &mut Watched<O>,
) -> Result<(), JobFault>
    requires { has_failed out.old ≡ false }
    ensures puts { JobPuts O.contents out.old out.new
        (transcript T.leaving T.standing profile recording.now from to) result }
    ensures flushed { OnOk result (is_flushed out.new ≡ true) }
{
    transcript::<T, O>(alloc, profile, recording, from, to, out)?;
    Ok(())
}
