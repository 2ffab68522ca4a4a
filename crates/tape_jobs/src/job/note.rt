//! The note that a job tells beside its output, of a recording that it plays.

ghost use Rattle.std.specs.Prelude.{◌≡◌, false, true, None, OnOk, Some};
ghost use Rattle.tape_check.specs.Lines.{note_line};
ghost use Rattle.tape_core.specs.Devices.{Puts, has_failed, is_flushed};
ghost use Rattle.command_line.specs.CommandLine.{played_by};
ghost use Rattle.tape_jobs.specs.Notes.{IsTold};
ghost use Rattle.tape_jobs.specs.Player.{played_of};
ghost use Rattle.command_line.specs.declared.player.Player.{Player as Played};

use crate::player::played_as;
use command_line::Job;
use std::io::Write;
use tape_check::{PlayedAs, put_parts};
use tape_core::{Fault, Recording, Watched};

/// Tells the note of a recording that a job plays, of which so many changes of size were left out, and flushes. A fault is
/// passed over.
pub fn tell_note<N: Write>(job: Job, recording: &Recording, resizes: u64, notes: &mut Watched<N>)
    requires { has_failed notes.old ≡ false }
    ensures told { (player : Played) → played_by job ≡ Some player
        → IsTold N.contents notes.old notes.new
        (note_line (played_of player recording.now) resizes recording.now) }
    ensures silent { played_by job ≡ None → notes.new ≡ notes.old }
{
    if let Some(player) = job.player() {
        let _ = put_note(recording, played_as(player, recording), resizes, notes);
    }
}

/// Writes the note of a recording, and flushes.
fn put_note<N: Write>(
    recording: &Recording,
    played: PlayedAs,
    resizes: u64,
    notes: &mut Watched<N>,
) -> Result<(), Fault>
    requires { has_failed notes.old ≡ false }
    ensures puts { Puts N.contents notes.old notes.new (note_line played resizes recording.now) result }
    ensures flushed { OnOk result (is_flushed notes.new ≡ true) }
{
    put_parts(recording, played, resizes, notes)?;
    notes.settle()
}
