//! The job `check`: what a recording says of itself, and what a terminal can't show of it.

ghost use Rattle.std.specs.Prelude.{◌≡◌, Err, false, true, IfOk, OnOk};
ghost use Rattle.tape_check.specs.Lines.{check_text, is_noted};
ghost use Rattle.tape_core.specs.Devices.{has_failed, is_flushed};
ghost use Rattle.tape_jobs.specs.Endings.{JobPuts};
ghost use Rattle.tape_jobs.specs.Output.{ending_of_check};
ghost use Rattle.tape_jobs.specs.Player.{played_of};

use crate::job::{Ending, JobFault};
use crate::player::played_as;
use command_line::Player;
use std::alloc::Global;
use std::io::Write;
use tape_check::write_check;
use tape_core::{Recording, Watched};

/// Writes the lines of a check of a recording, of which so many changes of size were left out, and flushes. Nothing is written where memory is refused.
pub fn write_checked<O: Write>(
    alloc: Global,
    recording: &Recording,
    player: Player,
    resizes: u64,
    out: &mut Watched<O>,
) -> Result<Ending, JobFault>
    requires { has_failed out.old ≡ false }
    ensures puts { JobPuts O.contents out.old out.new
        (check_text (played_of player recording.now) resizes recording.now) result }
    ensures ending { IfOk result (λ ending. ending
        ≡ ending_of_check (is_noted (played_of player recording.now) resizes recording.now)) }
    ensures flushed { OnOk result (is_flushed out.new ≡ true) }
    ensures unwritten { result ≡ Err JobFault.Memory → out.new ≡ out.old }
{
    let noted = write_check(alloc, recording, played_as(player, recording), resizes, out)?;
    out.settle()?;
    Ok(ending_of(noted))
}

/// How a check ends, by whether anything was noted.
fn ending_of(noted: bool) -> Ending
    ensures { result ≡ ending_of_check noted }
{
    if noted {
        Ending::WithNotes
    } else {
        Ending::Clean
    }
}
