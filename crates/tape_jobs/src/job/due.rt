//! The job `due`: the bytes that are due by a moment.

ghost use Rattle.std.specs.Prelude.{◌≡◌, false, true, OnOk};
ghost use Rattle.tape_core.specs.Devices.{Puts, has_failed, is_flushed};
ghost use Rattle.tape_core.specs.Due.{due};

use std::io::Write;
use tape_core::{Fault, Recording, Watched, give_chunks};

/// Writes the bytes of the chunks that are due by the moment, and flushes.
#[tactic(auto, using(tape_core::proofs::DueLemmas::due_first))]
pub fn write_due<O: Write>(
    recording: &Recording,
    at: u64,
    out: &mut Watched<O>,
) -> Result<(), Fault>
    requires { has_failed out.old ≡ false }
    ensures puts { Puts O.contents out.old out.new (due recording.now.chunks at) result }
    ensures flushed { OnOk result (is_flushed out.new ≡ true) }
{
    let count = recording.due_count(at);
    give_chunks(&recording.chunks()[..count], out);
    out.settle()
}
