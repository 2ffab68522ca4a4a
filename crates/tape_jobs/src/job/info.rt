//! The job `info`: what a recording holds, in five lines.

ghost use Rattle.std.specs.Prelude.{◌≡◌, false, true, OnOk};
ghost use Rattle.tape_core.specs.Devices.{Puts, has_failed, is_flushed};
ghost use Rattle.tape_jobs.specs.Info.{info_text};

use crate::shared::put_info;
use std::io::Write;
use tape_core::{Fault, Recording, Watched};

/// Writes the five lines, and flushes.
pub fn write_info<O: Write>(recording: &Recording, out: &mut Watched<O>) -> Result<(), Fault>
    requires { has_failed out.old ≡ false }
    ensures puts { Puts O.contents out.old out.new (info_text recording.now) result }
    ensures flushed { OnOk result (is_flushed out.new ≡ true) }
{
    put_info(recording, out);
    out.settle()
}
