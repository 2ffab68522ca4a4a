//! The cast.

ghost use Rattle.std.specs.Prelude.{◌≡◌, OnOk, false, true};
ghost use Rattle.tape_core.specs.Devices.{Gave, Puts, has_failed, is_flushed};
ghost use Rattle.output_cast.specs.Cast.{cast_text, header_line};

use crate::events::put_events;
use itoa::Buffer;
use std::io::Write;
use tape_core::laws::gives_join;
use tape_core::{Fault, Recording, Watched};

/// Writes the recorded output as an asciicast, version 2, for a screen of so many columns and lines, and flushes. It takes
/// no memory. After a write fault a beginning of the text has gone out.
#[tactic(auto, unfolding(crate::specs::Cast::cast_text))]
pub fn cast<W: Write>(
    columns: u16,
    lines: u16,
    recording: &Recording,
    writer: &mut Watched<W>,
) -> Result<(), Fault>
    requires { has_failed writer.old ≡ false }
    ensures puts { Puts W.contents writer.old writer.new
        (cast_text columns lines recording.now) result }
    ensures flushed { OnOk result (is_flushed writer.new ≡ true) }
{
    gives_join::<W>();
    put_header(columns, lines, writer);
    put_events(recording, writer);
    writer.settle()
}

/// Writes the first line.
#[tactic(auto, unfolding(crate::specs::Cast::header_line))]
fn put_header<W: Write>(columns: u16, lines: u16, writer: &mut Watched<W>)
    ensures { Gave W.contents writer.old writer.new (header_line columns lines) }
{
    gives_join::<W>();
    writer.give(b"{\"version\": 2, \"width\": ");
    writer.give(Buffer::new().format(columns).as_bytes());
    writer.give(b", \"height\": ");
    writer.give(Buffer::new().format(lines).as_bytes());
    writer.give(b"}\n");
}
