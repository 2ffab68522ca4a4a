//! A recording of tlog, imported.
ghost use Rattle.std.specs.Prelude.{◌≡◌, IfOk, IfSome};
ghost use Rattle.std.specs.Option.{option_and_then};
ghost use Rattle.tape_core.specs.Text.{lines_of};
ghost use Rattle.tape_import.specs.Asciicast.{header_number};
ghost use Rattle.tape_import.specs.Imported.{Imports};
ghost use Rattle.tape_import.specs.Kept.{CanBeTold, IsSize};
ghost use Rattle.tape_import.specs.KeptTlog.{CanHead};
ghost use Rattle.tape_import.specs.TlogImported.{facts_by, import_of_tlog, late, log_losses};

use crate::cast_header::split_header;
use crate::facts::{Facts, Size};
use crate::imported::{Imported, imported_of, slow_at};
use crate::losses::{Late, Losses, Place};
use crate::tlog::{Log, LogFront, read_log};
use crate::tlog_message::Head;
use std::alloc::{AllocError, Global};

/// The number of the first message, where it isn't the first of its recording, and its line in this text.
fn late(first: &Option<Head>, text: &[u8]) -> Option<Late>
    ensures { result ≡ option_and_then (late (header_number (lines_of text.now))) first.now }
{
    match first {
        Some(head) if head.number > 1 => Some(Late {
            number: head.number,
            line: split_header(text).2,
        }),
        _ => None,
    }
}

/// What was lost of the recording that a text is.
fn losses_of(text: &[u8], front: &LogFront) -> Losses
    ensures { result ≡ log_losses text.now front.now }
{
    Losses {
        first: late(&front.log.first, text),
        left: front.left,
        cut: None,
        slow: front.log.cast.outputs.slow(),
        first_slow: slow_at(Place::Line, &front.log.cast.outputs),
        others: front.log.cast.others,
    }
}

/// What it tells of itself.
fn facts_of(first: Option<Head>, size: Option<Size>) -> Facts
    requires first { IfSome first CanHead }
    requires size { IfSome size IsSize }
    ensures facts { result ≡ facts_by first size }
    ensures told { CanBeTold result }
{
    match first {
        Some(head) => Facts {
            date: head.date,
            term: head.term,
            size,
        },
        None => Facts {
            date: None,
            term: None,
            size,
        },
    }
}

/// Reads what can be read of a recording of tlog. Refused for want of memory alone.
pub fn import_tlog(alloc: Global, text: &[u8]) -> Result<Imported, AllocError>
    ensures { IfOk result (λ imported. Imports (import_of_tlog text.now)
        imported.recording imported.losses) }
{
    let front = read_log(alloc, text)?;
    let losses = losses_of(text, &front);
    let Log { cast, first, .. } = front.log;
    let facts = facts_of(first, cast.told);
    imported_of(alloc, &facts, cast.outputs, losses)
}
