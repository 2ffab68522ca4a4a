//! An asciicast of version 2 or 3, imported.
ghost use Rattle.std.specs.Prelude.{◌≡◌, IfOk};
ghost use Rattle.tape_import.specs.Imported.{Imports};
ghost use Rattle.tape_import.specs.ImportedCast.{cast_losses, import_of_cast};

use crate::asciicast::{CastFront, read_cast};
use crate::cast_header::{split_header, told_date, told_term};
use crate::facts::Facts;
use crate::imported::{Imported, imported_of, slow_at};
use crate::losses::{Losses, Place};
use crate::version::Version;
use std::alloc::{AllocError, Global};

/// What was lost of an asciicast.
fn losses_of(front: &CastFront) -> Losses
    ensures { result ≡ cast_losses front.now }
{
    Losses {
        first: None,
        left: front.left,
        cut: None,
        slow: front.cast.outputs.slow(),
        first_slow: slow_at(Place::Line, &front.cast.outputs),
        others: front.cast.others,
    }
}

/// Reads what can be read of an asciicast of this version. Refused for want of memory alone.
pub fn import_asciicast(
    alloc: Global,
    version: Version,
    text: &[u8],
) -> Result<Imported, AllocError>
    ensures { IfOk result (λ imported. Imports (import_of_cast version text.now)
        imported.recording imported.losses) }
{
    let front = read_cast(alloc, version, text)?;
    let first = split_header(text).0;
    let facts = Facts {
        date: told_date(alloc, first)?,
        term: told_term(alloc, version, first)?,
        size: front.cast.told,
    };
    let losses = losses_of(&front);
    imported_of(alloc, &facts, front.cast.outputs, losses)
}
