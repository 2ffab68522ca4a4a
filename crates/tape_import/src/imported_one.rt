//! An asciicast of version 1, imported.
ghost use Rattle.std.specs.Prelude.{◌≡◌, ◌≤◌, IfOk, IfSome, MatchOption, codes, false, true};
ghost use Rattle.std.specs.List.{AllPass};
ghost use Rattle.std.specs.Option.{option_and_then};
ghost use Rattle.json_bytes.specs.Numbers.{plain_digits};
ghost use Rattle.json_bytes.specs.Values.{member_of, number_of};
ghost use Rattle.tape_import.specs.Asciicast.{date_of, sides_of, term_of};
ghost use Rattle.tape_import.specs.AsciicastOne.{asciicast_one_of, is_asciicast_one, is_written_one};
ghost use Rattle.tape_import.specs.Dates.{last_second};
ghost use Rattle.tape_import.specs.Facts.{is_term_byte};
ghost use Rattle.tape_import.specs.Imported.{Imports};
ghost use Rattle.tape_import.specs.ImportedCast.{import_of_one, one_facts, one_losses};
ghost use Rattle.tape_import.specs.Kept.{CanBeTold, IsSize};
ghost use Rattle.tape_import.specs.ShownOne.{named_at, shown_front, value_at};

use crate::asciicast_one::{FrontOne, read_cast_one};
use crate::cast_header::{date_at, side_at, term_at};
use crate::facts::{Facts, Size, size_of};
use crate::imported::{Imported, bytes_left, imported_of, slow_at};
use crate::losses::{Losses, Others, Place};
use crate::places::Places;
use json_bytes::{DEEPEST, member, plain_digits};
use std::alloc::{AllocError, Global};
use tape_core::Bytes;

/// Whether the value at this place is the number 1.
fn is_one(place: Option<&[u8]>) -> bool
    ensures { result
        ≡ is_written_one (option_and_then plain_digits (number_of (value_at place.entry))) }
{
    let Some(place) = place else {
        return false;
    };
    match plain_digits(place) {
        Some(digits) => digits == b"1".as_slice(),
        None => false,
    }
}

/// The size that the values at these places tell.
fn size_at(width: Option<&[u8]>, height: Option<&[u8]>) -> Option<Size>
    ensures size { result ≡ sides_of (value_at width.entry) (value_at height.entry) }
    ensures small { IfSome result IsSize }
{
    size_of(side_at(width?), side_at(height?))
}

/// The name of the terminal that the environment at this place tells.
fn term_inside(alloc: Global, env: Option<&[u8]>) -> Result<Option<Bytes>, AllocError>
    ensures term { IfOk result (λ term.
        term ≡ term_of (member_of (codes "TERM") (value_at env.entry))) }
    ensures bytes { IfOk result (λ term. IfSome term (AllPass is_term_byte)) }
{
    let Some(env) = env else {
        return Ok(None);
    };
    match member(alloc, env, b"TERM", DEEPEST - 2)? {
        Some(place) => term_at(alloc, place),
        None => Ok(None),
    }
}

/// The second that the value at this place tells.
fn second_at(place: Option<&[u8]>) -> Option<u64>
    ensures second { result ≡ date_of (value_at place.entry) }
    ensures last { IfSome result (λ s. s ≤ last_second) }
{
    date_at(place?)
}

/// What the members tell whose values stand at these places.
fn facts_at(alloc: Global, places: &Places) -> Result<Facts, AllocError>
    ensures facts { IfOk result (λ facts. facts ≡ one_facts (named_at places.now)) }
    ensures told { IfOk result CanBeTold }
{
    Ok(Facts {
        date: second_at(places.timestamp),
        term: term_inside(alloc, places.env)?,
        size: size_at(places.width, places.height),
    })
}

/// What was lost of it.
fn losses_of(front: &FrontOne) -> Losses
    ensures { result ≡ one_losses (shown_front front.now) }
{
    Losses {
        first: None,
        left: bytes_left(front.read.count, front.fault, front.left),
        cut: None,
        slow: front.read.outputs.slow(),
        first_slow: slow_at(Place::Event, &front.read.outputs),
        others: Others::none(),
    }
}

/// Reads what can be read of an asciicast of version 1: none where none of its members that could be read says that it
/// is one. Refused for want of memory alone.
pub fn import_asciicast_one(alloc: Global, text: &[u8]) -> Result<Option<Imported>, AllocError>
    ensures { IfOk result (λ imported. MatchOption imported (is_asciicast_one text.now ≡ false)
        (λ found. (is_asciicast_one text.now ≡ true)
        × Imports (import_of_one (asciicast_one_of text.now)) found.recording found.losses)) }
{
    let front = read_cast_one(alloc, text)?;
    if !is_one(front.read.places.version) {
        return Ok(None);
    }
    let facts = facts_at(alloc, &front.read.places)?;
    let losses = losses_of(&front);
    let imported = imported_of(alloc, &facts, front.read.outputs, losses)?;
    Ok(Some(imported))
}
