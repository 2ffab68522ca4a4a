//! The header of an asciicast of version 2 or 3: what it tells of the recording.
ghost use Rattle.std.specs.Prelude.{◌≡◌, ◌&&◌, ℕ, ◌≤◌, ◌+◌, IfOk, IfSome, Some, codes, length, nat_le};
ghost use Rattle.std.specs.List.{AllPass, list_all};
ghost use Rattle.std.specs.Option.{option_and_then};
ghost use Rattle.json_bytes.specs.Numbers.{plain_digits};
ghost use Rattle.json_bytes.specs.Values.{found, json_of, member_of, number_of, value};
ghost use Rattle.tape_core.specs.Text.{lines_of};
ghost use Rattle.tape_import.specs.Asciicast.{date_of, header_line, header_of, is_term, past_header, side_of, term_by, term_of, told_date, told_size, told_term, version_by};
ghost use Rattle.tape_import.specs.Dates.{last_second};
ghost use Rattle.tape_import.specs.Facts.{is_term_byte};
ghost use Rattle.tape_import.specs.Kept.{IsSize};
ghost use Rattle.tape_import.specs.KeptTlog.{told};

use crate::date::dated;
use crate::facts::{Size, side, size_of};
use crate::lines::{is_blank_line, next_line};
use crate::version::Version;
use json_bytes::{
    DEEPEST, Member, member, named, plain_digits, scaled_number, string_in, whole_value,
};
use std::alloc::{AllocError, Global};
use tape_core::Bytes;

/// The first line that isn't space alone, what stands behind it, and how many lines that makes.
pub fn split_header(text: &[u8]) -> (&[u8], &[u8], u64)
    ensures line { result.0.now ≡ header_line (lines_of text.now) }
    ensures rest { lines_of result.1.now ≡ past_header (lines_of text.now) }
    ensures count { result.2 + length (past_header (lines_of text.now))
        ≡ length (lines_of text.now) }
    ensures within { result.2 + length result.1.now ≤ length text.now }
{
    let mut count = 0;
    let mut rest = text;
    while !rest.is_empty() {
        let (line, after) = next_line(rest);
        count += 1;
        if !is_blank_line(line) {
            return (line, after, count);
        }
        rest = after;
    }
    (rest, rest, count)
}

/// The value of the header's member of this name.
fn told<'a>(alloc: Global, header: &'a [u8], name: &[u8]) -> Result<Option<&'a [u8]>, AllocError>
    ensures { IfOk result (λ place. option_and_then (λ at. found (value 63 at.now)) place
        ≡ member_of name.now (json_of header.now)) }
{
    match whole_value(header) {
        Some(object) => member(alloc, object, name, DEEPEST - 1),
        None => Ok(None),
    }
}

/// The value of a member of this name inside the one of another.
fn told_inside<'a>(
    alloc: Global,
    header: &'a [u8],
    outer: &[u8],
    name: &[u8],
) -> Result<Option<&'a [u8]>, AllocError>
    ensures { IfOk result (λ place. option_and_then (λ at. found (value 62 at.now)) place
        ≡ member_of name.now (member_of outer.now (json_of header.now))) }
{
    match told(alloc, header, outer)? {
        Some(object) => member(alloc, object, name, DEEPEST - 2),
        None => Ok(None),
    }
}

/// The columns or lines that the header's member of this name tells.
fn side_told(alloc: Global, header: &[u8], name: &[u8]) -> Result<Option<u64>, AllocError>
    ensures side { IfOk result (λ side. side ≡ side_of (member_of name.now (json_of header.now))) }
    ensures small { IfOk result (λ side. IfSome side (λ n. n ≤ 9999)) }
{
    let Some(place) = told(alloc, header, name)? else {
        return Ok(None);
    };
    Ok(side_at(place))
}

/// The columns or lines that a member of this name inside `term` tells.
fn side_inside(alloc: Global, header: &[u8], name: &[u8]) -> Result<Option<u64>, AllocError>
    ensures side { IfOk result (λ side. side
        ≡ side_of (member_of name.now (member_of (codes "term") (json_of header.now)))) }
    ensures small { IfOk result (λ side. IfSome side (λ n. n ≤ 9999)) }
{
    let Some(place) = told_inside(alloc, header, b"term", name)? else {
        return Ok(None);
    };
    Ok(side_at(place))
}

/// The columns or lines that the value at the front of a text tells.
pub fn side_at(text: &[u8]) -> Option<u64>
    ensures side { (depth : ℕ) → result ≡ side_of (found (value depth text.now)) }
    ensures small { IfSome result (λ n. n ≤ 9999) }
{
    match plain_digits(text) {
        Some(digits) => side(digits),
        None => None,
    }
}

/// The version of an asciicast whose header has these members.
pub fn version_in(members: &[Member]) -> Option<Version>
    ensures { result
        ≡ version_by (option_and_then plain_digits (number_of (told members.now (codes "version")))) }
{
    version_by(named(members, b"version")?.plain_digits()?)
}

/// The version that these digits write.
fn version_by(digits: &[u8]) -> Option<Version>
    ensures { result ≡ version_by (Some digits.now) }
{
    if digits == b"2".as_slice() {
        Some(Version::Two)
    } else if digits == b"3".as_slice() {
        Some(Version::Three)
    } else {
        None
    }
}

/// The size of the terminal.
pub fn told_size(alloc: Global, version: Version, header: &[u8]) -> Result<Option<Size>, AllocError>
    ensures size { IfOk result (λ size. size ≡ told_size version (json_of header.now)) }
    ensures small { IfOk result (λ size. IfSome size IsSize) }
{
    match version {
        Version::Two => {
            let columns = side_told(alloc, header, b"width")?;
            let lines = side_told(alloc, header, b"height")?;
            Ok(size_of(columns, lines))
        }
        Version::Three => {
            let columns = side_inside(alloc, header, b"cols")?;
            let lines = side_inside(alloc, header, b"rows")?;
            Ok(size_of(columns, lines))
        }
    }
}

/// Whether a terminal's name may be so long.
fn is_term_len(len: usize) -> bool
    ensures { result ≡ (nat_le 1 len && nat_le len 64) }
{
    len >= 1 && len <= 64
}

/// Whether each byte may stand in a terminal's name.
fn are_term_bytes(text: &[u8]) -> bool
    ensures { result ≡ list_all is_term_byte text.now }
{
    text.iter().all(|b| is_term_byte(*b))
}

/// Whether a text may be a terminal's name.
fn is_term(text: &[u8]) -> bool
    ensures { result ≡ is_term text.now }
{
    is_term_len(text.len()) && are_term_bytes(text)
}

/// A text, where it may be a terminal's name.
pub fn term_by(alloc: Global, text: &[u8]) -> Result<Option<Bytes>, AllocError>
    ensures term { IfOk result (λ term. term ≡ term_by (Some text.now)) }
    ensures bytes { IfOk result (λ term. IfSome term (AllPass is_term_byte)) }
{
    if is_term(text) {
        Ok(Some(Bytes::copy_of(alloc, text)?))
    } else {
        Ok(None)
    }
}

/// A byte that may stand in a terminal's name.
fn is_term_byte(b: u8) -> bool
    ensures { result ≡ is_term_byte b }
{
    b.is_ascii_digit()
        || b.is_ascii_uppercase()
        || b.is_ascii_lowercase()
        || b == b'.'
        || b == b'_'
        || b == b'+'
        || b == b'-'
}

/// The name of the terminal.
pub fn told_term(
    alloc: Global,
    version: Version,
    header: &[u8],
) -> Result<Option<Bytes>, AllocError>
    ensures term { IfOk result (λ term. term ≡ told_term version (json_of header.now)) }
    ensures bytes { IfOk result (λ term. IfSome term (AllPass is_term_byte)) }
{
    match version {
        Version::Two => term_inside(alloc, header, b"env", b"TERM"),
        Version::Three => term_inside(alloc, header, b"term", b"type"),
    }
}

/// The name of the terminal that a member of this name inside the one of another tells.
fn term_inside(
    alloc: Global,
    header: &[u8],
    outer: &[u8],
    name: &[u8],
) -> Result<Option<Bytes>, AllocError>
    ensures term { IfOk result (λ term. term
        ≡ term_of (member_of name.now (member_of outer.now (json_of header.now)))) }
    ensures bytes { IfOk result (λ term. IfSome term (AllPass is_term_byte)) }
{
    match told_inside(alloc, header, outer, name)? {
        Some(place) => term_at(alloc, place),
        None => Ok(None),
    }
}

/// The name of a terminal that the value at the front of a text tells.
pub fn term_at(alloc: Global, text: &[u8]) -> Result<Option<Bytes>, AllocError>
    ensures term { IfOk result (λ term. (depth : ℕ) → term ≡ term_of (found (value depth text.now))) }
    ensures bytes { IfOk result (λ term. IfSome term (AllPass is_term_byte)) }
{
    match string_in(alloc, text)? {
        Some(name) => term_by(alloc, name.as_slice()),
        None => Ok(None),
    }
}

/// The second at which the recording began.
pub fn told_date(alloc: Global, header: &[u8]) -> Result<Option<u64>, AllocError>
    ensures second { IfOk result (λ date. date ≡ told_date (json_of header.now)) }
    ensures last { IfOk result (λ date. IfSome date (λ s. s ≤ last_second)) }
{
    let Some(place) = told(alloc, header, b"timestamp")? else {
        return Ok(None);
    };
    Ok(date_at(place))
}

/// The second that the number at the front of a text tells.
pub fn date_at(text: &[u8]) -> Option<u64>
    ensures second { (depth : ℕ) → result ≡ date_of (found (value depth text.now)) }
    ensures last { IfSome result (λ s. s ≤ last_second) }
{
    dated(scaled_number(text, 0)?)
}
