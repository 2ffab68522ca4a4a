//! What a recording tells of itself.
ghost use Rattle.std.specs.Prelude.{◌≡◌, ◌≤◌, IfSome, MatchOption};
ghost use Rattle.tape_core.specs.Text.{number_of};
ghost use Rattle.tape_import.specs.Facts.{asked_size, parted, reported_size, side, size_of, without_choice};
ghost use Rattle.tape_import.specs.Kept.{IsSize};

use tape_core::Bytes;
use tape_core::text::{position_of, read_number};

/// The size of a terminal.
#[derive(Clone, Copy, Debug, PartialEq, Eq)]
pub struct Size {
    pub columns: u64,
    pub lines: u64,
}

/// The second at which it began, counted from the beginning of 1970, the name of its terminal and the terminal's size,
/// where these are told.
#[derive(Debug, Drop)]
pub struct Facts {
    pub date: Option<u64>,
    pub term: Option<Bytes>,
    pub size: Option<Size>,
}

/// A number, where a terminal may have so many columns or lines.
pub fn side_of(number: u64) -> Option<u64>
    ensures side { result ≡ side (Some number) }
    ensures small { IfSome result (λ n. n ≤ 9999) }
{
    if (1..=9999).contains(&number) {
        Some(number)
    } else {
        None
    }
}

/// The number of digits that a text writes, where a terminal may have so many columns or lines.
#[tactic(auto, using(crate::proofs::CountLemmas::side_told))]
pub fn side(text: &[u8]) -> Option<u64>
    ensures side { result ≡ side (number_of text.now) }
    ensures small { IfSome result (λ n. n ≤ 9999) }
{
    side_of(read_number(text)?)
}

/// A size of both, where both are told.
pub fn size_of(columns: Option<u64>, lines: Option<u64>) -> Option<Size>
    requires columns { IfSome columns (λ n. n ≤ 9999) }
    requires lines { IfSome lines (λ n. n ≤ 9999) }
    ensures size { result ≡ size_of columns lines }
    ensures small { IfSome result IsSize }
{
    match (columns, lines) {
        (Some(columns), Some(lines)) => Some(Size { columns, lines }),
        _ => None,
    }
}

/// What stands before and behind the first such byte, where there is one.
pub fn parted(text: &[u8], byte: u8) -> Option<(&[u8], &[u8])>
    ensures { MatchOption result (parted byte text.now ≡ None)
        (λ cut. parted byte text.now ≡ Some (cut.0.now, cut.1.now)) }
{
    let (before, rest) = text.split_at(position_of(text, byte));
    match rest {
        [_, behind @ ..] => Some((before, behind)),
        [] => None,
    }
}

/// The size that the front of a text asks a terminal to take.
fn asked_size(text: &[u8]) -> Option<Size>
    ensures size { result ≡ asked_size text.now }
    ensures small { IfSome result IsSize }
{
    if !text.starts_with(b"\x1b[8;") {
        return None;
    }
    let (lines, rest) = parted(&text[4..], b';')?;
    let (columns, _) = parted(rest, b't')?;
    size_of(side(columns), side(lines))
}

/// A text without the choice of UTF-8, or of no UTF-8, at its front.
fn without_choice(text: &[u8]) -> &[u8]
    ensures { result.now ≡ without_choice text.now }
{
    if text.starts_with(b"\x1b%G") || text.starts_with(b"\x1b%@") {
        &text[3..]
    } else {
        text
    }
}

/// The size that the front of a text asks for, as a recorder that knows it writes first.
pub fn reported_size(text: &[u8]) -> Option<Size>
    ensures size { result ≡ reported_size text.now }
    ensures small { IfSome result IsSize }
{
    asked_size(without_choice(text))
}
