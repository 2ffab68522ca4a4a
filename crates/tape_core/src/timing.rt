//! The classic timing format: a line for each output, with its delay and its count.
ghost use Rattle.std.specs.Prelude.{◌≡◌, ◌+◌, ◌-◌, ◌<◌, ◌≤◌, ◌∷◌, ◌++◌, false, ℕ, List, Some, Ok, IfOk, IfErr, IfSome, length, min};
ghost use Rattle.std.specs.Option.{option_map};
ghost use Rattle.tape_core.specs.Faults.{is_stop};
ghost use Rattle.tape_core.specs.Seconds.{IsSeconds, last_moment};
ghost use Rattle.tape_core.specs.Tape.{longest_body};
ghost use Rattle.tape_core.specs.Timing.{IsWithin, at_line, begins_with_letter, delay_of, entry_of, fault_of_line, only_count};
ghost use Rattle.tape_core.specs.Steps.{FitsAfter};
ghost use Rattle.tape_core.specs.Text.{NumberText, fields, lines_of};

use crate::fault::Fault;
use crate::limits::{LONGEST_BODY, LONGEST_CHUNK, LONGEST_DELAY, MOST_CHUNKS};
use crate::seconds::{SECOND, read_seconds};
use crate::text::{next_field, next_line, only_field, read_number};

/// What a timing line says of its chunk: the delay in microseconds, and how many bytes it has.
#[derive(Clone, Copy, Debug)]
pub struct Entry {
    pub delay: u64,
    pub count: u64,
}

/// What is wrong with one line by itself.
#[derive(Clone, Copy, Debug)]
pub enum EntryFault {
    MultiStream,
    BadDelay,
    BadCount,
    DelayTooLarge,
    ChunkTooLong,
}

impl EntryFault {
    /// The fault with the number of its line, counted from 1.
    fn at(self, line: u64) -> Fault
        ensures fault { result ≡ at_line self line }
        ensures kinds { is_stop result ≡ false }
    {
        match self {
            EntryFault::MultiStream => Fault::MultiStream(line),
            EntryFault::BadDelay => Fault::BadDelay(line),
            EntryFault::BadCount => Fault::BadCount(line),
            EntryFault::DelayTooLarge => Fault::DelayTooLarge(line),
            EntryFault::ChunkTooLong => Fault::ChunkTooLong(line),
        }
    }
}

/// The delay that a field writes, in microseconds, at most the greatest moment: `-` makes it zero. None where it writes
/// none. script(1).
#[tactic(auto, unfolding(crate::specs::Seconds::seconds_of))]
pub fn read_delay(field: &[u8]) -> Option<u64>
    ensures { result ≡ option_map (λ us. min us last_moment) (delay_of field.now) }
{
    match field {
        [b'-', seconds @ ..] => read_seconds(seconds).map(|_| 0),
        _ => read_seconds(field),
    }
}

/// The count where it is the only field of the text, at most 10^18. None where it isn't.
pub fn read_only_count(text: &[u8]) -> Option<u64>
    ensures { result ≡ option_map (λ n. min n last_moment) (only_count (fields text.now)) }
{
    read_number(only_field(text)?)
}

/// Whether the field begins with a letter, `A` to `Z` or `a` to `z`.
pub fn has_letter_first(field: &[u8]) -> bool
    ensures { result ≡ begins_with_letter field.now }
{
    match field {
        [first, ..] => first.is_ascii_alphabetic(),
        [] => false,
    }
}

/// What a line says: None where it is blank, its entry, or its first fault. script(1); the limits are ours.
pub fn read_entry(text: &[u8]) -> Result<Option<Entry>, EntryFault>
    ensures said { result ≡ entry_of text.now }
    ensures within { IfOk result (λ entry. IfSome entry IsWithin) }
{
    let Some((first, rest)) = next_field(text) else {
        return Ok(None);
    };
    if has_letter_first(first) {
        return Err(EntryFault::MultiStream);
    }
    let delay = read_delay(first).ok_or(EntryFault::BadDelay)?;
    let count = read_only_count(rest).ok_or(EntryFault::BadCount)?;
    if delay > LONGEST_DELAY {
        return Err(EntryFault::DelayTooLarge);
    }
    if count > LONGEST_CHUNK as u64 {
        return Err(EntryFault::ChunkTooLong);
    }
    Ok(Some(Entry { delay, count }))
}

// ---- lines as script(1) writes them, read at once

// Such a line is digits, `.`, six digits, a space, digits, LF. Each other one is left to the fields of the general form.

/// The number that a text begins with, and what stands behind its digits. None where it begins with no
/// digit, or with a number above every limit of a line.
fn first_number(text: &[u8]) -> Option<(u64, &[u8])>
    ensures number { IfSome result (λ cut. (digits : List ℕ)
        × (text.now ≡ digits ++ cut.1.now) × NumberText digits cut.0) }
    ensures small { IfSome result (λ cut. cut.0 ≤ LONGEST_DELAY) }
{
    let mut n: u64 = 0;
    let mut rest = text;
    while let [digit @ b'0'..=b'9', after @ ..] = rest {
        n = n * 10 + u64::from(*digit - b'0');
        if n > LONGEST_DELAY {
            return None;
        }
        rest = after;
    }
    if rest.len() < text.len() {
        Some((n, rest))
    } else {
        None
    }
}

/// The value of a digit.
fn digit(byte: u8) -> u64
    requires low { 48 ≤ byte }
    requires high { byte ≤ 57 }
    ensures { result ≡ byte - 48 }
{
    u64::from(byte - b'0')
}

/// The number that the first six bytes of a text write, and what stands behind them. None where they aren't all digits.
fn six_digits(text: &[u8]) -> Option<(u64, &[u8])>
    ensures number { IfSome result (λ cut. (digits : List ℕ)
        × (text.now ≡ digits ++ cut.1.now) × NumberText digits cut.0) }
    ensures six { IfSome result (λ cut. length text.now ≡ length cut.1.now + 6) }
    ensures small { IfSome result (λ cut. cut.0 < 1000000) }
{
    match text {
        [
            a @ b'0'..=b'9',
            b @ b'0'..=b'9',
            c @ b'0'..=b'9',
            d @ b'0'..=b'9',
            e @ b'0'..=b'9',
            f @ b'0'..=b'9',
            rest @ ..,
        ] => {
            let first = (digit(*a) * 10 + digit(*b)) * 10 + digit(*c);
            let last = (digit(*d) * 10 + digit(*e)) * 10 + digit(*f);
            Some((first * 1000 + last, rest))
        }
        _ => None,
    }
}

/// The seconds with six decimals that a text begins with, in microseconds, and what stands behind them.
fn first_delay(text: &[u8]) -> Option<(u64, &[u8])>
    ensures { IfSome result (λ cut. (seconds : List ℕ)
        × (text.now ≡ seconds ++ cut.1.now) × IsSeconds seconds cut.0) }
{
    let (whole, behind) = first_number(text)?;
    let [b'.', decimals @ ..] = behind else {
        return None;
    };
    let (micros, rest) = six_digits(decimals)?;
    Some((whole * SECOND + micros, rest))
}

/// The entry of a first line as script(1) writes it, within the limits, and what stands behind its LF.
fn written_entry(text: &[u8]) -> Option<(Entry, &[u8])>
    ensures line { IfSome result (λ cut. (line : List ℕ)
        × (lines_of text.now ≡ line ∷ lines_of cut.1.now) × (entry_of line ≡ Ok (Some cut.0))) }
    ensures within { IfSome result (λ cut. IsWithin cut.0) }
    ensures shorter { IfSome result (λ cut. length cut.1.now < length text.now) }
{
    let (delay, behind) = first_delay(text)?;
    let [b' ', second @ ..] = behind else {
        return None;
    };
    let (count, end) = first_number(second)?;
    match end {
        [b'\n', after @ ..] if delay <= LONGEST_DELAY && count <= LONGEST_CHUNK as u64 => {
            Some((Entry { delay, count }, after))
        }
        _ => None,
    }
}

// ---- a line in front of others, and one behind others

/// What the first line of a text that isn't empty says, and what stands behind it.
pub(crate) fn first_entry(text: &[u8]) -> (Result<Option<Entry>, EntryFault>, &[u8])
    requires { 0 < length text.now }
    ensures said { (line : List ℕ)
        × (lines_of text.now ≡ line ∷ lines_of result.1.now) × (result.0 ≡ entry_of line) }
    ensures within { IfOk result.0 (λ entry. IfSome entry IsWithin) }
    ensures shorter { length result.1.now < length text.now }
{
    if let Some((entry, after)) = written_entry(text) {
        return (Ok(Some(entry)), after);
    }
    let (line, after) = next_line(text);
    (read_entry(line), after)
}

/// What a line says, or its fault where so many entries, which count so many bytes, stand before it.
pub(crate) fn judged(
    said: Result<Option<Entry>, EntryFault>,
    line: u64,
    entries: usize,
    bytes: u64,
) -> Result<Option<Entry>, Fault>
    requires said { IfOk said (λ entry. IfSome entry IsWithin) }
    requires bytes { bytes ≤ longest_body }
    ensures ok { IfOk result (λ entry. said ≡ Ok entry) }
    ensures within { IfOk result (λ entry. IfSome entry (FitsAfter entries bytes)) }
    ensures fault { IfErr result (λ f. fault_of_line line entries bytes said ≡ Some f) }
    ensures kinds { IfErr result (λ f. is_stop f ≡ false) }
{
    let Some(entry) = said.map_err(|fault| fault.at(line))? else {
        return Ok(None);
    };
    if entries >= MOST_CHUNKS {
        return Err(Fault::TooManyChunks(line));
    }
    if bytes + entry.count > LONGEST_BODY {
        return Err(Fault::TooManyBytes(line));
    }
    Ok(Some(entry))
}
