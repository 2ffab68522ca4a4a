//! Lines, the fields of a line, and numbers: what timing files and request lines are made of.
ghost use Rattle.std.specs.Prelude.{◌≡◌, ◌≢◌, ◌<◌, ◌≤◌, ◌==◌, [], ◌∷◌, IfNone, IfSome, MatchOption, length, min};
ghost use Rattle.std.specs.Char.{is_ascii_digit};
ghost use Rattle.std.specs.List.{AllPass, list_all, position_or_len, prefix_len};
ghost use Rattle.std.specs.Option.{option_map};
ghost use Rattle.std.specs.Str.Parse.{digits_value};
ghost use Rattle.tape_core.specs.Seconds.{last_moment};
ghost use Rattle.tape_core.specs.Text.{fields, is_blank, lines_of, number_of};

use crate::limits::LAST_MOMENT;

/// The first line of a text that isn't empty, without its LF, and what stands behind it.
pub fn next_line(text: &[u8]) -> (&[u8], &[u8])
    requires { 0 < length text.now }
    ensures lines { lines_of text.now ≡ result.0.now ∷ lines_of result.1.now }
    ensures shorter { length result.1.now < length text.now }
{
    let (line, rest) = text.split_at(position_of(text, b'\n'));
    match rest {
        [_, after @ ..] => (line, after),
        [] => (line, rest),
    }
}

/// The first position of a byte, or the length where it doesn't occur.
pub fn position_of(text: &[u8], wanted: u8) -> usize
    ensures first { result ≡ position_or_len (λ b. b == wanted) text.now }
    ensures within { result ≤ length text.now }
{
    text.iter().take_while(|b| **b != wanted).count()
}

/// Space and tab.
fn is_a_blank(b: u8) -> bool
    ensures { result ≡ is_blank b }
{
    b == b' ' || b == b'\t'
}

/// How many blanks the text begins with.
fn blank_len(text: &[u8]) -> usize
    ensures blanks { result ≡ prefix_len is_blank text.now }
    ensures within { result ≤ length text.now }
{
    text.iter().take_while(|b| is_a_blank(**b)).count()
}

/// How many bytes stand before the first blank.
fn field_len(text: &[u8]) -> usize
    ensures field { result ≡ position_or_len is_blank text.now }
    ensures within { result ≤ length text.now }
{
    text.iter().take_while(|b| !is_a_blank(**b)).count()
}

/// The first field of a text and what stands behind it, or None where only blanks are left.
pub fn next_field(text: &[u8]) -> Option<(&[u8], &[u8])>
    ensures { MatchOption result (fields text.now ≡ [])
        (λ cut. fields text.now ≡ cut.0.now ∷ fields cut.1.now) }
{
    let (_, rest) = text.split_at(blank_len(text));
    if rest.is_empty() {
        return None;
    }
    Some(rest.split_at(field_len(rest)))
}

/// The field of a text that has just one, or None.
pub fn only_field(text: &[u8]) -> Option<&[u8]>
    ensures some { IfSome result (λ field. fields text.now ≡ field.now ∷ []) }
    ensures none { IfNone result (length (fields text.now) ≢ 1) }
{
    let (field, rest) = next_field(text)?;
    match next_field(rest) {
        None => Some(field),
        Some(_) => None,
    }
}

/// Whether each byte is a decimal digit.
pub fn are_digits(text: &[u8]) -> bool
    ensures { result ≡ list_all is_ascii_digit text.now }
{
    text.iter().all(|b| b.is_ascii_digit())
}

/// The number that the digits write, or `most` where it is greater.
pub fn number(digits: &[u8], most: u64) -> u64
    requires digits { AllPass is_ascii_digit digits.now }
    requires most { most ≤ last_moment }
    ensures { result ≡ min (digits_value 10 digits.now) most }
{
    let mut n: u64 = 0;
    for digit in digits {
        n = (n * 10 + u64::from(*digit - b'0')).min(most);
    }
    n
}

/// The number of a text of one or more digits, however many, where one above 10^18 counts as 10^18.
/// None for every other text.
pub fn read_number(text: &[u8]) -> Option<u64>
    ensures { result ≡ option_map (λ n. min n last_moment) (number_of text.now) }
{
    if !text.is_empty() && are_digits(text) {
        Some(number(text, LAST_MOMENT))
    } else {
        None
    }
}
