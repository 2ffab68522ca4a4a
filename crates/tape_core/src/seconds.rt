//! Moments and delays as decimal seconds.
ghost use Rattle.std.specs.Prelude.{◌≡◌, ◌<◌, ◌++◌, ◌==◌, min, replicate, take};
ghost use Rattle.std.specs.Char.{is_ascii_digit};
ghost use Rattle.std.specs.List.{AllPass, after_first, before_first};
ghost use Rattle.std.specs.Str.Parse.{digits_value};
ghost use Rattle.tape_core.specs.Seconds.{last_moment, micros, seconds_of};

use crate::limits::LAST_MOMENT;
use crate::text::{are_digits, number, position_of};

/// A second, in microseconds.
pub(crate) const SECOND: u64 = 1_000_000;

/// What stands before the first point, and what stands after it.
fn split_at_point(text: &[u8]) -> (&[u8], &[u8])
    ensures whole { result.0.now ≡ before_first (λ b. b == 46) text.now }
    ensures decimals { result.1.now ≡ after_first (λ b. b == 46) text.now }
{
    let (whole, rest) = text.split_at(position_of(text, b'.'));
    match rest {
        [_, decimals @ ..] => (whole, decimals),
        [] => (whole, rest),
    }
}

/// The first six decimals, filled with zeros on the right, as a number.
fn six_decimals(decimals: &[u8]) -> u64
    requires { AllPass is_ascii_digit decimals.now }
    ensures value { result ≡ digits_value 10 (take 6 (decimals.now ++ replicate 6 48)) }
    ensures small { result < SECOND }
{
    let mut n: u64 = 0;
    for i in 0..6 {
        let digit = decimals.get(i).copied().unwrap_or(b'0');
        n = n * 10 + u64::from(digit - b'0');
    }
    n
}

/// The microseconds that whole seconds and decimals write, at most the greatest moment.
fn capped_micros(whole: &[u8], decimals: &[u8]) -> u64
    requires whole { AllPass is_ascii_digit whole.now }
    requires decimals { AllPass is_ascii_digit decimals.now }
    ensures { result ≡ min (micros whole.now decimals.now) last_moment }
{
    let seconds = number(whole, LAST_MOMENT / SECOND);
    (seconds * SECOND + six_decimals(decimals)).min(LAST_MOMENT)
}

/// Reads seconds as whole microseconds: one or more digits, optionally `.` and zero or more digits.
/// Digits past the sixth decimal are dropped, and a value above 10^18 microseconds counts as 10^18.
/// None for every other text (ours).
#[tactic(auto, unfolding(crate::specs::Seconds::seconds_of))]
pub fn read_seconds(text: &[u8]) -> Option<u64>
    ensures { result ≡ seconds_of text.now }
{
    let (whole, decimals) = split_at_point(text);
    if !whole.is_empty() && are_digits(whole) && are_digits(decimals) {
        Some(capped_micros(whole, decimals))
    } else {
        None
    }
}
