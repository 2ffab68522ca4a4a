//! Takes a text out of bytes.

ghost use Rattle.std.specs.Prelude.{◌≡◌, ◌<◌, ◌≤◌, length, nat_lt, take, true, if◌then◌else◌};
ghost use Rattle.tape_redact.specs.Redacted.{begins_at, occurrences, redacted};

use crate::ahead::{Ahead, FRONT};

/// Writes `*` over each byte that lies in an occurrence of the text, and says how many occurrences there were.
pub fn redact(bytes: &mut [u8], text: &[u8]) -> usize
    requires { 0 < length text.now }
    ensures bytes { bytes.new ≡ redacted text.now bytes.old }
    ensures count { result ≡ occurrences text.now bytes.old }
{
    // It never is, and that it isn't spares a test at each place.
    if text.is_empty() {
        return 0;
    }
    let mut left: usize = 0;
    let mut count: usize = 0;
    let mut at: usize = 0;
    let mut ahead = Ahead::none();
    while at < bytes.len() {
        ahead.look(bytes, at, text);
        let begun = begins(bytes, at, text, ahead.take());
        if left == 0 && !begun {
            at += 1 + ahead.pass(at + 1);
            continue;
        }
        left = reach(begun, left, text.len());
        bytes[at] = hidden(left, bytes[at]);
        left = left.saturating_sub(1);
        count += one_if(begun);
        at += 1;
    }
    count
}

/// Whether the text begins at a place, of which is known whether its front stands there.
#[inline(always)]
fn begins(bytes: &[u8], at: usize, text: &[u8], stands: bool) -> bool
    requires { stands ≡ begins_at (take FRONT text.now) bytes.now at }
    ensures { result ≡ begins_at text.now bytes.now at }
{
    stands && goes_on(bytes, at, text)
}

/// The same, where it stands.
fn goes_on(bytes: &[u8], at: usize, text: &[u8]) -> bool
    requires { begins_at (take FRONT text.now) bytes.now at ≡ true }
    ensures { result ≡ begins_at text.now bytes.now at }
{
    text.len() <= FRONT || bytes[at + FRONT..].starts_with(&text[FRONT..])
}

/// How many places from one on lie in an occurrence.
fn reach(begun: bool, left: usize, len: usize) -> usize
    ensures { result ≡ (if begun then len else left) }
{
    if begun { len } else { left }
}

/// The new byte at a place, where so many places from it on lie in an occurrence.
fn hidden(left: usize, byte: u8) -> u8
    ensures { result ≡ (if nat_lt 0 left then 42 else byte) }
{
    if left > 0 { b'*' } else { byte }
}

/// One for yes.
fn one_if(yes: bool) -> usize
    ensures value { result ≡ (if yes then 1 else 0) }
    ensures few { result ≤ 1 }
{
    if yes { 1 } else { 0 }
}
