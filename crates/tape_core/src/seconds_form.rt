//! Microseconds written as decimal seconds.
ghost use Rattle.std.specs.Prelude.{◌≡◌, ◌+◌, ◌≤◌, ◌++◌, drop, length};
ghost use Rattle.tape_core.specs.Written.{seconds_form};

use crate::seconds::SECOND;
use itoa::write_digits;
use std::marker::Model;

/// The most bytes that seconds take: 14 digits, the point and six decimals.
const LONGEST_SECONDS: usize = 21;

/// Seconds as text, in an array. Contracts see its bytes as a list.
#[derive(Debug, Drop)]
pub struct SecondsText {
    bytes: [u8; 21],
    start: usize,
}

impl Model for SecondsText {
    ghost use Rattle.std.specs.Prelude.{◌≡◌, ◌≤◌, List, drop, length, ℕ};

    ghost Value = { List ℕ };

    ghost view = { λ text. drop text.start text.bytes };

    ghost invariant = { λ text. (length text.bytes ≡ 21) × (text.start ≤ 21) };
}

impl SecondsText {
    /// Lends the text.
    pub fn as_bytes(&self) -> &[u8]
        ensures { result.now ≡ self.now }
    {
        &self.bytes[self.start..]
    }
}

/// Microseconds as seconds: the whole ones without needless zeros, `.`, six decimals. Takes no
/// memory. script(1).
pub fn seconds_text(us: u64) -> SecondsText
    ensures { result ≡ seconds_form us }
{
    let mut bytes = [0; LONGEST_SECONDS];
    let start = write_seconds(us, &mut bytes, LONGEST_SECONDS);
    SecondsText { bytes, start }
}

/// Writes seconds so that they end at `end`, and returns where they start.
#[tactic(auto, unfolding(crate::specs::Written::seconds_form))]
pub(crate) fn write_seconds(us: u64, buf: &mut [u8], end: usize) -> usize
    requires room { LONGEST_SECONDS ≤ end }
    requires within { end ≤ length buf.old }
    ensures start { result + length (seconds_form us) ≡ end }
    ensures written { drop result buf.new ≡ seconds_form us ++ drop end buf.old }
{
    let point = end - 7;
    buf[point..end].copy_from_slice(b".000000");
    let _decimals = write_digits(us % SECOND, buf, end);
    write_digits(us / SECOND, buf, point)
}
