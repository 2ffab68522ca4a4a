//! Sequences that erase the rest of the cursor's row.
ghost use Rattle.std.specs.Prelude.{◌≡◌, ◌<◌, ◌≤◌, length, take, true};
ghost use Rattle.xterm_term.specs.Ahead.{ErasesRight, IsErasing};

use crate::below::laws_below;
use crate::reading::{ESC, is_ground_state};
use crate::terminal::Terminal;

impl Terminal {
    ghost use Rattle.xterm_term.specs.Seen.{Shows};
    ghost use Rattle.xterm_term.specs.Term.{Term};

    /// How many of the bytes are a sequence that erases the cursor's row from the cursor on (EL: ESC [ K or ESC [ 0 K); 0
    /// where they begin none, or something is pending.
    pub fn erases_right(&self, bytes: &[u8]) -> usize
        ensures within { result ≤ length bytes.now }
        ensures erases { 0 < result → (x : Term) → Shows self.now x
            → ErasesRight x (take result bytes.now) }
    {
        laws_below();
        if self.console.title
            || !is_ground_state(self.parser.state())
            || self.decoder.is_pending()
        {
            return 0;
        }
        erasing(bytes)
    }
}

// How many of the bytes are such a sequence.
fn erasing(bytes: &[u8]) -> usize
    ensures within { result ≤ length bytes.now }
    ensures is { 0 < result → IsErasing (take result bytes.now) }
{
    match bytes {
        [ESC, b'[', b'K', ..] => 3,
        [ESC, b'[', b'0', b'K', ..] => 4,
        _ => 0,
    }
}
