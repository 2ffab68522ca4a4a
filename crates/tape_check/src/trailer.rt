//! What stands behind the last chunk of a recording. script(1).
ghost use Rattle.std.specs.Prelude.{◌≡◌};
ghost use Rattle.tape_check.specs.Trailer.{is_last_line, is_usual, sessions_in};

use crate::header::{first_of, is_scripts};
use crate::words::Word;
use tape_core::text::next_line;

const LF: u8 = b'\n';

/// Whether it is nothing, or the closing line of script(1).
pub fn is_usual(trailer: &[u8]) -> bool
    ensures { result ≡ is_usual trailer.now }
{
    if trailer.is_empty() {
        return true;
    }
    match trailer.strip_prefix(Word::Closing.text()) {
        Some(rest) => is_last_line(rest),
        None => false,
    }
}

// Whether there is no LF but at the end.
fn is_last_line(text: &[u8]) -> bool
    ensures { result ≡ is_last_line text.now }
{
    match first_of(LF, text) {
        Some(at) => at + 1 == text.len(),
        None => true,
    }
}

/// How many further sessions begin in it.
#[tactic(auto, unfolding(crate::specs::Trailer::sessions_in))]
pub(crate) fn sessions_in(trailer: &[u8]) -> usize
    ensures { result ≡ sessions_in trailer.now }
{
    let mut count = 0;
    let mut rest = trailer;
    while !rest.is_empty() {
        let (line, more) = next_line(rest);
        if is_scripts(line) {
            count += 1;
        }
        rest = more;
    }
    count
}
