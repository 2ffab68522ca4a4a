//! The lines of a recording, each a JSON text.
ghost use Rattle.std.specs.Prelude.{◌≡◌, ◌<◌, ◌∷◌, length};
ghost use Rattle.tape_core.specs.Text.{lines_of};
ghost use Rattle.tape_import.specs.Asciicast.{is_blank_line};

use json_bytes::past_space;
use memchr::memchr;

/// The first line of a text that isn't empty, without its LF, and what stands behind it.
pub fn next_line(text: &[u8]) -> (&[u8], &[u8])
    requires { 0 < length text.now }
    ensures lines { lines_of text.now ≡ result.0.now ∷ lines_of result.1.now }
    ensures shorter { length result.1.now < length text.now }
{
    let Some(at) = memchr(b'\n', text) else {
        return text.split_at(text.len());
    };
    let (line, rest) = text.split_at(at);
    (line, &rest[1..])
}

/// Whether a line is space alone.
pub fn is_blank_line(line: &[u8]) -> bool
    ensures { result ≡ is_blank_line line.now }
{
    past_space(line).is_empty()
}

/// How many lines a text has.
pub fn count_lines(text: &[u8]) -> u64
    ensures { result ≡ length (lines_of text.now) }
{
    let mut count = 0;
    let mut rest = text;
    while !rest.is_empty() {
        rest = next_line(rest).1;
        count += 1;
    }
    count
}
