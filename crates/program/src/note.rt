//! The note that a job tells of its recording.

ghost use Rattle.std.specs.Prelude.{◌≡◌, ◌<◌, IfSome, length, take};

use tape_core::Watched;

/// What stands before the parts of a note, and behind them.
const BEFORE: &str = "typetool: note: ";

const BEHIND: &str = " (see typetool check)\n";

const ADVICE: &str = " (see typetool check, or try --profile xterm)\n";

/// How many characters of a note's parts are told.
const MOST: usize = 200;

/// Tells a note, if there is one that was kept whole.
pub fn tell_note<R: Eprint>(rt: &R, note: Watched<Vec<u8>>) {
    if note.failed() {
        return;
    }
    let note = note.into_inner();
    let Ok(text) = str::from_utf8(note.as_slice()) else {
        return;
    };
    let behind = if text.ends_with(ADVICE) {
        ADVICE
    } else {
        BEHIND
    };
    let _ = match cut(text, behind) {
        Some(parts) => rt.eprint(format_args!("{BEFORE}{parts}..{behind}")),
        None => rt.eprint(text),
    };
}

/// The front of a note's parts that is told where they are too long. They are ASCII.
fn cut<'a>(note: &'a str, behind: &str) -> Option<&'a str> {
    let parts = note.strip_prefix(BEFORE)?.strip_suffix(behind)?;
    if parts.len() > MOST {
        parts.get(..MOST)
    } else {
        None
    }
}
