//! Logs and builds, which scroll.

use crate::recorder::{Kind, Recorder};
use std::alloc::AllocError;

/// A log of so many lines, most of them a chunk each, with a progress bar now and then.
pub fn put_log(recorder: &mut Recorder, count: usize) -> Result<(), AllocError> {
    for line in 0..count {
        if recorder.random.once_in(64) {
            put_progress(recorder)?;
        }
        put_line(recorder, line)?;
        if !recorder.random.once_in(8) {
            recorder.end_chunk()?;
        }
    }
    recorder.end_chunk()
}

/// A line: its number, how bad it is, who says it, and what.
fn put_line(recorder: &mut Recorder, line: usize) -> Result<(), AllocError> {
    recorder.put("\x1b[1m")?;
    recorder.put_number(line)?;
    recorder.put("\x1b[0m ")?;
    recorder.put_style()?;
    let level = recorder.random.below(4);
    recorder.put(["INFO ", "WARN ", "DEBUG", "ERROR"][level])?;
    recorder.put("\x1b[0m ")?;
    recorder.put_word()?;
    recorder.put("::")?;
    recorder.put_word()?;
    recorder.put(": ")?;
    let words = 3 + recorder.random.below(12);
    recorder.put_words(words)?;
    if recorder.random.once_in(3) {
        recorder.put(" ")?;
        recorder.put_style()?;
        recorder.put_word()?;
        recorder.put("\x1b[0m=")?;
        let value = recorder.random.below(100000);
        recorder.put_number(value)?;
    }
    recorder.put("\r\n")
}

/// A progress bar, drawn anew in some twenty chunks.
fn put_progress(recorder: &mut Recorder) -> Result<(), AllocError> {
    recorder.end_chunk()?;
    for step in 0..21 {
        recorder.put("\r[")?;
        for part in 0..20 {
            recorder.put(if part < step {
                bar_of(recorder.kind)
            } else {
                " "
            })?;
        }
        recorder.put("] ")?;
        recorder.put_number(step * 5)?;
        recorder.put("%")?;
        recorder.end_chunk()?;
    }
    recorder.put("\r\n")
}

/// What a bar is drawn of.
fn bar_of(kind: Kind) -> &'static str {
    match kind {
        Kind::Vt100 => "#",
        Kind::Today => "█",
    }
}

/// So many keys, typed one by one, a line after every sixty.
pub fn put_keys(recorder: &mut Recorder, count: usize) -> Result<(), AllocError> {
    for key in 0..count {
        let letter = recorder.random.below(8);
        recorder.put(["a", "t", "h", "e", " ", "r", "o", "\x08"][letter])?;
        if key % 60 == 0 {
            recorder.put("\r\n")?;
        }
        recorder.end_chunk()?;
    }
    Ok(())
}

/// A few sequences that no terminal plays, and broken characters, which a check counts.
pub fn put_unplayed(recorder: &mut Recorder) -> Result<(), AllocError> {
    for _ in 0..recorder.random.below(100) {
        recorder.put("\x1b[?69h")?;
    }
    for _ in 0..recorder.random.below(100) {
        recorder.script.push(0xFF)?;
    }
    recorder.end_chunk()
}
