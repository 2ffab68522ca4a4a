//! Request lines of a session.

use crate::recorder::Recorder;
use std::alloc::{AllocError, Global};

/// So many questions at moments anywhere in a recording.
pub fn questions(
    alloc: Global,
    recorder: &mut Recorder,
    count: usize,
) -> Result<String, AllocError> {
    let mut text = String::new(alloc);
    let seconds = (recorder.due / 1000000) as usize;
    for _ in 0..count {
        let at = recorder.random.below(seconds.saturating_add(1));
        let part = recorder.random.below(1000000);
        let asked = if recorder.random.once_in(8) {
            "reports"
        } else {
            "screen"
        };
        write!(text, "{asked} {at}.{part:06}\n")?;
    }
    Ok(text)
}

/// So many edits near the front of a recording, and what came of them.
pub fn edits(alloc: Global, recorder: &mut Recorder, count: usize) -> Result<String, AllocError> {
    let mut text = String::new(alloc);
    for _ in 0..count {
        let at = recorder.random.below(16);
        match recorder.random.below(4) {
            0 => write!(text, "insert {at} 0.25 6162\n")?,
            1 => write!(text, "delete {at} {}\n", at + 1)?,
            2 => write!(text, "replace {at} 1b5b4b\n")?,
            _ => write!(text, "retime {at} 0.125\n")?,
        }
    }
    text.push_str("info\nscreen 30\n")?;
    Ok(text)
}
