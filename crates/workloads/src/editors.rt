//! Editors and file managers, which draw all over the screen.

use crate::recorder::{Kind, Recorder};
use std::alloc::AllocError;

/// A session of an editor with so many keys.
pub fn put_editor(recorder: &mut Recorder, keys: usize) -> Result<(), AllocError> {
    if recorder.kind == Kind::Today {
        recorder.put("\x1b[?1049h")?;
    }
    put_page(recorder)?;
    for key in 0..keys {
        match recorder.random.below(16) {
            0 => put_page(recorder)?,
            1 | 2 => put_scroll(recorder)?,
            3 => put_list(recorder)?,
            4 | 5 => put_typed(recorder)?,
            6 => put_row_between(recorder)?,
            _ => put_change(recorder)?,
        }
        put_status(recorder, key)?;
        recorder.end_chunk()?;
    }
    Ok(())
}

/// One of the rows above the last.
fn some_row(recorder: &mut Recorder) -> usize {
    let rows = recorder.lines.saturating_sub(1).max(1);
    recorder.random.below(rows).saturating_add(1)
}

/// A row of a program: its indentation and its words, some in another rendition.
fn put_row(recorder: &mut Recorder, row: usize) -> Result<(), AllocError> {
    recorder.go_to(row, 1)?;
    recorder.put("\x1b[K")?;
    if recorder.random.once_in(6) {
        return Ok(());
    }
    let depth = recorder.random.below(4);
    recorder.put(["", "    ", "        ", "            "][depth])?;
    for _ in 0..1 + recorder.random.below(3) {
        recorder.put_style()?;
        recorder.put_word()?;
        recorder.put("\x1b[m ")?;
        let words = 1 + recorder.random.below(4);
        recorder.put_words(words)?;
        recorder.put(" ")?;
    }
    Ok(())
}

/// All rows anew.
fn put_page(recorder: &mut Recorder) -> Result<(), AllocError> {
    recorder.put("\x1b[H\x1b[2J")?;
    for row in 1..recorder.lines {
        put_row(recorder, row)?;
    }
    Ok(())
}

/// The rows above the last move up or down by one.
fn put_scroll(recorder: &mut Recorder) -> Result<(), AllocError> {
    let last = recorder.lines.saturating_sub(1);
    recorder.put("\x1b[1;")?;
    recorder.put_number(last)?;
    recorder.put("r")?;
    let up = recorder.random.once_in(2);
    let row = if up { last } else { 1 };
    recorder.go_to(row, 1)?;
    recorder.put(if up { "\n" } else { "\x1bM" })?;
    recorder.put("\x1b[r")?;
    put_row(recorder, row)
}

/// A row comes between two others, or goes.
fn put_row_between(recorder: &mut Recorder) -> Result<(), AllocError> {
    let row = some_row(recorder);
    if recorder.kind == Kind::Vt100 {
        return put_row(recorder, row);
    }
    recorder.go_to(row, 1)?;
    if recorder.random.once_in(2) {
        return recorder.put("\x1b[M");
    }
    recorder.put("\x1b[L")?;
    put_row(recorder, row)
}

/// A few characters are typed, a chunk each.
fn put_typed(recorder: &mut Recorder) -> Result<(), AllocError> {
    let row = some_row(recorder);
    put_row(recorder, row)?;
    recorder.end_chunk()?;
    for _ in 0..2 + recorder.random.below(10) {
        let letter = recorder.random.below(8);
        recorder.put(["t", "h", "e", " ", "e", "r", "o", "x"][letter])?;
        recorder.end_chunk()?;
    }
    Ok(())
}

/// A word of a row becomes another, and the rest of the row is drawn anew.
fn put_change(recorder: &mut Recorder) -> Result<(), AllocError> {
    let row = some_row(recorder);
    let columns = recorder.columns.saturating_sub(20).max(1);
    let column = recorder.random.below(columns).saturating_add(1);
    recorder.go_to(row, column)?;
    recorder.put_word()?;
    if recorder.random.once_in(3) {
        recorder.put("\x1b[K")?;
    }
    Ok(())
}

/// A list in a frame, as file managers and menus show it.
fn put_list(recorder: &mut Recorder) -> Result<(), AllocError> {
    recorder.put("\x1b(0")?;
    for row in 3..11 {
        recorder.go_to(row, 11)?;
        recorder.put(match row {
            3 => "lqqqqqqqqqqqqqqqqqqqqqqqqqqk",
            10 => "mqqqqqqqqqqqqqqqqqqqqqqqqqqj",
            _ => "x                          x",
        })?;
    }
    recorder.put("\x1b(B")?;
    for row in 4..10 {
        recorder.go_to(row, 13)?;
        recorder.put(if row == 6 { "\x1b[7m" } else { "" })?;
        recorder.put_words(3)?;
        recorder.put("\x1b[m")?;
    }
    Ok(())
}

/// The last row: what is edited, and where.
fn put_status(recorder: &mut Recorder, key: usize) -> Result<(), AllocError> {
    let last = recorder.lines;
    recorder.go_to(last, 1)?;
    recorder.put("\x1b[7m main.c  line ")?;
    let line = recorder.random.below(4000);
    recorder.put_number(line)?;
    recorder.put("  key ")?;
    recorder.put_number(key)?;
    recorder.put("\x1b[m\x1b[K")?;
    let row = some_row(recorder);
    recorder.go_to(row, 1)
}
