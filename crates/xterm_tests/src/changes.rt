//! What bytes change of the terminal that a start leaves, told as a text in the words of `told`: a part that is
//! changed as it is now, `no PART` where it is now as in the initial state, of the modes `+NAME` and `-NAME`, and of
//! the lines those that are changed, `3-5:` where several are now alike.
ghost use Rattle.std.specs.Prelude.{◌≤◌, ◌+◌};

use crate::starts::{SET, WRAPPING};
use crate::told::{Left, PARTS, Part, feed_reset, named_modes, write_part, write_row};
use std::alloc::Global;
use std::fmt::Write;
use std::process::Abort;
use std::test::Fail;
use xterm_screen::Screen;
use xterm_term::Modes;

// Bytes, what they change of `SET`, and what of `WRAPPING`.
pub(crate) type Rows = &'static [(&'static str, &'static str, &'static str)];

// The modes that are set now, each after +, and those that are reset, each after -.
fn write_changed_modes(text: &mut String, before: Modes, after: Modes) -> Result<(), Fail> {
    let was = named_modes(before);
    let is = named_modes(after);
    for i in 0..8 {
        let (is_set, name, _) = is[i];
        if is_set != was[i].0 {
            text.push_str(if is_set { " +" } else { " -" })?;
            text.push_str(name)?;
        }
    }
    Ok(())
}

// How many lines from one on are changed, and are now as the one there.
fn lines_alike(before: &Screen, after: &Screen, line: u16) -> u16
    requires low { 1 ≤ line }
    requires before_high { line ≤ before.now.picture.lines }
    requires after_high { line ≤ after.now.picture.lines }
    ensures some { 1 ≤ result }
    ensures within { line + result ≤ after.now.picture.lines + 1 }
{
    let end = before.lines().min(after.lines()) + 1;
    for next in line + 1..end {
        let is_alike = *after.row(next) == *after.row(line);
        if !is_alike || *after.row(next) == *before.row(next) {
            return next - line;
        }
    }
    end - line
}

// The lines that are changed, as they are now; lines alike that follow one another together.
fn write_changed_lines(text: &mut String, before: &Screen, after: &Screen) -> Result<(), Fail> {
    let mut next = 1;
    for line in 1..before.lines().min(after.lines()) + 1 {
        if line < next || *after.row(line) == *before.row(line) {
            continue;
        }
        next = line + lines_alike(before, after, line);
        write!(text, "{line}")?;
        if next > line + 1 {
            write!(text, "-{}", next - 1)?;
        }
        text.push(':')?;
        write_row(text, after.row(line))?;
        text.push(' ')?;
    }
    Ok(())
}

// What is told of a part.
fn told_part(alloc: Global, left: &Left, part: Part) -> Result<String, Fail> {
    let mut text = String::new(alloc);
    write_part(&mut text, left, part)?;
    Ok(text)
}

// A part as it is now, where that isn't as it was; of one that is now as in the initial state its name.
fn write_told_change(
    text: &mut String,
    alloc: Global,
    before: &Left,
    after: &Left,
    part: Part,
) -> Result<(), Fail> {
    let was = told_part(alloc, before, part)?;
    let is = told_part(alloc, after, part)?;
    if was.as_str() == is.as_str() {
        return Ok(());
    }
    if is.is_empty() {
        write!(text, "no {part:?}")?;
    }
    text.push_str(is.as_str())?;
    Ok(())
}

// A part that is changed.
fn write_changed_part(
    text: &mut String,
    alloc: Global,
    before: &Left,
    after: &Left,
    part: Part,
) -> Result<(), Fail> {
    match part {
        Part::Lines => {
            write_changed_lines(text, before.terminal.screen(), after.terminal.screen())
        }
        Part::Modes => write_changed_modes(text, before.terminal.modes(), after.terminal.modes()),
        _ => write_told_change(text, alloc, before, after, part),
    }
}

// A word, after a space where words come before it.
fn write_word(text: &mut String, word: &str) -> Result<(), Fail> {
    if word.is_empty() {
        return Ok(());
    }
    if !text.is_empty() {
        text.push(' ')?;
    }
    text.push_str(word)?;
    Ok(())
}

// All parts that are changed, one space between them.
pub(crate) fn changed(alloc: Global, before: &Left, after: &Left) -> Result<String, Fail> {
    let mut text = String::new(alloc);
    for part in PARTS {
        let mut word = String::new(alloc);
        write_changed_part(&mut word, alloc, before, after, part)?;
        write_word(&mut text, word.as_str().trim_matches(' '))?;
    }
    Ok(text)
}

pub(crate) fn assert_changes(
    rt: &(impl Abort + AllocGlobal),
    start: &str,
    bytes: &str,
    want: &str,
) -> Result<(), Fail> {
    let before = feed_reset(rt.alloc(), &[start.as_bytes()])?;
    let after = feed_reset(rt.alloc(), &[start.as_bytes(), bytes.as_bytes()])?;
    let text = changed(rt.alloc(), &before, &after)?;
    assert_eq!(rt;
        text.as_str(),
        want,
        "at {}",
        bytes.as_bytes().escape_ascii()
    );
    Ok(())
}

// The bytes of each row, and what they change of what the start leaves.
pub(crate) fn all_change_from(
    rt: &(impl Abort + AllocGlobal),
    start: &str,
    rows: &[(&str, &str)],
) -> Result<(), Fail> {
    for (bytes, want) in rows {
        assert_changes(rt, start, bytes, want)?;
    }
    Ok(())
}

// The same from both starts.
pub(crate) fn all_change(rt: &(impl Abort + AllocGlobal), rows: Rows) -> Result<(), Fail> {
    for (bytes, of_set, of_wrapping) in rows {
        assert_changes(rt, SET, bytes, of_set)?;
        assert_changes(rt, WRAPPING, bytes, of_wrapping)?;
    }
    Ok(())
}
