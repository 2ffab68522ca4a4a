//! What bytes change of the terminal that a start leaves, told as a text in the words of the legend above: a part that is
//! changed as it is now, `no PART` where it is now as in the initial state, of the modes `+NAME` and `-NAME`, and of the lines
//! those that are changed, `8-10:` where several are now alike.
ghost use Rattle.std.specs.Prelude.{◌≤◌, ◌+◌};

use super::{Left, PARTS, Part, feed_reset_as, write_line, write_part, write_picture_part};
use std::alloc::Global;
use std::fmt::Write;
use std::process::Abort;
use std::test::Fail;
use vt_parser::Mode;
use vt_screen::Screen;
use vt_term::{Modes, Profile};

// The modes by their names.
fn named_modes(modes: Modes) -> [(bool, &'static str); 11] {
    [
        (modes.mode == Mode::Vt52, "VT52"),
        (modes.cursor_keys, "DECCKM"),
        (modes.smooth_scroll, "DECSCLM"),
        (modes.reverse_screen, "DECSCNM"),
        (modes.origin, "DECOM"),
        (modes.autowrap, "DECAWM"),
        (modes.auto_repeat, "DECARM"),
        (modes.interlace, "DECINLM"),
        (modes.newline, "LNM"),
        (modes.insert, "IRM"),
        (modes.application_keypad, "DECKPAM"),
    ]
}

// The modes that are set now, each after +, and those that are reset, each after -.
fn write_changed_modes(text: &mut String, before: Modes, after: Modes) -> Result<(), Fail> {
    let was = named_modes(before);
    let is = named_modes(after);
    for i in 0..11 {
        let (is_set, name) = is[i];
        if is_set != was[i].0 {
            text.push_str(if is_set { " +" } else { " -" })?;
            text.push_str(name)?;
        }
    }
    Ok(())
}

// How many lines from one on are changed, and are now as the one there.
fn lines_alike(before: &Screen, after: &Screen, line: u8) -> u8
    requires low { 1 ≤ line }
    requires high { line ≤ 24 }
    ensures some { 1 ≤ result }
    ensures within { line + result ≤ 25 }
{
    for next in line + 1..25 {
        let is_alike = *after.row(next) == *after.row(line);
        if !is_alike || *after.row(next) == *before.row(next) {
            return next - line;
        }
    }
    25 - line
}

// The lines that are changed, as they are now; lines alike that follow one another together.
fn write_changed_lines(text: &mut String, before: &Screen, after: &Screen) -> Result<(), Fail> {
    let mut next = 1;
    for line in 1..25 {
        if line < next || *after.row(line) == *before.row(line) {
            continue;
        }
        next = line + lines_alike(before, after, line);
        write!(text, "{line}")?;
        if next > line + 1 {
            write!(text, "-{}", next - 1)?;
        }
        write_line(text, after, line)?;
    }
    Ok(())
}

fn write_initial(text: &mut String, part: Part) -> Result<(), Fail> {
    write!(text, "no {part:?}")?;
    Ok(())
}

// A part as it is now, where that isn't as it was; of one that is now as in the initial state its name.
fn write_change(text: &mut String, part: Part, was: &str, is: &str) -> Result<(), Fail> {
    if was == is {
        Ok(())
    } else if is.is_empty() {
        write_initial(text, part)
    } else {
        text.push_str(is)?;
        Ok(())
    }
}

// What is told of a part.
fn told_part(alloc: Global, left: &Left, part: Part) -> Result<String, Fail> {
    let mut text = String::new(alloc);
    write_part(&mut text, left, part)?;
    Ok(text)
}

// A part told before and after.
fn write_told_change(
    text: &mut String,
    alloc: Global,
    before: &Left,
    after: &Left,
    part: Part,
) -> Result<(), Fail> {
    let was = told_part(alloc, before, part)?;
    let is = told_part(alloc, after, part)?;
    write_change(text, part, was.as_str(), is.as_str())
}

// A part that is changed.
fn write_changed_part(
    text: &mut String,
    alloc: Global,
    before: &Left,
    after: &Left,
    part: Part,
) -> Result<(), Fail> {
    match part {
        Part::Lines => {
            write_changed_lines(text, before.terminal.screen(), after.terminal.screen())
        }
        Part::Modes => write_changed_modes(text, before.terminal.modes(), after.terminal.modes()),
        _ => write_told_change(text, alloc, before, after, part),
    }
}

/// What a screen shows, in the same words: lines alike that follow one another together, columns, cursor, margins and tabs.
pub(crate) fn told_screen(alloc: Global, screen: &Screen) -> Result<String, Fail> {
    let mut text = String::new(alloc);
    write_changed_lines(&mut text, &Screen::reset(), screen)?;
    for part in [Part::Columns, Part::Cursor, Part::Margins, Part::Tabs] {
        write_picture_part(&mut text, screen, part)?;
    }
    Ok(text)
}

// A word, after a space where words come before it.
fn write_word(text: &mut String, word: &str) -> Result<(), Fail> {
    if word.is_empty() {
        return Ok(());
    }
    if !text.is_empty() {
        text.push(' ')?;
    }
    text.push_str(word)?;
    Ok(())
}

// All parts that are changed, one space between them.
pub(super) fn changed(alloc: Global, before: &Left, after: &Left) -> Result<String, Fail> {
    let mut text = String::new(alloc);
    for part in PARTS {
        let mut word = String::new(alloc);
        write_changed_part(&mut word, alloc, before, after, part)?;
        write_word(&mut text, word.as_str().trim())?;
    }
    Ok(text)
}

// What the pieces change of what the start leaves.
pub(super) fn changed_by(
    alloc: Global,
    profile: Profile,
    start: &[&[u8]],
    pieces: &[&[u8]],
) -> Result<String, Fail> {
    let before = feed_reset_as(alloc, profile, start)?;
    let mut after = feed_reset_as(alloc, profile, start)?;
    after.feed(pieces)?;
    changed(alloc, &before, &after)
}

pub(super) fn assert_changes(
    rt: &(impl Abort + AllocGlobal),
    profile: Profile,
    start: &[&[u8]],
    bytes: &[u8],
    want: &str,
) -> Result<(), Fail> {
    let text = changed_by(rt.alloc(), profile, start, &[bytes])?;
    assert_eq!(rt;
        text.as_str(),
        want,
        "at {} of a {profile:?}",
        bytes.escape_ascii()
    );
    Ok(())
}

// The bytes of each row, and what they change of what the start leaves, in a profile.
pub(super) fn all_change_as(
    rt: &(impl Abort + AllocGlobal),
    profile: Profile,
    start: &[&[u8]],
    rows: &[(&[u8], &str)],
) -> Result<(), Fail> {
    for (bytes, want) in rows {
        assert_changes(rt, profile, start, bytes, want)?;
    }
    Ok(())
}

// The same in both profiles.
pub(super) fn all_change(
    rt: &(impl Abort + AllocGlobal),
    start: &[&[u8]],
    rows: &[(&[u8], &str)],
) -> Result<(), Fail> {
    all_change_as(rt, Profile::Vt100, start, rows)?;
    all_change_as(rt, Profile::Vt102, start, rows)
}

// Rows that differ: what the bytes change of a VT100, and what of a VT102.
pub(super) fn all_change_by_profile(
    rt: &(impl Abort + AllocGlobal),
    start: &[&[u8]],
    rows: &[(&[u8], &str, &str)],
) -> Result<(), Fail> {
    for (bytes, of_vt100, of_vt102) in rows {
        assert_changes(rt, Profile::Vt100, start, bytes, of_vt100)?;
        assert_changes(rt, Profile::Vt102, start, bytes, of_vt102)?;
    }
    Ok(())
}
