//! Sessions of a strip, call by call: what each call answers, told as a text.
use crate::strip::{Setup, Strip};
use std::alloc::Global;
use std::fmt::Write;
use std::process::Abort;
use std::test::Fail;
use tape_core::{Recording, read_recording};
use tape_seek::{Edit, Request, Session, View, read_line};

mod client;
mod large;
mod refused;
mod rows;
mod walked;

/// A chunk's delay in seconds, and its bytes.
type Timed<'a> = (&'a str, &'a [u8]);

/// Chunks of one byte each, a second apart.
const TEN: &[Timed<'static>] = &[
    ("1", b"0"),
    ("1", b"1"),
    ("1", b"2"),
    ("1", b"3"),
    ("1", b"4"),
    ("1", b"5"),
    ("1", b"6"),
    ("1", b"7"),
    ("1", b"8"),
    ("1", b"9"),
];

fn recorded(alloc: Global, chunks: &[Timed<'_>]) -> Result<Recording, Fail> {
    let mut script = Vec::from_slice(alloc, b"Script started on X\n")?;
    let mut timing = String::new(alloc);
    for (seconds, bytes) in chunks {
        script.extend_from_slice(bytes)?;
        writeln!(timing, "{seconds} {}", bytes.len())?;
    }
    Ok(read_recording(alloc, script.as_slice(), timing.as_bytes())?)
}

/// Opens a session of a strip of so many cells, if a strip can be stored at every so many chunks.
fn stored_at(
    alloc: Global,
    recording: Recording,
    every: usize,
    size: usize,
) -> Result<Session<Strip>, Recording> {
    if every == 0 || every > 1_000_000 {
        return Err(recording);
    }
    Session::open_with(alloc, recording, every, Setup { size })
}

/// A session of a strip of so many cells over these chunks.
fn opened(
    alloc: Global,
    chunks: &[Timed<'_>],
    every: usize,
    size: usize,
) -> Result<Session<Strip>, Fail> {
    Ok(stored_at(alloc, recorded(alloc, chunks)?, every, size)?)
}

/// A view as a text, in parts with a space between:
///
/// | Part | What it tells |
/// |---|---|
/// | `count 3 fed 1` | how many chunks the view shows, and how many the seek fed |
/// | `sent a..` | all that was sent; nothing where nothing was |
/// | `shows ab.` | the cells |
/// | `quoting` | the next byte is quoted |
fn told_of_view(alloc: Global, view: &View<'_, Strip>) -> Result<String, Fail> {
    let mut text = String::new(alloc);
    write!(text, "count {} fed {}", view.count(), view.fed())?;
    if !view.reports().is_empty() {
        text.push_str(" sent ")?;
        push_bytes(&mut text, view.reports())?;
    }
    text.push_str(" shows ")?;
    push_bytes(&mut text, view.terminal().cells())?;
    if view.terminal().is_quoting() {
        text.push_str(" quoting")?;
    }
    Ok(text)
}

fn push_bytes(text: &mut String, bytes: &[u8]) -> Result<(), Fail> {
    for byte in bytes {
        text.push(char::from(*byte))?;
    }
    Ok(())
}

fn told_of_edit(alloc: Global, session: &mut Session<Strip>, edit: Edit) -> Result<String, Fail> {
    match session.apply(edit) {
        Ok(()) => Ok(format!(in alloc; "ok")?),
        Err(refused) => {
            let fault = refused.fault;
            Ok(format!(in alloc; "{fault:?}")?)
        }
    }
}

fn told_of_line(alloc: Global, session: &mut Session<Strip>, line: &[u8]) -> Result<String, Fail> {
    match read_line(alloc, line)? {
        Request::Edit(edit) => told_of_edit(alloc, session, edit),
        Request::Screen(moment) | Request::Reports(moment) => {
            told_of_view(alloc, &session.play_to(moment)?)
        }
        _ => Ok(String::new(alloc)),
    }
}

fn told_of_count(
    alloc: Global,
    session: &mut Session<Strip>,
    count: usize,
) -> Result<String, Fail> {
    if count <= session.recording().chunks().len() {
        told_of_view(alloc, &session.play_to_count(count)?)
    } else {
        Ok(format!(in alloc; "past the end")?)
    }
}

/// What a call answers: `seek COUNT`, or what a request line asks for.
fn told(alloc: Global, session: &mut Session<Strip>, call: &str) -> Result<String, Fail> {
    match call.strip_prefix("seek ") {
        Some(count) => told_of_count(alloc, session, count.parse()?),
        None => told_of_line(alloc, session, call.as_bytes()),
    }
}

/// Makes the calls in turn, and compares what they answer and leave: a row is a call, its answer, and after it frontier,
/// head and held().
fn compare(
    rt: &impl Abort,
    alloc: Global,
    session: &mut Session<Strip>,
    rows: &[&str],
) -> Result<(), Fail> {
    for row in rows {
        let (call, _) = row.split_once(" | ").unwrap_or((row, ""));
        let answer = told(alloc, session, call)?;
        let (frontier, head, held) = (session.frontier(), session.head(), session.held());
        let left = format!(in alloc; "{call} | {answer} | {frontier} {head} {held}")?;
        assert_eq!(rt; left.as_str(), *row);
    }
    Ok(())
}
