//! Sessions, call by call: what each call answers, told as a text.

use std::alloc::Global;
use std::fmt::Write;
use std::process::Abort;
use std::test::Fail;
use tape_core::{Recording, Watched, read_recording};
use tape_seek::{Edit, Request, Session, View, read_line, write_log};
use vt_term::Terminal;

mod faults;
mod large;
mod refused;
mod requests;
mod rows;
mod written_log;

/// A chunk's delay in seconds, and its bytes.
type Timed<'a> = (&'a str, &'a [u8]);

fn script_of(alloc: Global, chunks: &[Timed<'_>]) -> Result<Vec<u8>, Fail> {
    let mut script = Vec::from_slice(alloc, b"Script started on X\n")?;
    for (_, bytes) in chunks {
        script.extend_from_slice(bytes)?;
    }
    Ok(script)
}

fn timing_of(alloc: Global, chunks: &[Timed<'_>]) -> Result<String, Fail> {
    let mut timing = String::new(alloc);
    for (seconds, bytes) in chunks {
        writeln!(timing, "{seconds} {}", bytes.len())?;
    }
    Ok(timing)
}

fn recorded(alloc: Global, chunks: &[Timed<'_>]) -> Result<Recording, Fail> {
    let script = script_of(alloc, chunks)?;
    let timing = timing_of(alloc, chunks)?;
    Ok(read_recording(alloc, script.as_slice(), timing.as_bytes())?)
}

/// Opens a session of a VT100, if a terminal can be stored at every so many chunks.
fn stored_at(alloc: Global, recording: Recording, every: usize) -> Result<Session, Recording> {
    if every == 0 || every > 1_000_000 {
        return Err(recording);
    }
    Session::open(alloc, recording, every)
}

/// A session of a VT100 over these chunks.
fn opened(alloc: Global, chunks: &[Timed<'_>], every: usize) -> Result<Session, Fail> {
    Ok(stored_at(alloc, recorded(alloc, chunks)?, every)?)
}

/// A view as a text, in parts with a space between:
///
/// | Part | What it tells |
/// |---|---|
/// | `count 3 fed 1` | how many chunks the view shows, and how many the seek fed |
/// | `sent E[?6c` | all that was sent, with E for ESC; nothing where nothing was |
/// | `2:ab` | the characters of line 2, of its columns 1 to 8; nothing for a line that is blank there |
/// | `wrap` | a wrap is pending |
/// | `in Escape` | a sequence is pending: the parser's state, where that isn't ground |
fn told_of_view(alloc: Global, view: &View<'_>) -> Result<String, Fail> {
    let mut text = String::new(alloc);
    write!(text, "count {} fed {}", view.count(), view.fed())?;
    if !view.reports().is_empty() {
        text.push_str(" sent ")?;
    }
    for byte in view.reports() {
        text.push(if *byte == 27 { 'E' } else { char::from(*byte) })?;
    }
    write_terminal(alloc, &mut text, view.terminal())?;
    Ok(text)
}

/// Lines that aren't blank up to column 8, a pending wrap and a pending sequence.
fn write_terminal(alloc: Global, text: &mut String, terminal: &Terminal) -> Result<(), Fail> {
    for line in 1..25 {
        let mut shown = String::new(alloc);
        for column in 1..9 {
            let cell = terminal.screen().cell(line, column);
            shown.push(char::from(cell.glyph))?;
        }
        let shown = shown.as_str().trim_end();
        if !shown.is_empty() {
            write!(text, " {line}:{shown}")?;
        }
    }
    if terminal.screen().wrap() {
        text.push_str(" wrap")?;
    }
    let state = format!(in alloc; "{:?}", terminal.parser_state())?;
    if state.as_str() != "Ground" {
        write!(text, " in {state}")?;
    }
    Ok(())
}

fn told_of_edit(alloc: Global, session: &mut Session, edit: Edit) -> Result<String, Fail> {
    match session.apply(edit) {
        Ok(()) => Ok(format!(in alloc; "ok")?),
        Err(refused) => {
            let fault = refused.fault;
            Ok(format!(in alloc; "{fault:?}")?)
        }
    }
}

fn told_of_log(alloc: Global, session: &Session) -> Result<String, Fail> {
    let mut writer = Watched::new(Vec::new(alloc));
    write_log(session.log(), &mut writer)?;
    Ok(String::from_utf8(writer.into_inner())?)
}

fn told_of_line(alloc: Global, session: &mut Session, line: &[u8]) -> Result<String, Fail> {
    match read_line(alloc, line)? {
        Request::Edit(edit) => told_of_edit(alloc, session, edit),
        Request::Screen(moment) | Request::Reports(moment) => {
            told_of_view(alloc, &session.seek(moment)?)
        }
        Request::Log => told_of_log(alloc, session),
        Request::Info => {
            let recording = session.recording();
            let chunks = recording.chunks().len();
            let bytes = recording.body_len();
            Ok(format!(in alloc; "{chunks} chunks, {bytes} bytes, {} us", recording.length())?)
        }
        Request::Nothing | Request::Changes { .. } => Ok(String::new(alloc)),
    }
}

fn told_of_count(alloc: Global, session: &mut Session, count: usize) -> Result<String, Fail> {
    if count <= session.recording().chunks().len() {
        told_of_view(alloc, &session.seek_count(count)?)
    } else {
        Ok(format!(in alloc; "past the end")?)
    }
}

/// What a call answers: `seek COUNT`, or what a request line asks for.
fn told(alloc: Global, session: &mut Session, call: &str) -> Result<String, Fail> {
    match call.strip_prefix("seek ") {
        Some(count) => told_of_count(alloc, session, count.parse()?),
        None => told_of_line(alloc, session, call.as_bytes()),
    }
}

/// Makes the calls in turn, and compares what they answer and leave: a row is a call, its answer, and after it frontier,
/// head and held().
fn compare(
    rt: &impl Abort,
    alloc: Global,
    session: &mut Session,
    rows: &[&str],
) -> Result<(), Fail> {
    for row in rows {
        let (call, _) = row.split_once(" | ").unwrap_or((row, ""));
        let answer = told(alloc, session, call)?;
        let (frontier, head, held) = (session.frontier(), session.head(), session.held());
        let left = format!(in alloc; "{call} | {answer} | {frontier} {head} {held}")?;
        assert_eq!(rt; left.as_str(), *row);
    }
    Ok(())
}
