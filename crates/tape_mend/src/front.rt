//! The front of a timing file: its lines before the first that has a fault.
ghost use Rattle.std.specs.Prelude.{◌≡◌, ◌≤◌, ◌++◌, ◌∷◌, IfOk, IfSome, OnOk, length};
ghost use Rattle.tape_mend.specs.declared.line.Format.{Format};
ghost use Rattle.tape_mend.specs.Counting.{line_pieces};
ghost use Rattle.tape_core.specs.Text.{fields};
ghost use Rattle.tape_mend.specs.Front.{format_by, format_of, front_of, is_decimal, is_event_line, is_sudos};
ghost use Rattle.tape_mend.specs.Lines.{timing_lines};
ghost use Rattle.tape_mend.specs.Steps.{IsSmall, IsSound};

use crate::counting::{Behind, Piece};
use crate::line::{Format, Line, LineFault, event_named, read_line};
use crate::lines::{count_lines, next_timing_line};
use crate::logs::Logs;
use std::alloc::{AllocError, Global};
use tape_core::text::{next_field, position_of, read_number};
use tape_core::timing::has_letter_first;

/// What was read before the first fault: the parts of the body, what the lines come to, the fault, and how many lines
/// are left out from it on.
#[derive(Drop)]
pub struct Front {
    pub pieces: Vec<Piece>,
    pub behind: Behind,
    pub fault: Option<LineFault>,
    pub left: u64,
}

/// The format of a timing file: the first field of the first line that isn't blank tells it.
fn format_of_timing(timing: &[u8]) -> Format
    ensures { result ≡ format_of (timing_lines timing.now) }
{
    let mut rest = timing;
    while !rest.is_empty() {
        let (line, after) = next_timing_line(rest);
        if let Some((first, behind)) = next_field(line) {
            return format_by(first, behind);
        }
        rest = after;
    }
    Format::Classic
}

/// Whether a timing file is in sudo's format.
pub fn is_sudos(timing: &[u8]) -> bool
    ensures { result ≡ is_sudos timing.now }
{
    matches!(format_of_timing(timing), Format::Sudo)
}

/// The format by the first line that isn't blank: its first field, and what stands behind it.
fn format_by(first: &[u8], behind: &[u8]) -> Format
    ensures { (other : Format) → result ≡ format_by (first.now ∷ fields behind.now) other }
{
    if has_letter_first(first) {
        Format::Streams
    } else if is_event_line(first, behind) {
        Format::Sudo
    } else {
        Format::Classic
    }
}

/// Whether a line is sudo's, by its first field and what stands behind it.
fn is_event_line(first: &[u8], behind: &[u8]) -> bool
    ensures { result ≡ is_event_line (first.now ∷ fields behind.now) }
{
    let Some((second, rest)) = next_field(behind) else {
        return false;
    };
    next_field(rest).is_some() && event_named(first).is_some() && is_decimal(second)
}

/// Whether a text is digits, a point and digits.
fn is_decimal(text: &[u8]) -> bool
    ensures { result ≡ is_decimal text.now }
{
    let point = position_of(text, b'.');
    if point == text.len() {
        return false;
    }
    read_number(&text[..point]).is_some() && read_number(&text[point + 1..]).is_some()
}

/// Adds the part of the body that a line counts, if it does.
fn add_piece(
    pieces: &mut Vec<Piece>,
    behind: Behind,
    shared: bool,
    said: Option<Line>,
) -> Result<(), AllocError>
    requires sound { IsSound behind }
    requires small { IfSome said IsSmall }
    ensures { OnOk result (pieces.new.items ≡ pieces.old.items ++ line_pieces behind shared said) }
{
    let Some(line) = said else {
        return Ok(());
    };
    if let Some(piece) = behind.piece(shared, line) {
        pieces.push(piece)?;
    }
    Ok(())
}

/// Reads the lines of a timing file up to the first that has a fault.
pub fn read_front(alloc: Global, timing: &[u8]) -> Result<Front, AllocError>
    ensures front { IfOk result (λ f. front_of timing.now
        ≡ record { pieces = f.pieces.items; behind = f.behind; fault = f.fault; left = f.left }) }
    ensures lines { IfOk result (λ f. f.behind.lines ≤ length timing.now) }
{
    let format = format_of_timing(timing);
    let mut pieces = Vec::new(alloc);
    let mut behind = Behind::no_lines();
    let mut logs = Logs {
        output: None,
        input: None,
        shared: false,
    };
    let mut rest = timing;
    while !rest.is_empty() {
        let (text, after) = next_timing_line(rest);
        let shared = logs.shared;
        let said = match behind.limited(shared, read_line(format, text)) {
            Ok(said) => said,
            Err(fault) => {
                let left = count_lines(rest);
                return Ok(Front {
                    pieces,
                    behind,
                    fault: Some(fault),
                    left,
                });
            }
        };
        add_piece(&mut pieces, behind, shared, said)?;
        behind = behind.with_line(shared, said);
        logs = logs.behind(format, text);
        rest = after;
    }
    Ok(Front {
        pieces,
        behind,
        fault: None,
        left: 0,
    })
}
