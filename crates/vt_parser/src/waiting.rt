//! Bytes that come before the end of a sequence.
ghost use Rattle.std.specs.Prelude.{◌≡◌, ◌+◌, ◌<◌, ◌≤◌, List, Some, length, drop, slice_index, take, ℕ};
ghost use Rattle.std.specs.List.{prefix_len};
ghost use Rattle.vt_parser.specs.declared.commands.Mode.TheVariants.{Ansi};
ghost use Rattle.vt_parser.specs.Fold.{Waits};
ghost use Rattle.vt_parser.specs.Forms.{is_control_sequence_text};
ghost use Rattle.vt_parser.specs.Machine.{Holds, is_skipped, is_text_begun};
ghost use Rattle.vt_parser.specs.Syntax.{escape};
ghost use Rattle.vt_parser.specs.View.{parser_view};

use crate::states::ParserState;
use crate::syntax::{BRACKET, begins_string, is_control_sequence_text, is_intermediate};

const ESC: u8 = 27;

/// How many of these bytes at least give no command in ANSI mode, and leave a sequence pending.
pub fn waiting_run(state: &ParserState, bytes: &[u8]) -> usize
    ensures waits { (pending : List ℕ) → parser_view Ansi pending ≡ Some state.now
        → Waits pending (take result bytes.now) }
    ensures within { result ≤ length bytes.now }
{
    if bytes.is_empty() {
        return 0;
    }
    if bytes[0] == ESC {
        return escape_end(bytes);
    }
    if is_text_begun(state) {
        return text_end(bytes, 0);
    }
    match state {
        ParserState::Text => string_end(bytes, 0),
        _ => 0,
    }
}

// Whether a control sequence is begun.
#[inline]
fn is_text_begun(state: &ParserState) -> bool
    ensures { result ≡ is_text_begun state.now }
{
    matches!(
        state,
        ParserState::CsiStart | ParserState::Csi { .. } | ParserState::CsiIgnored
    )
}

// The same of ESC and the bytes behind it.
fn escape_end(bytes: &[u8]) -> usize
    requires some { 0 < length bytes.now }
    requires first { slice_index bytes.now 0 ≡ escape }
    ensures holds { (state : ParserState) → Holds state (take result bytes.now) }
    ensures within { result ≤ length bytes.now }
{
    if bytes.len() < 2 {
        1
    } else if bytes[1] == BRACKET {
        text_end(bytes, 2)
    } else if begins_string(bytes[1]) {
        string_end(bytes, 2)
    } else if is_intermediate(bytes[1]) {
        2
    } else {
        1
    }
}

// Where the text of a control sequence ends, whose bytes from `from` on these are.
fn text_end(bytes: &[u8], from: usize) -> usize
    requires { from ≤ length bytes.now }
    ensures value { result ≡ from + prefix_len is_control_sequence_text (drop from bytes.now) }
    ensures within { result ≤ length bytes.now }
{
    let mut end = from;
    while end < bytes.len() && is_control_sequence_text(bytes[end]) {
        end += 1;
    }
    end
}

// Where a string ends, or is cut.
fn string_end(bytes: &[u8], from: usize) -> usize
    requires { from ≤ length bytes.now }
    ensures value { result ≡ from + prefix_len is_skipped (drop from bytes.now) }
    ensures within { result ≤ length bytes.now }
{
    let mut end = from;
    while end < bytes.len() && is_skipped(bytes[end]) {
        end += 1;
    }
    end
}

#[inline]
fn is_skipped(byte: u8) -> bool
    ensures { result ≡ is_skipped byte }
{
    !matches!(byte, 7 | 24 | 26 | ESC)
}
