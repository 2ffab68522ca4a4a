//! Control sequences: from their introducer, or from where their text was left, to the final byte or as far as it goes.
ghost use Rattle.std.specs.Prelude.{◌≡◌, ℕ, ◌≤◌, ◌<◌, List, length, take, slice_index, true, false, Some};
ghost use Rattle.vt_parser.specs.Syntax.{is_graphic};
ghost use Rattle.vt_parser.specs.Forms.{most_params, held, is_plain};
ghost use Rattle.vt_parser.specs.Machine.{moves_to, digit_joined, semicolon_joined};
ghost use Rattle.vt_parser.specs.Reading.{IsOpening, IsCounted, gathered, collected, event_command, event_transition, Reads, IsLent, GoesOn};

use crate::commands::Event;
use crate::limits::{GREATEST_PARAM, MOST_PARAMS};
use crate::states::copied;
use crate::syntax::{
    QUESTION_MARK, SEMICOLON, is_control_sequence_final, is_control_sequence_text, is_graphic,
};
use crate::{Command, Mode, ParserState};

/// Where the parameters of a control sequence lie.
pub(crate) type Params = [u16; MOST_PARAMS];

/// What was read of the text of a control sequence. The parameters before the last one lie in an array.
#[derive(Clone, Copy)]
pub(crate) struct Collected {
    pub private: bool,
    pub count: usize,
    pub last: u16,
    pub over: bool,
}

/// ESC `[` in ANSI mode, and what follows of its text.
#[inline(always)]
pub(crate) fn read_control_sequence(
    state: &mut ParserState,
    params: &mut Params,
    bytes: &[u8],
) -> (usize, Option<Event>)
    requires { IsOpening bytes.now }
    ensures some { 0 < result.0 }
    ensures within { result.0 ≤ length bytes.now }
    ensures long { length params.new ≡ most_params }
    ensures lent { IsLent result.1 }
    ensures runs { (start : ParserState)
        → Reads start Mode.Ansi bytes.now result params.new state.new }
{
    let text = &bytes[2..];
    if text.is_empty() || !is_graphic(text[0]) {
        *state = ParserState::CsiStart;
        return (2, None);
    }
    let (taken, event) = read_first(state, params, text);
    (taken + 2, event)
}

/// Reads the text of a control sequence from its first byte on.
#[inline(always)]
pub(crate) fn read_first(
    state: &mut ParserState,
    params: &mut Params,
    bytes: &[u8],
) -> (usize, Option<Event>)
    requires some { 0 < length bytes.now }
    requires graphic { is_graphic (slice_index bytes.now 0) ≡ true }
    ensures some { 0 < result.0 }
    ensures within { result.0 ≤ length bytes.now }
    ensures lent { IsLent result.1 }
    ensures runs { (mode : Mode)
        → Reads ParserState.CsiStart mode bytes.now result params.new state.new }
{
    let private = bytes[0] == QUESTION_MARK;
    let text = Collected {
        private,
        count: 1,
        last: 0,
        over: false,
    };
    read_text(state, params, text, bytes, usize::from(private))
}

/// What a state holds, its parameters put into the array.
#[inline(always)]
pub(crate) fn resumed(private: bool, before: &[u16], over: bool, params: &mut Params) -> Collected
    requires some { 0 < length before.now }
    requires few { length before.now ≤ MOST_PARAMS }
    ensures counted { IsCounted result }
    ensures value { collected result params.new ≡ ParserState.Csi private (held before.now) over }
{
    let count = before.len();
    params[..count].copy_from_slice(before);
    let last = before[count - 1];
    Collected {
        private,
        count,
        last,
        over,
    }
}

/// Reads the text of a control sequence from `from` on, to the final byte or as far as it goes.
#[inline(always)]
pub(crate) fn read_text(
    state: &mut ParserState,
    params: &mut Params,
    text: Collected,
    bytes: &[u8],
    from: usize,
) -> (usize, Option<Event>)
    requires counted { IsCounted text }
    requires within { from ≤ length bytes.now }
    requires graphic { is_graphic (slice_index bytes.now 0) ≡ true }
    requires some { 0 < length bytes.now }
    ensures some { 0 < result.0 }
    ensures within { result.0 ≤ length bytes.now }
    ensures lent { IsLent result.1 }
    ensures runs { GoesOn (take from bytes.now) (collected text params.old)
        (take result.0 bytes.now) (event_transition result.1 params.new state.new) }
{
    let (at, text) = collect(text, params, bytes, from);
    if at < bytes.len() {
        let byte = bytes[at];
        if is_control_sequence_final(byte) {
            return (at + 1, finish(state, params, text, byte));
        }
        if is_control_sequence_text(byte) {
            *state = ParserState::CsiIgnored;
            return (at + 1, None);
        }
    }
    suspend(state, params, text);
    (at, None)
}

// Reads digits and `;` from `from` on, and says where they end.
#[inline(always)]
fn collect(text: Collected, params: &mut Params, bytes: &[u8], from: usize) -> (usize, Collected)
    requires counted { IsCounted text }
    requires within { from ≤ length bytes.now }
    ensures counted { IsCounted result.1 }
    ensures from { from ≤ result.0 }
    ensures within { result.0 ≤ length bytes.now }
    ensures moved { GoesOn (take from bytes.now) (collected text params.old)
        (take result.0 bytes.now) (moves_to (collected result.1 params.new)) }
    ensures end { result.0 < length bytes.now → is_plain (slice_index bytes.now result.0) ≡ false }
{
    let mut text = text;
    let mut at = from;
    while at < bytes.len() {
        match bytes[at] {
            b'0'..=b'9' => text = with_next_digit(text, bytes[at]),
            SEMICOLON => text = with_next_param(text, params),
            _ => return (at, text),
        }
        at += 1;
    }
    (at, text)
}

// One more digit of the last parameter.
#[inline(always)]
#[tactic(auto, using(crate::proofs::Joins::front_push, crate::proofs::Joins::final_push))]
fn with_next_digit(text: Collected, digit: u8) -> Collected
    requires { 48 ≤ digit }
    ensures counted { IsCounted text → IsCounted result }
    ensures value { (params : List ℕ) → collected result params
        ≡ digit_joined text.private (gathered text params) text.over digit }
{
    let mut text = text;
    if !text.over {
        let value = 10 * u32::from(text.last) + u32::from(digit - b'0');
        text.last = value.min(GREATEST_PARAM) as u16;
    }
    text
}

// A further parameter, where one more counts.
#[inline(always)]
fn with_next_param(text: Collected, params: &mut Params) -> Collected
    requires { IsCounted text }
    ensures counted { IsCounted result }
    ensures value { collected result params.new
        ≡ semicolon_joined text.private (gathered text params.old) text.over }
{
    let mut text = text;
    if text.count < MOST_PARAMS {
        params[text.count - 1] = text.last;
        text.count += 1;
        text.last = 0;
    } else {
        text.over = true;
    }
    text
}

// The final byte of a control sequence.
#[inline(always)]
fn finish(state: &mut ParserState, params: &mut Params, text: Collected, last: u8) -> Option<Event>
    requires { IsCounted text }
    ensures state { state.new ≡ ParserState.Ground }
    ensures lent { IsLent result }
    ensures command { event_command result params.new
        ≡ Some (Command.Csi text.private (gathered text params.old) last) }
{
    params[text.count - 1] = text.last;
    // Most control sequences come whole, so that the state stands on ground still, and nothing is written.
    if !matches!(state, ParserState::Ground) {
        *state = ParserState::Ground;
    }
    Some(Event::Csi {
        private: text.private,
        count: text.count,
        last,
    })
}

// The bytes end inside the text, or a byte comes that doesn't belong to it.
fn suspend(state: &mut ParserState, params: &mut Params, text: Collected)
    requires { IsCounted text }
    ensures { state.new ≡ collected text params.old }
{
    params[text.count - 1] = text.last;
    *state = ParserState::Csi {
        private: text.private,
        params: copied(&params[..text.count]),
        over: text.over,
    };
}
