//! Whether bytes begin with a run on ground or with a control sequence, and where they don't, from a state to the next,
//! in place. `read` is the top of that: bytes go by the table of the control syntax, and the text of a control sequence by
//! `control_sequence`.
ghost use Rattle.std.specs.Prelude.{◌≡◌, ◌≢◌, ◌==◌, ℕ, ◌≤◌, ◌<◌, List, length, take, slice_index, true, false, None};
ghost use Rattle.std.specs.List.{list_all, prefix_len};
ghost use Rattle.vt_parser.specs.Syntax.{is_graphic};
ghost use Rattle.vt_parser.specs.Forms.{most_params};
ghost use Rattle.vt_parser.specs.Step.{control_of};
ghost use Rattle.vt_parser.specs.Machine.{context_in, begun, escape_joined, joined, stepped};
ghost use Rattle.vt_parser.specs.Reading.{HasParams, IsOpening, IsCollecting, event_command, Reads, IsTransition, IsLent};

use crate::commands::Event;
use crate::control_sequence::{Params, read_first, read_text, resumed};
use crate::syntax::{
    ADDRESS, ADDRESS_OFFSET, Action, BRACKET, Context, action_of, begins_string,
    is_control_sequence_final, is_effective, is_escape, is_graphic, is_intermediate, is_nul,
};
use crate::{Mode, ParserState, printable_run};
use ParserState::{
    Csi, CsiIgnored, CsiStart, Escape, EscapeMany, EscapeOne, Ground, Text, Vt52Column, Vt52Escape,
    Vt52Line,
};

/// How many bytes are shown just as they come: on ground the graphic ones, and none inside a sequence.
#[inline(always)]
#[tactic(auto, using(crate::proofs::LawLemmas::runs_are_graphic))]
pub(crate) fn run_at(state: &ParserState, bytes: &[u8]) -> usize
    requires { 0 < length bytes.now }
    ensures within { result ≤ length bytes.now }
    ensures graphic { list_all is_graphic (take result bytes.now) ≡ true }
    ensures ground { 0 < result → state.now ≡ ParserState.Ground }
    ensures none { result ≡ 0 → is_graphic (slice_index bytes.now 0) ≡ true
        → state.now ≢ ParserState.Ground }
{
    match state {
        Ground if is_graphic(bytes[0]) => printable_run(bytes),
        _ => 0,
    }
}

/// Whether bytes begin with ESC `[` in ANSI mode.
#[inline]
pub(crate) fn opens_control_sequence(mode: Mode, bytes: &[u8]) -> bool
    requires { 0 < length bytes.now }
    ensures { result ≡ true → (mode ≡ Mode.Ansi) × IsOpening bytes.now }
{
    matches!(mode, Mode::Ansi) && is_escape(bytes[0]) && bytes.len() > 1 && bytes[1] == BRACKET
}

/// Takes some of the bytes, at least one, and says how many and what they come to, where they are no run on ground.
#[inline(always)]
pub(crate) fn read(
    state: &mut ParserState,
    params: &mut Params,
    mode: Mode,
    bytes: &[u8],
) -> (usize, Option<Event>)
    requires some { 0 < length bytes.now }
    requires params { HasParams state.old }
    requires off { is_graphic (slice_index bytes.now 0) ≡ true → state.old ≢ ParserState.Ground }
    ensures some { 0 < result.0 }
    ensures within { result.0 ≤ length bytes.now }
    ensures long { length params.new ≡ most_params }
    ensures lent { IsLent result.1 }
    ensures runs { Reads state.old mode bytes.now result params.new state.new }
{
    let byte = bytes[0];
    if is_graphic(byte) {
        read_graphic(state, params, bytes)
    } else if matches!(state, Ground) && is_effective(byte) {
        // The table says so too, and takes longer.
        (1, Some(Event::Control(byte)))
    } else if is_nul(byte) {
        (nul_run(bytes), None)
    } else {
        (1, act(state, mode, byte))
    }
}

// ---- ahead of the table

// How many NULs the bytes begin with.
#[inline(always)]
fn nul_run(bytes: &[u8]) -> usize
    ensures within { result ≤ length bytes.now }
    ensures value { result ≡ prefix_len (λ byte. byte == 0) bytes.now }
{
    let mut end = 0;
    while end < bytes.len() && is_nul(bytes[end]) {
        end += 1;
    }
    end
}

// Bytes of which the first is a graphic character, where it isn't shown.
#[inline(always)]
fn read_graphic(
    state: &mut ParserState,
    params: &mut Params,
    bytes: &[u8],
) -> (usize, Option<Event>)
    requires some { 0 < length bytes.now }
    requires graphic { is_graphic (slice_index bytes.now 0) ≡ true }
    requires params { HasParams state.old }
    requires off { state.old ≢ ParserState.Ground }
    ensures some { 0 < result.0 }
    ensures within { result.0 ≤ length bytes.now }
    ensures lent { IsLent result.1 }
    ensures runs { (mode : Mode) → Reads state.old mode bytes.now result params.new state.new }
{
    match state {
        CsiStart => read_first(state, params, bytes),
        Csi {
            private,
            params: held,
            over,
        } => {
            let text = resumed(*private, held.as_slice(), *over, params);
            read_text(state, params, text, bytes, 0)
        }
        _ => (1, join(state, bytes[0])),
    }
}

// ---- by the table

// A byte that is no graphic character.
#[inline(always)]
#[tactic(auto, unfolding(crate::specs::Machine::stepped))]
fn act(state: &mut ParserState, mode: Mode, byte: u8) -> Option<Event>
    requires { is_graphic byte ≡ false }
    ensures lent { IsLent result }
    ensures comes { IsTransition result state.new (stepped state.old mode byte) }
{
    match action_of(context_in(state), byte) {
        Action::Ignore => None,
        Action::Execute => control_of(byte),
        Action::Mark => Some(Event::Error),
        Action::Begin => go_to(state, begun(mode), None),
        Action::End => go_to(state, Ground, None),
        Action::Cancel => go_to(state, Ground, Some(Event::Error)),
        Action::Print | Action::Join => unreachable!(),
    }
}

#[inline]
fn context_in(state: &ParserState) -> Context
    ensures { result ≡ context_in state.now }
{
    match state {
        Ground => Context::Ground,
        Text => Context::Text,
        _ => Context::Sequence,
    }
}

#[inline]
fn control_of(byte: u8) -> Option<Event>
    ensures lent { IsLent result }
    ensures command { (params : List ℕ) → event_command result params ≡ control_of byte }
{
    if is_effective(byte) {
        Some(Event::Control(byte))
    } else {
        None
    }
}

#[inline]
fn begun(mode: Mode) -> ParserState
    ensures { result ≡ begun mode }
{
    match mode {
        Mode::Ansi => Escape,
        Mode::Vt52 => Vt52Escape,
    }
}

// A byte that joins a pending sequence, but for the text of a control sequence.
#[tactic(auto, unfolding(crate::specs::Machine::joined))]
#[inline(always)]
fn join(state: &mut ParserState, byte: u8) -> Option<Event>
    requires { IsCollecting state.old → ⊥ }
    ensures lent { IsLent result }
    ensures comes { IsTransition result state.new (joined state.old byte) }
{
    match state {
        Escape => join_escape(state, byte),
        EscapeOne(_) if is_intermediate(byte) => go_to(state, EscapeMany, None),
        EscapeOne(inter) => {
            let inter = Some(*inter);
            go_to(state, Ground, Some(Event::Esc { inter, last: byte }))
        }
        EscapeMany if !is_intermediate(byte) => go_to(state, Ground, None),
        CsiIgnored if is_control_sequence_final(byte) => go_to(state, Ground, None),
        Vt52Escape if byte == ADDRESS => go_to(state, Vt52Line, None),
        Vt52Escape => go_to(state, Ground, Some(Event::Vt52(byte))),
        Vt52Line => go_to(state, Vt52Column(byte), None),
        Vt52Column(line) => {
            let line = line.saturating_sub(ADDRESS_OFFSET);
            let column = byte.saturating_sub(ADDRESS_OFFSET);
            go_to(state, Ground, Some(Event::Vt52Address { line, column }))
        }
        _ => None,
    }
}

// ESC and this byte.
#[inline(always)]
fn join_escape(state: &mut ParserState, byte: u8) -> Option<Event>
    ensures lent { IsLent result }
    ensures comes { IsTransition result state.new (escape_joined byte) }
{
    if is_intermediate(byte) {
        go_to(state, EscapeOne(byte), None)
    } else if byte == BRACKET {
        go_to(state, CsiStart, None)
    } else if begins_string(byte) {
        go_to(state, Text, None)
    } else {
        let inter = None;
        go_to(state, Ground, Some(Event::Esc { inter, last: byte }))
    }
}

#[inline]
fn go_to(state: &mut ParserState, next: ParserState, event: Option<Event>) -> Option<Event>
    ensures state { state.new ≡ next }
    ensures event { result ≡ event }
{
    *state = next;
    event
}
