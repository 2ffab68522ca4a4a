//! Bytes that surely have no reply, which are played at once.

ghost use Rattle.std.specs.Prelude.{◌≡◌, ◌<◌, ◌≤◌, [], length, take};
ghost use Rattle.vt_term.specs.Seen.{Shows};
ghost use Rattle.vt_term.specs.Term.{Term, play, sent};

use crate::chunk_bytes::step;
use crate::fresh::waiting_len;
use crate::skim::{is_ground, run};
use vt_parser::laws::ground_is_empty;
use vt_parser::printable_run;
use vt_term::laws::{characters_bring, controls_bring, parts_bring, plays_in_parts};
use vt_term::{Reports, Terminal};

/// Plays bytes.
pub(crate) fn play_all(terminal: &mut Terminal, bytes: &[u8], scratch: &mut Reports)
    requires { 20 ≤ length scratch.old.bytes }
    ensures shows { (x : Term) → Shows terminal.old x → Shows terminal.new (play x bytes.now) }
    ensures scratch { 20 ≤ length scratch.new.bytes }
{
    plays_in_parts();
    let mut at = 0;
    while at < bytes.len() {
        at += play_some(terminal, &bytes[at..], scratch);
    }
}

/// Plays some of the bytes, and tells how many: those that surely have no reply, or else one.
fn play_some(terminal: &mut Terminal, bytes: &[u8], scratch: &mut Reports) -> usize
    requires some { 0 < length bytes.now }
    requires scratch { 20 ≤ length scratch.old.bytes }
    ensures some { 0 < result }
    ensures within { result ≤ length bytes.now }
    ensures shows { (x : Term) → Shows terminal.old x
        → Shows terminal.new (play x (take result bytes.now)) }
    ensures scratch { 20 ≤ length scratch.new.bytes }
{
    let len = silent_len(bytes, terminal);
    if len == 0 {
        step(terminal, bytes[0], scratch);
        return 1;
    }
    run(&bytes[..len], terminal, scratch);
    len
}

/// How many of the bytes surely have no reply: characters, or those of a sequence without its last one.
fn silent_len(bytes: &[u8], terminal: &Terminal) -> usize
    ensures within { result ≤ length bytes.now }
    ensures silent { 0 < result → (x : Term) → Shows terminal.now x
        → sent x (take result bytes.now) ≡ [] }
{
    ground_is_empty();
    parts_bring();
    characters_bring();
    controls_bring();
    if is_ground(terminal.parser_state()) {
        let len = printable_run(bytes);
        if len > 0 {
            return len;
        }
    }
    waiting_len(bytes, terminal)
}
