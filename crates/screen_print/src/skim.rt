//! Chunks after each byte of which a screen surely lacks a key. Most bytes leave it so whatever they come to, and after any
//! other one the row of the cursor is looked at, since no other row shows anything new.

ghost use Rattle.std.specs.Prelude.{◌≡◌, ◌≢◌, ◌+◌, ◌-◌, ◌<◌, ◌≤◌, ◌∷◌, [], All, ℕ, false, length, take, true};
ghost use Rattle.vt_parser.specs.declared.states.ParserState.TheVariants.{EscapeOne, Ground};
ghost use Rattle.vt_term.specs.declared.profile.Profile.TheVariants.{Vt100};
ghost use Rattle.vt_term.specs.Seen.{Shows, Told};
ghost use Rattle.vt_term.specs.Term.{Term, play, sent};
ghost use Rattle.screen_print.specs.Skim.{IsCalm, IsKeyed, IsMute, IsPlain, IsRunning, LacksUpTo, ScreenLacks, is_text};

use crate::chunk_bytes::step;
use crate::free::free_len;
use crate::key::{Key, is_text};
use vt_parser::ParserState;
use vt_parser::laws::ground_is_empty;
use vt_screen::laws::right_margins;
use vt_term::laws::{
    characters_bring, controls_bring, glyphs_are_written, parts_bring, plays_in_parts, stays_safe,
};
use vt_term::{Profile, Reports, Terminal};

/// How many bytes of text are taken behind those that go over blank cells: the one at the right margin and the one that
/// wraps, or the end of a line.
const BEHIND: usize = 2;

/// How many bytes were played, and whether the screen surely lacks the key then.
#[derive(Drop)]
pub(crate) struct Skimmed {
    pub(crate) taken: usize,
    pub(crate) sure: bool,
}

/// Plays some of the bytes, before the last of which the screen lacks the key.
pub(crate) fn skim_some(
    key: &Key<'_>,
    bytes: &[u8],
    terminal: &mut Terminal,
    scratch: &mut Reports,
) -> Skimmed
    requires some { 0 < length bytes.now }
    requires keyed { IsKeyed key.now }
    requires lacks { ScreenLacks key.now.chars.now terminal.old.console.picture }
    requires scratch { 20 ≤ length scratch.old.bytes }
    ensures some { 0 < result.taken }
    ensures within { result.taken ≤ length bytes.now }
    ensures lacks { (x : Term) → Shows terminal.old x
        → LacksUpTo key.now.chars.now x bytes.now (result.taken - 1) }
    ensures shows { (x : Term) → Shows terminal.old x
        → Shows terminal.new (play x (take result.taken bytes.now)) }
    ensures after { result.sure ≡ true
        → ScreenLacks key.now.chars.now terminal.new.console.picture }
    ensures scratch { 20 ≤ length scratch.new.bytes }
{
    stays_safe();
    ground_is_empty();
    let _screen = terminal.screen();
    if is_calm(terminal) {
        if is_ground(terminal.parser_state()) {
            let text = text_len(key, bytes, terminal);
            if text.len > 0 {
                return skim_text(key, bytes, &text, terminal, scratch);
            }
        }
        let taken = mute_len(key, bytes);
        if taken > 0 {
            run(&bytes[..taken], terminal, scratch);
            return Skimmed { taken, sure: true };
        }
    }
    let sure = steps(key, bytes[0], terminal, scratch);
    Skimmed { taken: 1, sure }
}

/// How many bytes of text leave the screen lacking the key, and whether the next one may show one of its characters.
#[derive(Drop)]
struct Text {
    len: usize,
    stopped: bool,
}

/// Plays text, and with it the byte at which it stopped, after which the row of the cursor is looked at.
fn skim_text(
    key: &Key<'_>,
    bytes: &[u8],
    text: &Text,
    terminal: &mut Terminal,
    scratch: &mut Reports,
) -> Skimmed
    requires keyed { IsKeyed key.now }
    requires some { 0 < text.now.len }
    requires within { text.now.len ≤ length bytes.now }
    requires ground { (x : Term) → Shows terminal.old x → x.pending ≡ [] }
    requires lacks { (x : Term) → Shows terminal.old x
        → LacksUpTo key.now.chars.now x bytes.now text.now.len }
    requires calm { (x : Term) → Shows terminal.old x
        → IsCalm (play x (take text.now.len bytes.now)) }
    requires text { All (λ byte. is_text byte ≡ true) (take text.now.len bytes.now) }
    requires scratch { 20 ≤ length scratch.old.bytes }
    ensures some { 0 < result.taken }
    ensures within { result.taken ≤ length bytes.now }
    ensures lacks { (x : Term) → Shows terminal.old x
        → LacksUpTo key.now.chars.now x bytes.now (result.taken - 1) }
    ensures shows { (x : Term) → Shows terminal.old x
        → Shows terminal.new (play x (take result.taken bytes.now)) }
    ensures after { result.sure ≡ true
        → ScreenLacks key.now.chars.now terminal.new.console.picture }
    ensures scratch { 20 ≤ length scratch.new.bytes }
{
    stays_safe();
    plays_in_parts();
    parts_bring();
    characters_bring();
    controls_bring();
    let _screen = terminal.screen();
    let len = text.len;
    if text.stopped && len < bytes.len() && is_text(bytes[len]) {
        run(&bytes[..len + 1], terminal, scratch);
        let sure = key.lacked_at_cursor(terminal);
        return Skimmed {
            taken: len + 1,
            sure,
        };
    }
    run(&bytes[..len], terminal, scratch);
    Skimmed {
        taken: len,
        sure: true,
    }
}

/// How many from the first on are text that leaves the screen lacking the key, where nothing is pending: what goes over the
/// blank rest of the row, and plain text behind it.
fn text_len(key: &Key<'_>, bytes: &[u8], terminal: &Terminal) -> Text
    requires keyed { IsKeyed key.now }
    requires lacks { ScreenLacks key.now.chars.now terminal.now.console.picture }
    requires calm { (x : Term) → Shows terminal.now x → IsCalm x }
    requires ground { (x : Term) → Shows terminal.now x → x.pending ≡ [] }
    ensures within { result.len ≤ length bytes.now }
    ensures lacks { (x : Term) → Shows terminal.now x
        → LacksUpTo key.now.chars.now x bytes.now result.len }
    ensures calm { (x : Term) → Shows terminal.now x → IsCalm (play x (take result.len bytes.now)) }
    ensures text { All (λ byte. is_text byte ≡ true) (take result.len bytes.now) }
{
    stays_safe();
    plays_in_parts();
    characters_bring();
    glyphs_are_written();
    right_margins();
    if let Some(ending) = key.ending {
        let free = free_len(ending, bytes, terminal.screen());
        if free > 0 {
            let end = bytes.len().min(free + BEHIND);
            let more = running_len(key, &bytes[free..end]);
            return Text {
                len: free + more,
                stopped: free + more < end,
            };
        }
    }
    let screen = terminal.screen();
    let stopped = !screen.wrap();
    let len = running_len(key, bytes);
    Text { len, stopped }
}

/// Plays a byte, and tells whether the screen surely lacks the key then.
fn steps(key: &Key<'_>, byte: u8, terminal: &mut Terminal, scratch: &mut Reports) -> bool
    requires keyed { IsKeyed key.now }
    requires lacks { ScreenLacks key.now.chars.now terminal.old.console.picture }
    requires scratch { 20 ≤ length scratch.old.bytes }
    ensures lacks { result ≡ true
        → ScreenLacks key.now.chars.now terminal.new.console.picture }
    ensures shows { (x : Term) → Shows terminal.old x → Shows terminal.new (play x (byte ∷ [])) }
    ensures scratch { 20 ≤ length scratch.new.bytes }
{
    stays_safe();
    let calm = is_calm(terminal);
    let _screen = terminal.screen();
    step(terminal, byte, scratch);
    if !calm {
        return key.lacked_by(terminal);
    }
    !key.is_marked(byte) || key.lacked_at_cursor(terminal)
}

/// Plays bytes that aren't replied to.
pub(crate) fn run(bytes: &[u8], terminal: &mut Terminal, scratch: &mut Reports)
    requires { (x : Term) → Shows terminal.old x → sent x bytes.now ≡ [] }
    ensures shows { (x : Term) → Shows terminal.old x → Shows terminal.new (play x bytes.now) }
    ensures told { Told terminal.old.console.picture.rows terminal.new }
    ensures scratch { length scratch.old.bytes ≤ length scratch.new.bytes }
{
    let _screen = terminal.screen();
    scratch.set_place(0);
    let _done = terminal.feed_in_place(bytes, scratch);
}

/// How many bytes from the first on are plain text.
fn running_len(key: &Key<'_>, bytes: &[u8]) -> usize
    requires { IsKeyed key.now }
    ensures within { result ≤ length bytes.now }
    ensures running { All (IsRunning key.now.chars.now) (take result bytes.now) }
{
    for at in 0..bytes.len() {
        if key.stops_at(bytes[at]) {
            return at;
        }
    }
    bytes.len()
}

/// How many from the first on are plain and not replied to.
fn mute_len(key: &Key<'_>, bytes: &[u8]) -> usize
    requires { IsKeyed key.now }
    ensures within { result ≤ length bytes.now }
    ensures mute { All (IsMute key.now.chars.now) (take result bytes.now) }
{
    for at in 0..bytes.len() {
        if key.pauses_at(bytes[at]) {
            return at;
        }
    }
    bytes.len()
}

/// Whether no byte makes a terminal change all of a screen's rows, or put cells aside: a VT100 with no ESC # pending.
fn is_calm(terminal: &Terminal) -> bool
    ensures { result ≡ true → (x : Term) → Shows terminal.now x → IsCalm x }
{
    if !is_vt100(terminal.profile()) || terminal.modes().insert {
        return false;
    }
    !has_mark(terminal.parser_state())
}

fn is_vt100(profile: Profile) -> bool
    ensures { result ≡ true → profile ≡ Vt100 }
{
    matches!(profile, Profile::Vt100)
}

/// Whether nothing is pending.
pub(crate) fn is_ground(state: &ParserState) -> bool
    ensures { result ≡ true → state.now ≡ Ground }
{
    matches!(state, ParserState::Ground)
}

/// Whether ESC # is pending.
fn has_mark(state: &ParserState) -> bool
    ensures { result ≡ false → state.now ≢ EscapeOne 35 }
{
    match state {
        ParserState::EscapeOne(inter) => *inter == b'#',
        _ => false,
    }
}
