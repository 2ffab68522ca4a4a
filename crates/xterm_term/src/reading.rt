//! A byte, by what is pending: of a character, of a title, or of the control syntax.
ghost use Rattle.std.specs.Prelude.{◌≡◌, ℕ, ◌<◌, length, ◌&&◌, ◌||◌, List, [], true, false, not, nat_le, IsOk, OnOk, OnErr};
ghost use Rattle.vt_parser.specs.Forms.{is_string_begun};
ghost use Rattle.vt_parser.specs.Syntax.{is_graphic, is_within};
ghost use Rattle.plays.specs.Sink.{after_sending, HasRoom};
ghost use Rattle.xterm_screen.specs.Picture.{KeepsTold};
ghost use Rattle.xterm_term.specs.Console.{IsSafe, console_of};
ghost use Rattle.xterm_term.specs.Term.{is_ground, is_control, ends_title, syntax_read, title_read, upper_read, read, outcome_of};
ghost use Rattle.xterm_term.specs.SameSize.{SameSize};
ghost use Rattle.xterm_term.specs.Reading.{Stands, ComesTo, IsSound, is_ground_state, is_text_state};

use crate::below::laws_below;
use crate::console::Console;
use crate::{OutOfMemory, Reports};
use characters::{Decoder, Reading, begins};
use vt_parser::{Mode, Parser, ParserState};

pub(crate) const ESC: u8 = 27;

// A control character: a byte 0 to 31 but ESC.
#[inline]
fn is_control(byte: u8) -> bool
    ensures { result ≡ is_control byte }
{
    byte <= 31 && byte != ESC
}

// BEL, CAN and SUB.
#[inline]
fn ends_title(byte: u8) -> bool
    ensures { result ≡ ends_title byte }
{
    matches!(byte, 7 | 24 | 26)
}

#[inline]
pub(crate) fn is_ground_state(state: &ParserState) -> bool
    ensures { result ≡ is_ground_state state.now }
{
    matches!(state, ParserState::Ground)
}

// A graphic character of ASCII.
#[inline]
pub(crate) fn is_graphic(byte: u8) -> bool
    ensures { result ≡ is_graphic byte }
{
    matches!(byte, 32..=126)
}

// A control that has an effect: BS to SI.
#[inline]
pub(crate) fn is_effective(byte: u8) -> bool
    ensures { result ≡ is_within 8 15 byte }
{
    matches!(byte, 8..=15)
}

// Whether a sequence goes on by graphic characters, and no string is skipped.
#[inline]
pub(crate) fn is_open(state: &ParserState) -> bool
    ensures { result ≡ true → is_ground_state state.now ≡ false }
{
    matches!(
        state,
        ParserState::CsiStart
            | ParserState::Csi { .. }
            | ParserState::Escape
            | ParserState::EscapeOne(_)
    )
}

fn is_text_state(state: &ParserState) -> bool
    ensures { result ≡ is_text_state state.now }
{
    matches!(state, ParserState::Text)
}

// Whether nothing is pending.
#[inline]
fn is_ground(parser: &Parser) -> bool
    ensures { (sequence : List ℕ) → Stands sequence parser.now → result ≡ is_ground sequence }
{
    is_ground_state(parser.state())
}

// Whether a string is skipped.
#[inline]
fn is_string(parser: &Parser) -> bool
    ensures { (sequence : List ℕ) → Stands sequence parser.now → result ≡ is_string_begun sequence }
{
    is_text_state(parser.state())
}

// Whether a byte is a control outside a string.
#[inline]
fn acts(parser: &Parser, byte: u8) -> bool
    ensures { (sequence : List ℕ) → Stands sequence parser.now
        → result ≡ (is_control byte && not (is_string_begun sequence)) }
{
    is_control(byte) && !is_string(parser)
}

// Whether a byte from 128 on comes where nothing is pending.
#[inline]
fn is_upper(parser: &Parser, byte: u8) -> bool
    ensures { (sequence : List ℕ) → Stands sequence parser.now
        → result ≡ (is_ground sequence && nat_le 128 byte) }
{
    is_ground(parser) && byte >= 128
}

// Whether there is no last character any more: a control came, or what was pending has ended.
#[inline]
fn has_ended(acts: bool, was_ground: bool, parser: &Parser) -> bool
    ensures { (sequence : List ℕ) → Stands sequence parser.now
        → result ≡ (acts || (not was_ground && is_ground sequence)) }
{
    acts || (!was_ground && is_ground(parser))
}

// A byte of the control syntax.
fn read_syntax(
    console: &mut Console,
    parser: &mut Parser,
    byte: u8,
    sink: &mut Reports,
) -> Result<(), OutOfMemory>
    requires { IsSafe (console_of console.old) }
    ensures comes { (sequence : List ℕ) → Stands sequence parser.old
        → OnOk result (ComesTo (syntax_read (console_of console.old) sequence byte)
        (console_of console.new) parser.new []) }
    ensures sent { (sequence : List ℕ) → Stands sequence parser.old
        → OnOk result (sink.new
        ≡ after_sending sink.old (syntax_read (console_of console.old) sequence byte).reply) }
    ensures sound { (sequence : List ℕ) → Stands sequence parser.old
        → IsSound (console_of console.new) parser.new }
    ensures size { (sequence : List ℕ) → Stands sequence parser.old
        → SameSize (console_of console.old) (console_of console.new) }
    ensures err_sink { OnErr result (sink.new ≡ sink.old) }
    ensures room { (sequence : List ℕ) → Stands sequence parser.old
        → HasRoom sink.old (syntax_read (console_of console.old) sequence byte).reply
        → IsOk result }
    ensures told { KeepsTold console.old.screen console.new.screen }
{
    laws_below();
    let acts = acts(parser, byte);
    let was_ground = is_ground(parser);
    let command = parser.step(Mode::Ansi, byte);
    console.obey_if(&command, sink)?;
    console.forget_if(has_ended(acts, was_ground, parser));
    Ok(())
}

// A byte of a title.
fn read_title(console: &mut Console, parser: &mut Parser, byte: u8)
    ensures comes { (sequence : List ℕ) → Stands sequence parser.old
        → ComesTo (title_read (console_of console.old) sequence byte) (console_of console.new)
        parser.new [] }
    ensures silent { (sequence : List ℕ)
        → (title_read (console_of console.old) sequence byte).reply ≡ [] }
    ensures told { KeepsTold console.old.screen console.new.screen }
{
    if byte == ESC {
        let _begins = parser.step(Mode::Ansi, byte);
        console.set_title(false);
    } else if ends_title(byte) {
        console.set_title(false);
    }
}

// A byte from 128 on, on ground.
fn read_upper(console: &mut Console, decoder: &mut Decoder, byte: u8)
    requires { decoder.old ≡ [] }
    ensures console { console_of console.new ≡ (upper_read (console_of console.old) byte).console }
    ensures character { decoder.new ≡ (upper_read (console_of console.old) byte).character }
    ensures told { KeepsTold console.old.screen console.new.screen }
{
    if begins(byte) {
        decoder.begin(byte);
    } else {
        console.put(char::REPLACEMENT_CHARACTER);
    }
}

// A byte where no character is pending.
fn read(
    console: &mut Console,
    parser: &mut Parser,
    decoder: &mut Decoder,
    byte: u8,
    sink: &mut Reports,
) -> Result<(), OutOfMemory>
    requires safe { IsSafe (console_of console.old) }
    requires none { decoder.old ≡ [] }
    ensures comes { (sequence : List ℕ) → Stands sequence parser.old
        → OnOk result (ComesTo (read (console_of console.old) sequence byte)
        (console_of console.new) parser.new decoder.new) }
    ensures sent { (sequence : List ℕ) → Stands sequence parser.old
        → OnOk result (sink.new
        ≡ after_sending sink.old (read (console_of console.old) sequence byte).reply) }
    ensures sound { (sequence : List ℕ) → Stands sequence parser.old
        → IsSound (console_of console.new) parser.new }
    ensures size { (sequence : List ℕ) → Stands sequence parser.old
        → SameSize (console_of console.old) (console_of console.new) }
    ensures err_sink { OnErr result (sink.new ≡ sink.old) }
    ensures room { (sequence : List ℕ) → Stands sequence parser.old
        → HasRoom sink.old (read (console_of console.old) sequence byte).reply → IsOk result }
    ensures told { KeepsTold console.old.screen console.new.screen }
{
    laws_below();
    if console.title {
        read_title(console, parser, byte);
        return Ok(());
    }
    if is_upper(parser, byte) {
        read_upper(console, decoder, byte);
        return Ok(());
    }
    read_syntax(console, parser, byte, sink)
}

// A byte behind those of a character.
fn read_next(
    console: &mut Console,
    parser: &mut Parser,
    decoder: &mut Decoder,
    byte: u8,
    sink: &mut Reports,
) -> Result<(), OutOfMemory>
    requires safe { IsSafe (console_of console.old) }
    requires pending { 0 < length decoder.old }
    ensures comes { (sequence : List ℕ) → Stands sequence parser.old
        → OnOk result (ComesTo (outcome_of (console_of console.old) sequence decoder.old byte)
        (console_of console.new) parser.new decoder.new) }
    ensures sent { (sequence : List ℕ) → Stands sequence parser.old
        → OnOk result (sink.new ≡ after_sending sink.old
        (outcome_of (console_of console.old) sequence decoder.old byte).reply) }
    ensures sound { (sequence : List ℕ) → Stands sequence parser.old
        → IsSound (console_of console.new) parser.new }
    ensures size { (sequence : List ℕ) → Stands sequence parser.old
        → SameSize (console_of console.old) (console_of console.new) }
    ensures err_sink { OnErr result (sink.new ≡ sink.old) }
    ensures room { (sequence : List ℕ) → Stands sequence parser.old
        → HasRoom sink.old (outcome_of (console_of console.old) sequence decoder.old byte).reply
        → IsOk result }
    ensures told { KeepsTold console.old.screen console.new.screen }
{
    laws_below();
    match decoder.take(byte) {
        Reading::Character(character) => {
            console.put(character);
            Ok(())
        }
        Reading::More => Ok(()),
        Reading::Broken => {
            console.put(char::REPLACEMENT_CHARACTER);
            read(console, parser, decoder, byte, sink)
        }
    }
}

/// Takes a byte, does what it comes to, and sends the reply to it. After a refusal nothing was sent.
pub(crate) fn read_byte(
    console: &mut Console,
    parser: &mut Parser,
    decoder: &mut Decoder,
    byte: u8,
    sink: &mut Reports,
) -> Result<(), OutOfMemory>
    requires { IsSafe (console_of console.old) }
    ensures comes { (sequence : List ℕ) → Stands sequence parser.old
        → OnOk result (ComesTo (outcome_of (console_of console.old) sequence decoder.old byte)
        (console_of console.new) parser.new decoder.new) }
    ensures sent { (sequence : List ℕ) → Stands sequence parser.old
        → OnOk result (sink.new ≡ after_sending sink.old
        (outcome_of (console_of console.old) sequence decoder.old byte).reply) }
    ensures sound { (sequence : List ℕ) → Stands sequence parser.old
        → IsSound (console_of console.new) parser.new }
    ensures size { (sequence : List ℕ) → Stands sequence parser.old
        → SameSize (console_of console.old) (console_of console.new) }
    ensures err_sink { OnErr result (sink.new ≡ sink.old) }
    ensures room { (sequence : List ℕ) → Stands sequence parser.old
        → HasRoom sink.old (outcome_of (console_of console.old) sequence decoder.old byte).reply
        → IsOk result }
    ensures told { KeepsTold console.old.screen console.new.screen }
{
    if decoder.is_pending() {
        return read_next(console, parser, decoder, byte, sink);
    }
    read(console, parser, decoder, byte, sink)
}
