//! The bytes of the control syntax: what is done with a byte, by the byte and by where it comes, and the bytes of which
//! sequences are made.
//!
//! `specs/Syntax` has the same table, row by row, and `specs/Forms` the same bytes of sequences, line by line. What is
//! decided ahead of the table, for speed, stands below it: `machine` and `runs` name no byte of their own.
ghost use Rattle.std.specs.Prelude.{◌≡◌, ◌==◌, true};
ghost use Rattle.vt_parser.specs.Syntax.{escape, is_within, is_graphic, actions_of, action_of};
ghost use Rattle.vt_parser.specs.Forms.{is_intermediate, is_escape_final, is_control_sequence_text, is_control_sequence_final, begins_string};
ghost use Rattle.vt_parser.specs.Ahead.{is_print, is_join, is_begin, Idles};

/// Where a byte comes.
#[derive(Clone, Copy)]
pub enum Context {
    Ground,
    Sequence,
    /// In a string.
    Text,
}

/// What is done with a byte.
#[derive(Clone, Copy)]
pub enum Action {
    Ignore,
    /// It is executed as a control character, and what is pending stays.
    Execute,
    /// It is shown.
    Print,
    /// The error character is shown.
    Mark,
    /// It begins a sequence; what was pending is dropped.
    Begin,
    /// It joins the pending sequence, and may end it.
    Join,
    /// It ends the string.
    End,
    /// It ends what is pending unexecuted, and the error character is shown.
    Cancel,
}

use Action::{Begin, Cancel, End, Execute, Ignore, Join, Mark, Print};

// ---- the table

const NUL: u8 = 0;

const ACK: u8 = 6;

const BEL: u8 = 7;

const BS: u8 = 8;

const SI: u8 = 15;

const ETB: u8 = 23;

const CAN: u8 = 24;

const EM: u8 = 25;

const SUB: u8 = 26;

const ESC: u8 = 27;

const FS: u8 = 28;

const US: u8 = 31;

pub(crate) const SPACE: u8 = 32;

const TILDE: u8 = 126;

const DEL: u8 = 127;

/// What is done with a byte that comes in a context. The table says it on ground, inside a sequence, and in a string.
#[inline]
pub(crate) fn action_of(context: Context, byte: u8) -> Action
    ensures { result ≡ action_of context byte }
{
    let (on_ground, in_sequence, in_string) = match byte {
        NUL..=ACK => (Execute, Execute, Ignore),
        BEL => (Ignore, Ignore, End),
        BS..=ETB => (Execute, Execute, Ignore),
        CAN => (Ignore, Cancel, Cancel),
        EM => (Execute, Execute, Ignore),
        SUB => (Ignore, Cancel, Cancel),
        ESC => (Begin, Begin, Begin),
        FS..=US => (Execute, Execute, Ignore),
        SPACE..=TILDE => (Print, Join, Ignore),
        DEL => (Ignore, Ignore, Ignore),
        128..=255 => (Mark, Ignore, Ignore),
    };
    match context {
        Context::Ground => on_ground,
        Context::Sequence => in_sequence,
        Context::Text => in_string,
    }
}

// ---- what is decided ahead of the table, and what the table says of it

/// How many graphic characters there are.
pub(crate) const GRAPHICS: u8 = TILDE - SPACE + 1;

/// A graphic character: what the table shows on ground, and joins to a sequence.
#[inline]
#[tactic(auto, using(crate::proofs::Table::graphic_is_printed, crate::proofs::Table::graphic_is_joined))]
pub(crate) fn is_graphic(byte: u8) -> bool
    ensures value { result ≡ is_graphic byte }
    ensures printed { result ≡ is_print (actions_of byte).on_ground }
    ensures joined { result ≡ is_join (actions_of byte).in_sequence }
{
    matches!(byte, SPACE..=TILDE)
}

/// A control character that has an effect, BS to SI: the table executes it on ground.
#[inline]
#[tactic(auto, using(crate::proofs::Table::control_on_ground))]
pub(crate) fn is_effective(byte: u8) -> bool
    ensures value { result ≡ is_within 8 15 byte }
    ensures executed { result ≡ true → (actions_of byte).on_ground ≡ Action.Execute }
{
    matches!(byte, BS..=SI)
}

/// NUL, by which lines are padded: the table leaves all as it is.
#[inline]
#[tactic(auto, using(crate::proofs::Table::nul_idles))]
pub(crate) fn is_nul(byte: u8) -> bool
    ensures value { result ≡ (byte == 0) }
    ensures idle { result ≡ true → Idles byte }
{
    byte == NUL
}

/// ESC: what the table begins a sequence by, wherever it comes.
#[inline]
#[tactic(auto, using(crate::proofs::Table::escape_opens))]
pub(crate) fn is_escape(byte: u8) -> bool
    ensures value { result ≡ (byte == escape) }
    ensures begins { (context : Context) → result ≡ is_begin (action_of context byte) }
{
    byte == ESC
}

// ---- the bytes of which sequences are made

#[inline]
pub(crate) fn is_intermediate(byte: u8) -> bool
    ensures { result ≡ is_intermediate byte }
{
    matches!(byte, 32..=47)
}

/// The final byte of an escape sequence.
#[inline]
pub(crate) fn is_escape_final(byte: u8) -> bool
    ensures { result ≡ is_escape_final byte }
{
    matches!(byte, 48..=126)
}

/// A parameter or intermediate byte of a control sequence.
#[inline]
pub(crate) fn is_control_sequence_text(byte: u8) -> bool
    ensures { result ≡ is_control_sequence_text byte }
{
    matches!(byte, 32..=63)
}

#[inline]
pub(crate) fn is_control_sequence_final(byte: u8) -> bool
    ensures { result ≡ is_control_sequence_final byte }
{
    matches!(byte, 64..=126)
}

/// What makes ESC `[` the control sequence introducer.
pub(crate) const BRACKET: u8 = b'[';

/// Whether ESC and this byte open a string: DCS, SOS, OSC, PM or APC.
#[inline]
pub(crate) fn begins_string(byte: u8) -> bool
    ensures { result ≡ begins_string byte }
{
    matches!(byte, b'P' | b'X' | b']' | b'^' | b'_')
}

/// What opens a direct cursor address of VT52 mode.
pub(crate) const ADDRESS: u8 = b'Y';

/// What parts parameters.
pub(crate) const SEMICOLON: u8 = b';';

/// What at the head of a text makes a control sequence a private one.
pub(crate) const QUESTION_MARK: u8 = b'?';

/// What line and column of a direct cursor address have over their numbers.
pub(crate) const ADDRESS_OFFSET: u8 = 31;
