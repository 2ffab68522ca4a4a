//! Which rows leave a screen at its top.
ghost use Rattle.std.specs.Prelude.{◌≡◌};
ghost use Rattle.std.specs.List.{list_any};
ghost use Rattle.screen_transcript.specs.Leaving.{at_control, at_erasure, at_escape, at_feed, at_put, at_sequence, at_switch, at_vt52, is_deccolm, leaving};
ghost use Rattle.vt_parser.specs.Token.{command_of_token};
ghost use Rattle.vt_term.specs.Controls.{controls};
ghost use Rattle.vt_term.specs.Escapes.{escape_named};
ghost use Rattle.vt_term.specs.PrivateModes.{private_modes, switches};
ghost use Rattle.vt_term.specs.Rows.{named};
ghost use Rattle.vt_term.specs.Sequences.{sequences};
ghost use Rattle.vt_term.specs.Vt52.{vt52_sequences};

use vt_parser::Token;
use vt_screen::Screen;

/// Which rows leave.
#[derive(Clone, Copy)]
pub enum Leaving {
    NoRow,
    /// Row 1.
    FirstRow,
    /// From row 1 to the last that isn't blank.
    InkedRows,
}

use Leaving::{FirstRow, InkedRows, NoRow};

/// Which rows leave at a command, by whether it comes directly behind home.
#[tactic(auto, unfolding(crate::specs::Leaving::leaving))]
pub(crate) fn leaving_at(token: &Token, home: bool, screen: &Screen) -> Leaving
    ensures { result ≡ leaving (command_of_token token.now) home screen.now.picture }
{
    match token {
        Token::Show(_) | Token::Error => at_put(screen),
        Token::Control(byte) => at_control(*byte, screen),
        Token::Esc { inter, last } => at_escape(*inter, *last, screen),
        Token::Csi {
            private: true,
            params,
            last,
        } => at_switch(*last, params),
        Token::Csi {
            private: false,
            params,
            last,
        } => at_sequence(home, *last, params),
        Token::Vt52(last) => at_vt52(home, *last),
        Token::Vt52Address { .. } => NoRow,
    }
}

// A line feed.
fn at_feed(screen: &Screen) -> Leaving
    ensures { result ≡ at_feed screen.now.picture }
{
    let (top, bottom) = screen.margins();
    let (line, _) = screen.cursor();
    if line == bottom && top == 1 {
        FirstRow
    } else {
        NoRow
    }
}

// A character that is put.
fn at_put(screen: &Screen) -> Leaving
    ensures { result ≡ at_put screen.now.picture }
{
    if screen.wrap() {
        at_feed(screen)
    } else {
        NoRow
    }
}

// ED, by its part.
fn at_erasure(home: bool, part: u16) -> Leaving
    ensures { result ≡ at_erasure home part }
{
    if part == 2 || (part == 0 && home) {
        InkedRows
    } else {
        NoRow
    }
}

// A control.
fn at_control(byte: u8, screen: &Screen) -> Leaving
    ensures { result ≡ at_control (named controls byte) screen.now.picture }
{
    match byte {
        10..=12 => at_feed(screen), // LF, VT, FF
        _ => NoRow,
    }
}

// An escape sequence.
fn at_escape(inter: Option<u8>, last: u8, screen: &Screen) -> Leaving
    ensures { result ≡ at_escape (escape_named inter last) screen.now.picture }
{
    match inter {
        None if last == b'D' || last == b'E' => at_feed(screen), // IND, NEL
        None if last == b'c' => InkedRows, // RIS
        _ => NoRow,
    }
}

// A control sequence.
fn at_sequence(home: bool, last: u8, params: &[u16]) -> Leaving
    ensures { result ≡ at_sequence home (named sequences last) params.now }
{
    if last == b'J' {
        return at_erasure(home, params.first().copied().unwrap_or(0)); // ED
    }
    NoRow
}

// Modes that are set or reset.
fn at_switch(last: u8, params: &[u16]) -> Leaving
    ensures { result ≡ at_switch (named switches last) params.now }
{
    if (last == b'h' || last == b'l') && has_deccolm(params) {
        InkedRows
    } else {
        NoRow
    }
}

// Whether one of the modes is DECCOLM.
fn has_deccolm(params: &[u16]) -> bool
    ensures { result ≡ list_any (λ param. is_deccolm (named private_modes param)) params.now }
{
    params.iter().any(|param| *param == 3)
}

// A sequence of VT52 mode.
fn at_vt52(home: bool, last: u8) -> Leaving
    ensures { result ≡ at_vt52 home (named vt52_sequences last) }
{
    if last == b'J' {
        return at_erasure(home, 0);
    }
    NoRow
}
