//! Which finished sequences are played, and the mode that commands leave, for whoever reads bytes without a screen.
ghost use Rattle.std.specs.Prelude.{◌≡◌, fold};
ghost use Rattle.vt_term.specs.Rows.{named};
ghost use Rattle.vt_parser.specs.Token.{command_of_token};
ghost use Rattle.vt_term.specs.Escapes.{escape_named};
ghost use Rattle.vt_term.specs.PrivateModes.{private_modes, switches};
ghost use Rattle.vt_term.specs.Vt52.{vt52_sequences};
ghost use Rattle.vt_term.specs.Played.{escape_has_row, sequence_has_row, mode_has_row, vt52_has_row, mode_left, mode_by_escape, mode_by_switch, mode_by_vt52, mode_by_reset};

use crate::Profile;
use vt_parser::{Command, Mode, Token};

/// Whether an escape sequence has a row.
pub fn escape_has_row(inter: Option<u8>, last: u8) -> bool
    ensures { result ≡ escape_has_row inter last }
{
    match inter {
        None => matches!(
            last,
            b'D' | b'E' | b'M' | b'H' | b'Z' | b'c' | b'7' | b'8' | b'=' | b'>'
        ),
        Some(b'#') => matches!(last, b'3' | b'4' | b'5' | b'6' | b'8'),
        Some(b'(' | b')') => matches!(last, b'A' | b'B' | b'0' | b'1' | b'2'),
        Some(_) => false,
    }
}

/// Whether a control sequence has a row in a profile. Parameters of `h` and `l` are asked for by themselves.
pub fn sequence_has_row(profile: Profile, private: bool, last: u8) -> bool
    ensures { result ≡ sequence_has_row profile private last }
{
    match last {
        b'h' | b'l' => true,
        b'A' | b'B' | b'C' | b'D' | b'H' | b'f' | b'J' | b'K' => !private,
        b'r' | b'g' | b'm' | b'q' | b'c' | b'n' | b'x' => !private,
        b'L' | b'M' | b'P' => !private && profile.has_editing(),
        _ => false,
    }
}

/// Whether a parameter of `h` and `l` has a row in a profile, with `?` or without.
pub fn mode_has_row(profile: Profile, private: bool, param: u16) -> bool
    ensures { result ≡ mode_has_row profile private param }
{
    if private {
        return matches!(param, 1..=9);
    }
    match param {
        4 => profile.has_editing(),
        20 => true,
        _ => false,
    }
}

/// Whether a sequence of VT52 mode has a row.
pub fn vt52_has_row(last: u8) -> bool
    ensures { result ≡ vt52_has_row last }
{
    match last {
        b'A' | b'B' | b'C' | b'D' | b'F' | b'G' | b'H' | b'I' | b'J' | b'K' => true,
        b'Z' | b'=' | b'>' | b'<' => true,
        _ => false,
    }
}

/// The mode that a command leaves.
pub fn mode_left(command: &Command, mode: Mode) -> Mode
    ensures { result ≡ mode_left command.now mode }
{
    match command {
        Command::Esc { inter, last } => mode_by_escape(*inter, *last, mode),
        Command::Csi {
            private: true,
            params,
            last,
        } => mode_by_switch(*last, params.as_slice(), mode),
        Command::Vt52(last) => mode_by_vt52(*last, mode),
        _ => mode,
    }
}

/// The mode that what a token asks for leaves.
pub fn mode_after(token: &Token, mode: Mode) -> Mode
    ensures { result ≡ mode_left (command_of_token token.now) mode }
{
    match token {
        Token::Esc { inter, last } => mode_by_escape(*inter, *last, mode),
        Token::Csi {
            private: true,
            params,
            last,
        } => mode_by_switch(*last, params, mode),
        Token::Vt52(last) => mode_by_vt52(*last, mode),
        _ => mode,
    }
}

// RIS leaves ANSI mode.
fn mode_by_escape(inter: Option<u8>, last: u8, mode: Mode) -> Mode
    ensures { result ≡ mode_by_escape (escape_named inter last) mode }
{
    match inter {
        None if last == b'c' => Mode::Ansi,
        _ => mode,
    }
}

// Modes that are reset.
fn mode_by_switch(last: u8, params: &[u16], mode: Mode) -> Mode
    ensures { result ≡ mode_by_switch (named switches last) params.now mode }
{
    if last == b'l' {
        return mode_by_resets(params, mode);
    }
    mode
}

// ESC `<` leaves ANSI mode.
fn mode_by_vt52(last: u8, mode: Mode) -> Mode
    ensures { result ≡ mode_by_vt52 (named vt52_sequences last) mode }
{
    if last == b'<' {
        return Mode::Ansi;
    }
    mode
}

// DECANM reset leaves VT52 mode.
fn mode_by_resets(params: &[u16], mode: Mode) -> Mode
    ensures { result
        ≡ fold (λ left param. mode_by_reset (named private_modes param) left) mode params.now }
{
    let mut left = mode;
    for &param in params {
        if param == 2 {
            left = Mode::Vt52;
        }
    }
    left
}
