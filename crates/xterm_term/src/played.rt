//! Which finished sequences are played, and whether commands begin a title, for whoever reads bytes without a screen.
ghost use Rattle.std.specs.Prelude.{◌≡◌};
ghost use Rattle.xterm_term.specs.Escapes.{escape_named};
ghost use Rattle.xterm_term.specs.Played.{escape_has_row, sequence_has_row, mode_has_row, title_left, title_by_escape};

use vt_parser::Command;

/// Whether an escape sequence has a row.
pub fn escape_has_row(inter: Option<u8>, last: u8) -> bool
    ensures { result ≡ escape_has_row inter last }
{
    match inter {
        None => matches!(
            last,
            b'D' | b'E' | b'M' | b'H' | b'Z' | b'c' | b'7' | b'8' | b'=' | b'>' | b'k'
        ),
        Some(b'#') => last == b'8',
        Some(b'(' | b')') => matches!(last, b'A' | b'B' | b'0' | b'1' | b'2'),
        Some(_) => false,
    }
}

/// Whether a control sequence has a row. Parameters of `h` and `l` are asked for by themselves.
pub fn sequence_has_row(private: bool, last: u8) -> bool
    ensures { result ≡ sequence_has_row private last }
{
    if private {
        return matches!(last, b'h' | b'l');
    }
    match last {
        b'A'..=b'M' | b'P' | b'S' | b'T' | b'X' | b'Z' => true,
        b'@' | b'`'..=b'h' | b'l'..=b'n' => true,
        b'r' | b's' | b'u' | b'x' => true,
        _ => false,
    }
}

/// Whether a parameter of `h` and `l` has a row, with `?` or without.
pub fn mode_has_row(private: bool, param: u16) -> bool
    ensures { result ≡ mode_has_row private param }
{
    if private {
        return matches!(param, 1 | 5..=7 | 25 | 47 | 1047..=1049);
    }
    matches!(param, 4 | 20)
}

/// Whether a title is read behind a command.
pub fn title_left(command: &Command, title: bool) -> bool
    ensures { result ≡ title_left command.now title }
{
    match command {
        Command::Esc { inter, last } => title_by_escape(*inter, *last, title),
        _ => title,
    }
}

// ESC k begins a title, and RIS leaves none.
fn title_by_escape(inter: Option<u8>, last: u8, title: bool) -> bool
    ensures { result ≡ title_by_escape (escape_named inter last) title }
{
    match inter {
        None if last == b'k' => true,
        None if last == b'c' => false,
        _ => title,
    }
}
