//! Sequences that have no row and aren't told either: `specs/Quiet` has the same table.
ghost use Rattle.std.specs.Prelude.{◌≡◌, fold};
ghost use Rattle.tape_check.specs.Quiet.{changes_no_cell, ends_string, is_quiet_escape, is_quiet_final, is_quiet_intermediate, is_quiet_mode, is_quiet_sequence, is_told_mode};
ghost use Rattle.tape_check.specs.Tallying.{first_marks, is_quiet_by, loud_by, marked, marks_after};

use crate::played::PlayedAs;
use vt_parser::Formless;

// `\`, with which ESC ends a string.
fn ends_string(last: u8) -> bool
    ensures { result ≡ ends_string last }
{
    last == b'\\'
}

// A private mode that changes no cell of a VT100 or a VT102.
fn changes_no_cell(param: u16) -> bool
    ensures { result ≡ changes_no_cell param }
{
    matches!(param, 12 | 25 | 1000..=1006 | 1015 | 1034 | 2004)
}

// A private mode that a terminal of today tells.
fn is_told_mode(param: u16) -> bool
    ensures { result ≡ is_told_mode param }
{
    matches!(param, 2 | 3 | 45 | 69 | 95)
}

fn is_quiet_final(private: bool, last: u8) -> bool
    ensures { result ≡ is_quiet_final private last }
{
    if private {
        return matches!(last, b'c' | b'n' | b'q' | b'r' | b's' | b'u' | b'm');
    }
    matches!(last, b'q' | b't')
}

fn is_quiet_intermediate(inter: u8) -> bool
    ensures { result ≡ is_quiet_intermediate inter }
{
    matches!(inter, b' ' | b'%' | b'*' | b'+' | b'-' | b'.' | b'/')
}

/// Whether an escape sequence is quiet.
pub(crate) fn is_quiet_escape(played: PlayedAs, inter: Option<u8>, last: u8) -> bool
    ensures { result ≡ is_quiet_escape played inter last }
{
    let Some(inter) = inter else {
        return ends_string(last);
    };
    match played {
        PlayedAs::Vt(_) => false,
        PlayedAs::Today { .. } => is_quiet_intermediate(inter),
    }
}

/// Whether a sequence of VT52 mode is quiet.
pub(crate) fn is_quiet_vt52(last: u8) -> bool
    ensures { result ≡ ends_string last }
{
    ends_string(last)
}

/// Whether a control sequence other than `h` and `l` is quiet.
pub(crate) fn is_quiet_sequence(played: PlayedAs, private: bool, last: u8) -> bool
    ensures { result ≡ is_quiet_sequence played private last }
{
    match played {
        PlayedAs::Vt(_) => false,
        PlayedAs::Today { .. } => is_quiet_final(private, last),
    }
}

/// Whether a parameter of `h` and `l` is quiet.
pub(crate) fn is_quiet_mode(played: PlayedAs, private: bool, param: u16) -> bool
    ensures { result ≡ is_quiet_mode played private param }
{
    match played {
        PlayedAs::Vt(_) => private && changes_no_cell(param),
        PlayedAs::Today { .. } => !(private && is_told_mode(param)),
    }
}

/// What is known of the text of a control sequence.
#[derive(Clone, Copy)]
pub struct Marks {
    pub(crate) is_empty: bool,
    /// It is `!`.
    pub(crate) is_bang: bool,
    /// It has a `:`.
    pub(crate) has_colon: bool,
}

impl Marks {
    /// Of the empty text.
    pub(crate) fn new() -> Marks
        ensures { result ≡ first_marks }
    {
        Marks {
            is_empty: true,
            is_bang: false,
            has_colon: false,
        }
    }

    // Of the text with one byte more.
    fn with(self, byte: u8) -> Marks
        ensures { result ≡ marked self byte }
    {
        Marks {
            is_empty: false,
            is_bang: self.is_empty && byte == b'!',
            has_colon: self.has_colon || byte == b':',
        }
    }

    /// What is known behind a byte.
    pub(crate) fn after(self, byte: u8) -> Marks
        ensures { result ≡ marks_after self byte }
    {
        match byte {
            b'[' => Marks::new(),
            32..=63 => self.with(byte),
            _ => self,
        }
    }

    /// What is known behind bytes.
    pub(crate) fn behind(self, bytes: &[u8]) -> Marks
        ensures { result ≡ fold marks_after self bytes.now }
    {
        let mut marks = self;
        for byte in bytes {
            marks = marks.after(*byte);
        }
        marks
    }

    // Whether a control sequence of such a text that isn't well formed is quiet.
    fn is_quiet(self, last: u8) -> bool
        ensures { result ≡ is_quiet_by self last }
    {
        match last {
            b'p' => !self.is_bang,
            b'm' => !self.has_colon,
            _ => matches!(last, b'c' | b'n' | b'q' | b't' | b'u'),
        }
    }

    /// The sequence without a command, unless it is quiet.
    pub(crate) fn loud_form(self, form: Option<Formless>) -> Option<Formless>
        ensures { result ≡ loud_by self form }
    {
        match form {
            Some(Formless::ControlSequence(last)) if self.is_quiet(last) => None,
            _ => form,
        }
    }
}
