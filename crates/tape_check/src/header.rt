//! What the header of a recording says of it. script(1).
ghost use Rattle.std.specs.Prelude.{◌≡◌, ◌==◌, ◌∷◌, ◌≤◌, [], drop, length, nat_eq, not, position};
ghost use Rattle.std.specs.List.{list_any, starts_with};
ghost use Rattle.std.specs.Option.{option_copied, option_map};
ghost use Rattle.tape_check.specs.Words.{text_of};
ghost use Rattle.tape_check.specs.Sizes.{size_seen};
ghost use Rattle.tape_check.specs.Header.{header_line, is_scripts, is_before_name, behind_prefix, behind_label, behind_last, before_quote, value_of, before_bracket, date_of, term_of, is_count, size_of, told_profile, told_size, profile_of, tells, is_played_size, is_called, kind_of, kinds_of_today, is_among, parts_kind, passes, visible};

use crate::played::PlayedAs;
use crate::words::Word;
use tape_core::Recording;
use tape_core::text::{are_digits, read_number};
use vt_term::Profile;

/// Columns and lines, as they are told.
#[derive(Clone, Copy)]
pub(crate) struct Size<'a> {
    pub(crate) columns: &'a [u8],
    pub(crate) lines: &'a [u8],
}

impl Size<'_> {
    /// Whether it is the size that is played.
    pub(crate) fn is_played(&self, played: PlayedAs) -> bool
        ensures { result ≡ is_played_size played (size_seen self.now) }
    {
        match played {
            PlayedAs::Vt(_) => {
                self.columns == Word::EightyColumns.text()
                    && self.lines == Word::TwentyFourLines.text()
            }
            PlayedAs::Today { columns, lines } => {
                tells(columns, self.columns) && tells(lines, self.lines)
            }
        }
    }
}

/// The header without its LF.
pub(crate) fn header_line(header: &[u8]) -> &[u8]
    ensures { result.now ≡ header_line header.now }
{
    match header.len() {
        0 => header,
        len => &header[..len - 1],
    }
}

/// Whether it is script's.
#[tactic(auto, unfolding(crate::specs::Header::is_scripts))]
pub(crate) fn is_scripts(line: &[u8]) -> bool
    ensures { result ≡ is_scripts line.now }
{
    line.starts_with(Word::Opening.text())
}

/// When the recording was started, if the header is script's.
pub(crate) fn date_of(line: &[u8]) -> Option<&[u8]>
    ensures { option_copied result ≡ date_of line.now }
{
    match behind_prefix(Word::Opening.text(), line) {
        Some(rest) => Some(before_bracket(rest)),
        None => None,
    }
}

// The bytes up to the first ` [`.
fn before_bracket(text: &[u8]) -> &[u8]
    ensures { result.now ≡ before_bracket text.now }
{
    let mut end = 0;
    while end < text.len() && !is_bracket_at(text, end) {
        end += 1;
    }
    &text[..end]
}

fn is_bracket_at(text: &[u8], at: usize) -> bool
    requires { at ≤ length text.now }
    ensures { result ≡ starts_with nat_eq (drop at text.now) (32 ∷ 91 ∷ []) }
{
    text[at..].starts_with(b" [")
}

/// Under which terminal it was recorded.
pub(crate) fn term_of(line: &[u8]) -> Option<&[u8]>
    ensures { option_copied result ≡ term_of line.now }
{
    value_of(Word::TermLabel.text(), line)
}

/// At which size it was recorded.
pub(crate) fn size_of(line: &[u8]) -> Option<Size<'_>>
    ensures { option_map size_seen result ≡ size_of line.now }
{
    let columns = value_of(Word::ColumnsLabel.text(), line)?;
    let lines = value_of(Word::LinesLabel.text(), line)?;
    if is_count(columns) && is_count(lines) {
        return Some(Size { columns, lines });
    }
    None
}

/// The columns and lines that a recording's header tells, where one above 10^18 counts as 10^18.
#[tactic(auto, unfolding(crate::specs::Header::told_size))]
pub fn told_size(recording: &Recording) -> Option<(u64, u64)>
    ensures { result ≡ told_size recording.now }
{
    let size = size_of(header_line(recording.header()))?;
    let columns = read_number(size.columns)?;
    let lines = read_number(size.lines)?;
    Some((columns, lines))
}

/// Which VT100 a recording's header tells, by its TERM: a VT102, or a VT100, which stands for a VT52 too; none where it
/// tells another terminal, or none.
#[tactic(auto, unfolding(crate::specs::Header::told_profile))]
pub fn told_profile(recording: &Recording) -> Option<Profile>
    ensures { result ≡ told_profile recording.now }
{
    profile_of(term_of(header_line(recording.header()))?)
}

// Whether a text is digits with a value above 0.
fn is_count(text: &[u8]) -> bool
    ensures { result ≡ is_count text.now }
{
    are_digits(text) && has_value(text)
}

fn has_value(text: &[u8]) -> bool
    ensures { result ≡ list_any (λ byte. not (byte == 48)) text.now }
{
    text.iter().any(|byte| *byte != b'0')
}

// The value of a label.
fn value_of<'a>(label: &[u8], line: &'a [u8]) -> Option<&'a [u8]>
    ensures { option_copied result ≡ value_of label.now line.now }
{
    if line.ends_with(Word::NotExecuted.text()) {
        return None;
    }
    before_quote(behind_last(label, line)?)
}

// What stands behind the last label of a text.
fn behind_last<'a>(label: &[u8], text: &'a [u8]) -> Option<&'a [u8]>
    ensures { option_copied result ≡ behind_last label.now text.now }
{
    let mut at = text.len();
    while at > 0 {
        at -= 1;
        let value = behind_label_at(label, text, at);
        if value.is_some() {
            return value;
        }
    }
    None
}

fn behind_label_at<'a>(label: &[u8], text: &'a [u8], at: usize) -> Option<&'a [u8]>
    requires { at ≤ length text.now }
    ensures { option_copied result ≡ behind_label label.now (drop at text.now) }
{
    behind_label(label, &text[at..])
}

// What stands behind a label that comes next.
fn behind_label<'a>(label: &[u8], text: &'a [u8]) -> Option<&'a [u8]>
    ensures { option_copied result ≡ behind_label label.now text.now }
{
    match text {
        [first, rest @ ..] if is_before_name(*first) => behind_prefix(label, rest),
        _ => None,
    }
}

// What stands behind a prefix.
fn behind_prefix<'a>(prefix: &[u8], text: &'a [u8]) -> Option<&'a [u8]>
    ensures { option_copied result ≡ behind_prefix prefix.now text.now }
{
    text.strip_prefix(prefix)
}

fn is_before_name(byte: u8) -> bool
    ensures { result ≡ is_before_name byte }
{
    matches!(byte, b' ' | b'[')
}

// What stands before the first `"`.
fn before_quote(text: &[u8]) -> Option<&[u8]>
    ensures { option_copied result ≡ before_quote text.now }
{
    match first_of(b'"', text) {
        Some(end) => Some(&text[..end]),
        None => None,
    }
}

/// Where a byte comes first.
pub(crate) fn first_of(wanted: u8, text: &[u8]) -> Option<usize>
    ensures { result ≡ position (λ byte. byte == wanted) text.now }
{
    text.iter().position(|byte| *byte == wanted)
}

// Whether a text tells this number.
fn tells(n: u16, text: &[u8]) -> bool
    ensures { result ≡ tells n text.now }
{
    match read_number(text) {
        Some(told) => told == u64::from(n),
        None => false,
    }
}

/// Whether what was recorded under a terminal of this name is played.
pub(crate) fn passes(played: PlayedAs, term: &[u8]) -> bool
    ensures { result ≡ passes played term.now }
{
    match played {
        PlayedAs::Vt(profile) => passes_vt(profile, term),
        PlayedAs::Today { .. } => is_of_today(kind_of(term)),
    }
}

fn passes_vt(profile: Profile, term: &[u8]) -> bool
    ensures { result ≡ passes (PlayedAs.Vt profile) term.now }
{
    if is_called(Word::Vt52, term) || is_called(Word::Vt100, term) {
        return true;
    }
    match profile {
        Profile::Vt100 => false,
        Profile::Vt102 => is_called(Word::Vt102, term),
    }
}

// Which VT100 a terminal of this name is.
fn profile_of(term: &[u8]) -> Option<Profile>
    ensures { result ≡ profile_of term.now }
{
    if is_called(Word::Vt102, term) {
        Some(Profile::Vt102)
    } else if is_called(Word::Vt100, term) || is_called(Word::Vt52, term) {
        Some(Profile::Vt100)
    } else {
        None
    }
}

// `-` and `.`.
fn parts_kind(byte: u8) -> bool
    ensures { result ≡ parts_kind byte }
{
    matches!(byte, b'-' | b'.')
}

fn kind_end(term: &[u8]) -> Option<usize>
    ensures { result ≡ position parts_kind term.now }
{
    term.iter().position(|byte| parts_kind(*byte))
}

// The kind of a terminal: its name up to the first `-` or `.`.
fn kind_of(term: &[u8]) -> &[u8]
    ensures { result.now ≡ kind_of term.now }
{
    match kind_end(term) {
        Some(end) => &term[..end],
        None => term,
    }
}

// Whether terminals of this kind are of today.
fn is_of_today(kind: &[u8]) -> bool
    ensures { result ≡ is_among kinds_of_today kind.now }
{
    is_among(
        &[
            Word::Xterm,
            Word::Screen,
            Word::Tmux,
            Word::Linux,
            Word::Vt100,
            Word::Vt102,
            Word::Vt220,
            Word::Rxvt,
            Word::Alacritty,
            Word::Kitty,
            Word::Foot,
            Word::St,
            Word::Gnome,
            Word::Konsole,
            Word::Putty,
            Word::Ansi,
        ],
        kind,
    )
}

// Whether a text is one of these words.
fn is_among(words: &[Word], text: &[u8]) -> bool
    ensures { result ≡ is_among words.now text.now }
{
    words.iter().any(|known| text == known.text())
}

// Whether a terminal's name is this one, alone or with `-` and anything behind it.
fn is_called(name: Word, term: &[u8]) -> bool
    ensures { result ≡ is_called (text_of name) term.now }
{
    match term.strip_prefix(name.text()) {
        Some([]) => true,
        Some([byte, ..]) => *byte == b'-',
        None => false,
    }
}

/// A byte as it is written: below 32 and from 127 on as `?`.
pub(crate) fn visible(byte: u8) -> u8
    ensures { result ≡ visible byte }
{
    match byte {
        32..=126 => byte,
        _ => b'?',
    }
}
