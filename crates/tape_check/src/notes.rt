//! What is noted of a recording.
ghost use Rattle.std.specs.Prelude.{◌≡◌, ◌≤◌, ◌++◌, ◌∷◌, [], count_by, decimal, false, length, nat_le};
ghost use Rattle.std.specs.Option.{option_copied, option_map};
ghost use Rattle.tape_core.specs.Devices.{Gave, has_failed};
ghost use Rattle.tape_core.specs.Tape.{body, body_len, longest_body};
ghost use Rattle.tape_check.specs.Words.{text_of};
ghost use Rattle.tape_check.specs.Header.{size_of, term_of};
ghost use Rattle.tape_check.specs.Trailer.{sessions_in};
ghost use Rattle.tape_check.specs.Sizes.{size_seen};
ghost use Rattle.tape_check.specs.Lines.{body_note_lines, bytes_note, facts_text, bytes_word, has_note, has_picture_note, header_note, header_note_lines, high_bytes, left_of, line_if, note_lines, notes_of, played_size_text, profile_name, resizes_note, sessions_note, shown, shown_if, size_note, size_text, size_text_if, term_note, trailer_note};
ghost use Rattle.tape_check.specs.Noting.{further, note_seen, notes_seen, seen_if, separator};

use crate::header::{Size, date_of, header_line, is_scripts, passes, size_of, term_of, visible};
use crate::played::PlayedAs;
use crate::trailer::{is_usual, sessions_in};
use crate::words::Word;
use itoa::{Buffer, Integer};
use std::io::Write;
use tape_core::laws::gives_join;
use tape_core::{Chunk, Fault, Recording, Watched};
use vt_term::Profile;

/// A note, with what it tells.
#[derive(Clone, Copy)]
pub(crate) enum Note<'a> {
    Header,
    Size(Size<'a>, PlayedAs),
    Term(&'a [u8], PlayedAs),
    Resizes(u64),
    Bytes(u64, PlayedAs),
    Trailer(usize),
    Sessions(usize),
}

/// The notes of a recording.
#[derive(Drop)]
pub(crate) struct Notes<'a> {
    pub(crate) header: Option<Note<'a>>,
    pub(crate) size: Option<Note<'a>>,
    pub(crate) term: Option<Note<'a>>,
    pub(crate) resizes: Option<Note<'a>>,
    pub(crate) bytes: Option<Note<'a>>,
    pub(crate) trailer: Option<Note<'a>>,
    pub(crate) sessions: Option<Note<'a>>,
}

// ---- which notes there are

/// The notes of a recording, of which so many changes of size were left out, and so many bytes or parts aren't shown as
/// they were meant.
pub(crate) fn notes_of(
    recording: &Recording,
    played: PlayedAs,
    resizes: u64,
    bytes: u64,
) -> Notes<'_>
    requires { bytes ≡ (left_of played (body recording.now.chunks)).bytes }
    ensures { notes_seen result ≡ notes_of played resizes recording.now }
{
    let line = header_line(recording.header());
    Notes {
        header: header_note(line),
        size: size_note(played, size_of(line)),
        term: term_note(played, term_of(line)),
        resizes: resizes_note(resizes),
        bytes: bytes_note(played, bytes),
        trailer: trailer_note(recording.trailer()),
        sessions: sessions_note(sessions_in(recording.trailer())),
    }
}

fn header_note(line: &[u8]) -> Option<Note<'_>>
    ensures { seen_if result ≡ header_note line.now }
{
    if is_scripts(line) {
        return None;
    }
    Some(Note::Header)
}

pub(crate) fn size_note(played: PlayedAs, size: Option<Size<'_>>) -> Option<Note<'_>>
    ensures { seen_if result ≡ size_note played (option_map size_seen size.entry) }
{
    match size {
        Some(size) if !size.is_played(played) => Some(Note::Size(size, played)),
        _ => None,
    }
}

pub(crate) fn term_note(played: PlayedAs, term: Option<&[u8]>) -> Option<Note<'_>>
    ensures { seen_if result ≡ term_note played (option_copied term.entry) }
{
    match term {
        Some(term) if !passes(played, term) => Some(Note::Term(term, played)),
        _ => None,
    }
}

#[tactic(auto, unfolding(crate::specs::Lines::high_bytes))]
pub(crate) fn high_bytes(chunks: &[Chunk]) -> u64
    requires { body_len chunks.now ≤ longest_body }
    ensures { result ≡ high_bytes (body chunks.now) }
{
    let mut high = 0;
    for chunk in chunks {
        high += high_in(chunk.bytes.as_slice()) as u64;
    }
    high
}

fn high_in(bytes: &[u8]) -> usize
    ensures value { result ≡ count_by (λ byte. nat_le 128 byte) bytes.now }
    ensures within { result ≤ length bytes.now }
{
    bytes.iter().filter(|byte| **byte >= 128).count()
}

fn bytes_note(played: PlayedAs, n: u64) -> Option<Note<'static>>
    ensures { seen_if result ≡ bytes_note played n }
{
    if n == 0 {
        return None;
    }
    Some(Note::Bytes(n, played))
}

fn trailer_note(trailer: &[u8]) -> Option<Note<'_>>
    ensures { seen_if result ≡ trailer_note trailer.now }
{
    if is_usual(trailer) {
        return None;
    }
    if trailer.is_empty() {
        return None;
    }
    Some(Note::Trailer(trailer.len()))
}

pub(crate) fn resizes_note(n: u64) -> Option<Note<'static>>
    ensures { seen_if result ≡ resizes_note n }
{
    if n == 0 {
        return None;
    }
    Some(Note::Resizes(n))
}

pub(crate) fn sessions_note(n: usize) -> Option<Note<'static>>
    ensures { seen_if result ≡ sessions_note n }
{
    if n == 0 {
        return None;
    }
    Some(Note::Sessions(n))
}

// ---- writing

/// Writes what the header tells. After a fault a beginning of it has gone out.
#[tactic(auto, unfolding(crate::specs::Lines::facts_text))]
pub(crate) fn put_facts<W: Write>(line: &[u8], writer: &mut Watched<W>)
    ensures { Gave W.contents writer.old writer.new (facts_text line.now) }
{
    gives_join::<W>();
    put_fact(Word::Started, date_of(line), writer);
    put_fact(Word::Term, term_of(line), writer);
    put_size(size_of(line), writer);
}

fn put_fact<W: Write>(head: Word, text: Option<&[u8]>, writer: &mut Watched<W>)
    ensures { Gave W.contents writer.old writer.new
        (line_if (text_of head) (shown_if (option_copied text.entry))) }
{
    gives_join::<W>();
    if let Some(text) = text {
        put_shown_line(head, text, writer);
    }
}

fn put_shown_line<W: Write>(head: Word, text: &[u8], writer: &mut Watched<W>)
    ensures { Gave W.contents writer.old writer.new
        (text_of head ++ shown text.now ++ 10 ∷ []) }
{
    gives_join::<W>();
    writer.give(head.text());
    put_shown(text, writer);
    writer.give(b"\n");
}

// Writes a text of the header, its control characters and bytes from 127 on as `?`.
#[tactic(auto, using(crate::proofs::NoteLemmas::shown_pieces))]
fn put_shown<W: Write>(text: &[u8], writer: &mut Watched<W>)
    ensures { Gave W.contents writer.old writer.new (shown text.now) }
{
    gives_join::<W>();
    for byte in text {
        writer.give(&[visible(*byte)]);
    }
}

fn put_size<W: Write>(size: Option<Size<'_>>, writer: &mut Watched<W>)
    ensures { Gave W.contents writer.old writer.new
        (line_if (text_of Word.Size) (size_text_if (option_map size_seen size.entry))) }
{
    gives_join::<W>();
    if let Some(size) = size {
        put_size_line(&size, writer);
    }
}

fn put_size_line<W: Write>(size: &Size<'_>, writer: &mut Watched<W>)
    ensures { Gave W.contents writer.old writer.new
        (text_of Word.Size ++ size_text (size_seen size.now) ++ 10 ∷ []) }
{
    gives_join::<W>();
    writer.give(Word::Size.text());
    put_size_text(size, writer);
    writer.give(b"\n");
}

fn put_other_size<W: Write>(size: &Size<'_>, played: PlayedAs, writer: &mut Watched<W>)
    ensures { Gave W.contents writer.old writer.new
        (text_of Word.OtherSize ++ size_text (size_seen size.now)
        ++ (text_of Word.PlayedSize ++ played_size_text played)) }
{
    gives_join::<W>();
    writer.give(Word::OtherSize.text());
    put_size_text(size, writer);
    put_played_size(played, writer);
}

fn put_played_size<W: Write>(played: PlayedAs, writer: &mut Watched<W>)
    ensures { Gave W.contents writer.old writer.new
        (text_of Word.PlayedSize ++ played_size_text played) }
{
    match played {
        PlayedAs::Vt(_) => put_numbers(80, 24, writer),
        PlayedAs::Today { columns, lines } => put_numbers(columns, lines, writer),
    }
}

fn put_numbers<W: Write>(columns: u16, lines: u16, writer: &mut Watched<W>)
    ensures { Gave W.contents writer.old writer.new
        (text_of Word.PlayedSize ++ (decimal columns ++ (120 ∷ []) ++ decimal lines)) }
{
    let mut digits = Buffer::new();
    let mut more = Buffer::new();
    let columns = digits.format(columns).as_bytes();
    let lines = more.format(lines).as_bytes();
    writer.give_all(&[Word::PlayedSize.text(), columns, b"x", lines]);
}

fn put_size_text<W: Write>(size: &Size<'_>, writer: &mut Watched<W>)
    ensures { Gave W.contents writer.old writer.new (size_text (size_seen size.now)) }
{
    gives_join::<W>();
    writer.give(size.columns);
    writer.give(b"x");
    writer.give(size.lines);
}

impl Notes<'_> {
    /// Whether there is one.
    pub(crate) fn any(&self) -> bool
        ensures { result ≡ has_note (notes_seen self.now) }
    {
        self.header.is_some()
            || self.size.is_some()
            || self.term.is_some()
            || self.resizes.is_some()
            || self.bytes.is_some()
            || self.trailer.is_some()
            || self.sessions.is_some()
    }

    /// Whether one speaks against the picture: on the size, the terminal or the bytes.
    pub(crate) fn any_on_picture(&self) -> bool
        ensures { result ≡ has_picture_note (notes_seen self.now) }
    {
        self.size.is_some() || self.term.is_some() || self.bytes.is_some()
    }

    /// Writes a line for each. After a fault a beginning of them has gone out.
    #[tactic(auto, unfolding(crate::specs::Lines::note_lines))]
    pub(crate) fn put<W: Write>(&self, writer: &mut Watched<W>)
        ensures { Gave W.contents writer.old writer.new (note_lines (notes_seen self.now)) }
    {
        gives_join::<W>();
        self.put_on_header(writer);
        self.put_on_body(writer);
    }

    #[tactic(auto, unfolding(crate::specs::Lines::header_note_lines))]
    fn put_on_header<W: Write>(&self, writer: &mut Watched<W>)
        ensures { Gave W.contents writer.old writer.new (header_note_lines (notes_seen self.now)) }
    {
        gives_join::<W>();
        put_note_line(&self.header, writer);
        put_note_line(&self.size, writer);
        put_note_line(&self.term, writer);
        put_note_line(&self.resizes, writer);
    }

    #[tactic(auto, unfolding(crate::specs::Lines::body_note_lines))]
    fn put_on_body<W: Write>(&self, writer: &mut Watched<W>)
        ensures { Gave W.contents writer.old writer.new (body_note_lines (notes_seen self.now)) }
    {
        gives_join::<W>();
        put_note_line(&self.bytes, writer);
        put_note_line(&self.trailer, writer);
        put_note_line(&self.sessions, writer);
    }
}

fn put_note_line<W: Write>(note: &Option<Note<'_>>, writer: &mut Watched<W>)
    ensures { Gave W.contents writer.old writer.new
        (line_if (text_of Word.Note) (seen_if note.now)) }
{
    gives_join::<W>();
    if let Some(note) = note {
        note.put_line(writer);
    }
}

/// Writes a part, with `; ` before it where another one stands there.
pub(crate) fn put_further<W: Write>(before: bool, note: &Option<Note<'_>>, writer: &mut Watched<W>)
    ensures { Gave W.contents writer.old writer.new (further before (seen_if note.now)) }
{
    gives_join::<W>();
    if let Some(note) = note {
        note.put_behind(before, writer);
    }
}

#[tactic(auto, unfolding(crate::specs::Noting::separator))]
fn put_separator<W: Write>(before: bool, writer: &mut Watched<W>)
    ensures { Gave W.contents writer.old writer.new (separator before) }
{
    gives_join::<W>();
    if before {
        writer.give(Word::Separator.text());
    }
}

impl Note<'_> {
    fn put_behind<W: Write>(&self, before: bool, writer: &mut Watched<W>)
        ensures { Gave W.contents writer.old writer.new
            (separator before ++ note_seen self.now) }
    {
        gives_join::<W>();
        put_separator(before, writer);
        self.put(writer);
    }

    fn put_line<W: Write>(&self, writer: &mut Watched<W>)
        ensures { Gave W.contents writer.old writer.new
            (text_of Word.Note ++ note_seen self.now ++ 10 ∷ []) }
    {
        gives_join::<W>();
        writer.give(Word::Note.text());
        self.put(writer);
        writer.give(b"\n");
    }

    fn put<W: Write>(&self, writer: &mut Watched<W>)
        ensures { Gave W.contents writer.old writer.new (note_seen self.now) }
    {
        match self {
            Note::Header => writer.give(Word::NoHeader.text()),
            Note::Size(size, played) => put_other_size(size, *played, writer),
            Note::Term(term, played) => put_other_term(term, *played, writer),
            Note::Resizes(n) => put_number(Word::Resizes, *n, Word::LeftOut, writer),
            Note::Bytes(n, played) => put_number(Word::HighBytes, *n, bytes_word(*played), writer),
            Note::Trailer(n) => put_number(Word::Trailing, *n, Word::NeverShown, writer),
            Note::Sessions(n) => put_number(Word::Sessions, *n, Word::MoreSessions, writer),
        }
    }
}

fn put_other_term<W: Write>(term: &[u8], played: PlayedAs, writer: &mut Watched<W>)
    ensures { Gave W.contents writer.old writer.new
        (text_of Word.OtherTerm ++ shown term.now
        ++ (text_of Word.PlayedTerm ++ profile_name played)) }
{
    gives_join::<W>();
    writer.give(Word::OtherTerm.text());
    put_shown(term, writer);
    put_played(played, writer);
}

fn put_played<W: Write>(played: PlayedAs, writer: &mut Watched<W>)
    ensures { Gave W.contents writer.old writer.new
        (text_of Word.PlayedTerm ++ profile_name played) }
{
    writer.give_all(&[Word::PlayedTerm.text(), profile_word(played).text()]);
}

fn profile_word(played: PlayedAs) -> Word
    ensures { text_of result ≡ profile_name played }
{
    match played {
        PlayedAs::Vt(Profile::Vt100) => Word::Vt100,
        PlayedAs::Vt(Profile::Vt102) => Word::Vt102,
        PlayedAs::Today { .. } => Word::Xterm,
    }
}

// What is said of bytes that aren't shown as they were meant.
fn bytes_word(played: PlayedAs) -> Word
    ensures { text_of result ≡ bytes_word played }
{
    match played {
        PlayedAs::Vt(_) => Word::NoUtf8,
        PlayedAs::Today { .. } => Word::NotUtf8,
    }
}

fn put_number<I: Integer, W: Write>(head: Word, n: I, tail: Word, writer: &mut Watched<W>)
    ensures { Gave W.contents writer.old writer.new
        (text_of head ++ I.text n ++ text_of tail) }
{
    writer.give_all(&[head.text(), Buffer::new().format(n).as_bytes(), tail.text()]);
}
