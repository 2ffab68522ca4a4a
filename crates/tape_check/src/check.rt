//! A check of a recording: what it says of itself, and what of it this terminal can't show.
ghost use Rattle.std.specs.Prelude.{◌≡◌, ◌≤◌, ◌&&◌, ◌||◌, ◌++◌, ◌∷◌, [], decimal, false, IfErr, IfOk, OnOk, is_some, true};
ghost use Rattle.std.specs.List.{flat_map};
ghost use Rattle.tape_core.specs.Devices.{Gave, Took, TookPart, has_failed};
ghost use Rattle.tape_core.specs.Tape.{body, body_len, longest_body};
ghost use Rattle.tape_check.specs.Words.{text_of};
ghost use Rattle.tape_check.specs.Header.{header_line};
ghost use Rattle.tape_check.specs.Lines.{StopsCheck, advice, check_text, ending_by, facts_text, has_any, has_note, has_part, has_parts, has_picture_note, is_noted, is_older, left_of, note_line, note_lines, parts_text, unplayed_line};
ghost use Rattle.tape_check.specs.Counting.{entries_of};
ghost use Rattle.tape_check.specs.Noting.{further, notes_seen, parts_in_turn, parts_seen, seen_if};

use crate::header::{header_line, size_of, term_of};
use crate::notes::{
    Note, Notes, high_bytes, notes_of, put_facts, put_further, resizes_note, sessions_note,
    size_note, term_note,
};
use crate::played::PlayedAs;
use crate::scan::unplayed_in;
use crate::tally::tally;
use crate::trailer::sessions_in;
use crate::unplayed::Counts;
use crate::words::Word;
use itoa::Buffer;
use std::alloc::{AllocError, Global};
use std::io::Write;
use tape_core::laws::gives_join;
use tape_core::{Chunk, Fault, Recording, Watched};

/// Why a check isn't written whole.
#[derive(Debug, Clone, Copy, PartialEq, Eq)]
pub enum CheckFault {
    /// The writer failed.
    Write,
    /// Memory was refused to the counts.
    Memory,
}

impl From<Fault> for CheckFault {
    ghost use Rattle.tape_check.specs.declared.check.CheckFault.TheVariants as stops;

    ghost from_gives = { λ _ fault. fault ≡ stops.Write };

    fn from(_fault: Fault) -> Self {
        CheckFault::Write
    }
}

impl From<AllocError> for CheckFault {
    ghost use Rattle.tape_check.specs.declared.check.CheckFault.TheVariants as stops;

    ghost from_gives = { λ _ fault. fault ≡ stops.Memory };

    fn from(_refused: AllocError) -> Self {
        CheckFault::Memory
    }
}

/// Writes the lines of a check of a recording, of which so many changes of size were left out, and tells whether a note or an unplayed sequence is among them. It doesn't flush. After
/// a write fault a beginning of the text has gone out; where memory is refused nothing has.
#[tactic(auto, unfolding(crate::specs::Lines::check_text, crate::specs::Lines::is_noted))]
pub fn write_check<W: Write>(
    alloc: Global,
    recording: &Recording,
    played: PlayedAs,
    resizes: u64,
    writer: &mut Watched<W>,
) -> Result<bool, CheckFault>
    requires { has_failed writer.old ≡ false }
    ensures ok { OnOk result
        (Took W.contents writer.old writer.new (check_text played resizes recording.now)) }
    ensures noted { IfOk result (λ noted. noted ≡ is_noted played resizes recording.now) }
    ensures fault { IfErr result
        (StopsCheck W.contents writer.old writer.new (check_text played resizes recording.now)) }
{
    let left = left_of(alloc, played, recording.chunks())?;
    let notes = notes_of(recording, played, resizes, left.bytes);
    let line = header_line(recording.header());
    put_check(line, played, &notes, &left.unplayed, writer);
    writer.ask()?;
    Ok(is_noted(&notes, &left.unplayed))
}

/// What of a recording a terminal leaves out.
#[derive(Drop)]
struct Left {
    unplayed: Counts,
    bytes: u64,
}

#[tactic(auto, unfolding(crate::specs::Lines::left_of))]
fn left_of(alloc: Global, played: PlayedAs, chunks: &[Chunk]) -> Result<Left, AllocError>
    requires { body_len chunks.now ≤ longest_body }
    ensures unplayed { IfOk result (λ left.
        entries_of left.unplayed ≡ (left_of played (body chunks.now)).unplayed) }
    ensures bytes { IfOk result (λ left. left.bytes ≡ (left_of played (body chunks.now)).bytes) }
{
    match played {
        PlayedAs::Vt(profile) => Ok(Left {
            unplayed: unplayed_in(alloc, profile, chunks)?,
            bytes: high_bytes(chunks),
        }),
        PlayedAs::Today { .. } => {
            let (unplayed, bytes) = tally(alloc, chunks)?;
            Ok(Left { unplayed, bytes })
        }
    }
}

impl PlayedAs {
    // Whether another terminal than one of today plays.
    fn is_older(self) -> bool
        ensures { result ≡ is_older self }
    {
        match self {
            PlayedAs::Vt(_) => true,
            PlayedAs::Today { .. } => false,
        }
    }
}

// Whether the picture isn't to be trusted.
fn is_untrue(notes: &Notes<'_>, counts: &Counts) -> bool
    ensures { result ≡ (has_picture_note (notes_seen notes.now) || has_any (entries_of counts.now)) }
{
    notes.any_on_picture() || !counts.entries.is_empty()
}

fn is_noted(notes: &Notes<'_>, counts: &Counts) -> bool
    ensures { result ≡ (has_note (notes_seen notes.now) || has_any (entries_of counts.now)) }
{
    notes.any() || !counts.entries.is_empty()
}

fn put_check<W: Write>(
    line: &[u8],
    played: PlayedAs,
    notes: &Notes<'_>,
    counts: &Counts,
    writer: &mut Watched<W>,
)
    ensures { Gave W.contents writer.old writer.new
        (facts_text line.now ++ note_lines (notes_seen notes.now)
        ++ flat_map unplayed_line (entries_of counts.now)
        ++ advice played (notes_seen notes.now) (entries_of counts.now)) }
{
    gives_join::<W>();
    put_facts(line, writer);
    notes.put(writer);
    put_unplayed(counts, writer);
    put_advice(played, notes, counts, writer);
}

fn put_advice<W: Write>(
    played: PlayedAs,
    notes: &Notes<'_>,
    counts: &Counts,
    writer: &mut Watched<W>,
)
    ensures { Gave W.contents writer.old writer.new
        (advice played (notes_seen notes.now) (entries_of counts.now)) }
{
    gives_join::<W>();
    if played.is_older() && is_untrue(notes, counts) {
        writer.give(Word::Try.text());
    }
}

fn put_unplayed<W: Write>(counts: &Counts, writer: &mut Watched<W>)
    ensures { Gave W.contents writer.old writer.new
        (flat_map unplayed_line (entries_of counts.now)) }
{
    gives_join::<W>();
    for (name, count) in counts.entries.iter() {
        put_entry(name.as_slice(), *count, writer);
    }
}

fn put_entry<W: Write>(name: &[u8], count: u64, writer: &mut Watched<W>)
    ensures { Gave W.contents writer.old writer.new (unplayed_line (name.now, count)) }
{
    gives_join::<W>();
    put_count(count, writer);
    writer.give(name);
    writer.give(b"\n");
}

fn put_count<W: Write>(count: u64, writer: &mut Watched<W>)
    ensures { Gave W.contents writer.old writer.new
        (text_of Word.Unplayed ++ decimal count ++ 32 ∷ []) }
{
    let mut digits = Buffer::new();
    let count = digits.format(count).as_bytes();
    writer.give_all(&[Word::Unplayed.text(), count, b" "]);
}

/// Writes one line that tells whoever plays a recording what of its size, its terminal, the changes of size that were left
/// out and its sessions speaks against the picture, and tells whether there was something to tell; else it writes nothing. It doesn't flush. After a fault
/// a beginning of the line has gone out.
#[tactic(auto, unfolding(crate::specs::Lines::parts))]
pub fn put_parts<W: Write>(
    recording: &Recording,
    played: PlayedAs,
    resizes: u64,
    writer: &mut Watched<W>,
) -> Result<bool, Fault>
    requires { has_failed writer.old ≡ false }
    ensures ok { OnOk result
        (Took W.contents writer.old writer.new (note_line played resizes recording.now)) }
    ensures told { IfOk result (λ told. told ≡ has_parts played resizes recording.now) }
    ensures fault { IfErr result (λ fault. (fault ≡ Fault.WriteFault)
        × TookPart W.contents writer.old writer.new (note_line played resizes recording.now) true) }
{
    gives_join::<W>();
    let line = header_line(recording.header());
    let parts = Parts {
        size: size_note(played, size_of(line)),
        term: term_note(played, term_of(line)),
        resizes: resizes_note(resizes),
        sessions: sessions_note(sessions_in(recording.trailer())),
    };
    if !parts.any() {
        return Ok(false);
    }
    parts.put_line(played.is_older(), writer);
    writer.ask()?;
    Ok(true)
}

/// The notes that are told to whoever plays a recording.
#[derive(Drop)]
struct Parts<'a> {
    size: Option<Note<'a>>,
    term: Option<Note<'a>>,
    resizes: Option<Note<'a>>,
    sessions: Option<Note<'a>>,
}

impl Parts<'_> {
    fn any(&self) -> bool
        ensures { result ≡ has_part (parts_seen self.now) }
    {
        self.has_header_note() || self.resizes.is_some() || self.sessions.is_some()
    }

    fn put_line<W: Write>(&self, is_older: bool, writer: &mut Watched<W>)
        ensures { Gave W.contents writer.old writer.new
            (text_of Word.Beginning ++ parts_text (parts_seen self.now)
            ++ ending_by (is_older && (is_some self.now.size || is_some self.now.term))) }
    {
        gives_join::<W>();
        writer.give(Word::Beginning.text());
        self.put(writer);
        writer.give(self.ending(is_older).text());
    }

    // What the line ends with.
    fn ending(&self, is_older: bool) -> Word
        ensures { text_of result ≡ ending_by (is_older && (is_some self.now.size || is_some self.now.term)) }
    {
        if is_older && self.has_header_note() {
            return Word::EndingTry;
        }
        Word::Ending
    }

    fn put<W: Write>(&self, writer: &mut Watched<W>)
        ensures { Gave W.contents writer.old writer.new (parts_text (parts_seen self.now)) }
    {
        self.put_in_turn(writer)
    }

    #[tactic(auto, unfolding(crate::specs::Noting::parts_in_turn))]
    fn put_in_turn<W: Write>(&self, writer: &mut Watched<W>)
        ensures { Gave W.contents writer.old writer.new (parts_in_turn self.now) }
    {
        gives_join::<W>();
        put_further(false, &self.size, writer);
        self.put_term(writer);
        self.put_resizes(writer);
        self.put_sessions(writer);
    }

    fn put_term<W: Write>(&self, writer: &mut Watched<W>)
        ensures { Gave W.contents writer.old writer.new
            (further (is_some self.now.size) (seen_if self.now.term)) }
    {
        put_further(self.size.is_some(), &self.term, writer)
    }

    fn put_resizes<W: Write>(&self, writer: &mut Watched<W>)
        ensures { Gave W.contents writer.old writer.new
            (further (is_some self.now.size || is_some self.now.term) (seen_if self.now.resizes)) }
    {
        put_further(self.has_header_note(), &self.resizes, writer)
    }

    fn put_sessions<W: Write>(&self, writer: &mut Watched<W>)
        ensures { Gave W.contents writer.old writer.new
            (further (is_some self.now.size || is_some self.now.term || is_some self.now.resizes)
            (seen_if self.now.sessions)) }
    {
        let before = self.has_header_note() || self.resizes.is_some();
        put_further(before, &self.sessions, writer)
    }

    fn has_header_note(&self) -> bool
        ensures { result ≡ (is_some self.now.size || is_some self.now.term) }
    {
        self.size.is_some() || self.term.is_some()
    }
}
