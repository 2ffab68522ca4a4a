//! What a text begins with, seen while it is read: it may be read once alone.

ghost use Rattle.std.specs.Prelude.{◌≡◌, false, fold};
ghost use Rattle.tape_core.specs.Devices.{has_failed};
ghost use Rattle.job_files.specs.Beginning.{after_byte, field_after, is_compressed, is_empty, is_settled, is_started, is_streams, is_two_words, is_typescript, nothing, remaining_of, session_after};

use crate::packing::Packing;
use std::io;
use std::io::Read;
use tape_core::Watched;

/// With which bytes script(1) begins a typescript.
const SESSION: &[u8] = b"Script started on ";

/// How many of them its first two words have.
const TWO_WORDS: usize = 14;

/// The first field of a text, of whichever line.
#[derive(Clone, Copy, Debug, PartialEq, Eq)]
pub enum FirstField {
    /// Blank bytes alone have come.
    Awaited,
    /// The letter of a stream of the multi-stream format has come, and nothing behind it.
    Letter,
    /// It is such a letter.
    Stream,
    /// It is something else.
    Other,
}

/// What a text begins with: whether it has a byte, how many of its bytes are those with which script(1) begins a
/// typescript, up to all of these (None: another byte stands there), whether the first two words of these have come, how
/// many are those of a compressed file, and its first field.
#[derive(Clone, Copy, Debug, PartialEq, Eq)]
pub struct Beginning {
    empty: bool,
    session: Option<usize>,
    started: bool,
    packing: Packing,
    first: FirstField,
}

impl Beginning {
    /// That of the empty text.
    pub fn new() -> Beginning
        ensures { result ≡ nothing }
    {
        Beginning {
            empty: true,
            session: Some(0),
            started: false,
            packing: Packing::Awaited,
            first: FirstField::Awaited,
        }
    }

    /// Whether the text is empty.
    pub fn is_empty(self) -> bool
        ensures { result ≡ is_empty self }
    {
        self.empty
    }

    /// Whether it begins as script(1) begins a typescript.
    pub fn is_typescript(self) -> bool
        ensures { result ≡ is_typescript self }
    {
        matches!(self.session, Some(come) if come == SESSION.len())
    }

    /// Whether it begins with the first two words of these: `Script started`.
    pub fn is_started(self) -> bool
        ensures { result ≡ is_started self }
    {
        self.started
    }

    /// Whether it begins as a compressed file does.
    pub fn is_compressed(self) -> bool
        ensures { result ≡ is_compressed self }
    {
        self.packing.is_packed()
    }

    /// Whether its first field is a letter of the multi-stream format.
    pub fn is_streams(self) -> bool
        ensures { result ≡ is_streams self }
    {
        matches!(self.first, FirstField::Letter | FirstField::Stream)
    }

    /// That of a text that goes on with these bytes.
    #[tactic(auto, using(crate::proofs::BeginningLemmas::settled_stays))]
    fn after(self, bytes: &[u8]) -> Beginning
        ensures { result ≡ fold after_byte self bytes.now }
    {
        let mut beginning = self;
        let mut rest = bytes;
        while !beginning.is_settled() {
            let [byte, more @ ..] = rest else {
                return beginning;
            };
            beginning = beginning.after_byte(*byte);
            rest = more;
        }
        beginning
    }

    /// Whether no further byte changes it.
    fn is_settled(self) -> bool
        ensures { result ≡ is_settled self }
    {
        let typescript = self.session.is_none() || self.is_typescript();
        let field = matches!(self.first, FirstField::Stream | FirstField::Other);
        !self.empty && typescript && self.packing.is_past() && field
    }

    /// That of a text that goes on with this byte.
    fn after_byte(self, byte: u8) -> Beginning
        ensures { result ≡ after_byte self byte }
    {
        let session = session_after(self.session, byte);
        Beginning {
            empty: false,
            session,
            started: is_two_words(session) || self.started,
            packing: self.packing.after(byte),
            first: field_after(self.first, byte),
        }
    }
}

/// How many bytes of a typescript's beginning have come with this one.
fn session_after(session: Option<usize>, byte: u8) -> Option<usize>
    ensures { result ≡ session_after session byte }
{
    let come = session?;
    if come >= SESSION.len() {
        return session;
    }
    if SESSION[come] == byte {
        Some(come + 1)
    } else {
        None
    }
}

/// Whether they are just the first two words.
fn is_two_words(session: Option<usize>) -> bool
    ensures { result ≡ is_two_words session }
{
    match session {
        Some(come) => come == TWO_WORDS,
        None => false,
    }
}

/// The first field with this byte.
fn field_after(first: FirstField, byte: u8) -> FirstField
    ensures { result ≡ field_after first byte }
{
    let blank = matches!(byte, b' ' | b'\t' | b'\n');
    match first {
        FirstField::Awaited if blank => FirstField::Awaited,
        FirstField::Awaited if matches!(byte, b'H' | b'I' | b'O' | b'S') => FirstField::Letter,
        FirstField::Letter if blank => FirstField::Stream,
        FirstField::Awaited | FirstField::Letter => FirstField::Other,
        FirstField::Stream | FirstField::Other => first,
    }
}

/// A reader, and what the text that it tells begins with.
#[derive(Drop)]
pub struct Begun<R> {
    inner: R,
    beginning: Beginning,
}

impl<R: Read> Read for Begun<R> {
    ghost remaining = { remaining_of R.remaining };

    fn read(&mut self, buf: &mut [u8]) -> io::Result<usize> {
        let count = self.inner.read(buf)?;
        self.beginning = self.beginning.after(&buf[..count]);
        Ok(count)
    }
}

/// What both files that a job reads begin with. A recording of another form stands for the script.
#[derive(Clone, Copy, Debug)]
pub struct Beginnings {
    pub script: Beginning,
    pub timing: Beginning,
}

impl Beginnings {
    /// Of a recording in one file, as far as it was read.
    pub fn of_one<F: Drop>(recording: Watched<Begun<F>>) -> Beginnings {
        Beginnings {
            script: recording.into_inner().beginning,
            timing: Beginning::new(),
        }
    }
}

/// The files that a job reads.
#[derive(Drop)]
pub struct Sources<F> {
    pub script: Watched<Begun<F>>,
    pub timing: Watched<Begun<F>>,
}

impl<F> Sources<F> {
    /// Two files that have yet to be read.
    pub fn new(script: F, timing: F) -> Sources<F>
        ensures script { has_failed result.script ≡ false }
        ensures timing { has_failed result.timing ≡ false }
    {
        Sources {
            script: watched(script),
            timing: watched(timing),
        }
    }

    /// What they begin with, as far as they were read.
    pub fn into_beginnings(self) -> Beginnings
    where
        F: Drop,
    {
        Beginnings {
            script: self.script.into_inner().beginning,
            timing: self.timing.into_inner().beginning,
        }
    }
}

/// A file that has yet to be read.
pub fn watched<F>(inner: F) -> Watched<Begun<F>>
    ensures { has_failed result ≡ false }
{
    Watched::new(Begun {
        inner,
        beginning: Beginning::new(),
    })
}
