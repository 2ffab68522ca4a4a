//! A recording in the making.

ghost use Rattle.std.specs.Prelude.{◌<◌};

use crate::random::Random;
use itoa::Buffer;
use std::alloc::{AllocError, Global};

/// The words of programs, logs and letters.
const WORDS: [&str; 40] = [
    "the",
    "error",
    "of",
    "request",
    "in",
    "server",
    "at",
    "worker",
    "queue",
    "the",
    "cache",
    "message",
    "to",
    "user",
    "failed",
    "line",
    "build",
    "test",
    "warning",
    "target",
    "for",
    "timeout",
    "from",
    "socket",
    "while",
    "return",
    "static",
    "struct",
    "value",
    "length",
    "buffer",
    "sector",
    "index",
    "a",
    "is",
    "with",
    "no",
    "such",
    "file",
    "directory",
];

/// Words in other scripts, and with marks.
const OTHERS: [&str; 8] = [
    "東京",
    "日本語",
    "re\u{301}sume\u{301}",
    "naïve",
    "Москва",
    "δοκιμή",
    "報告",
    "über",
];

/// Which terminal a recording is made for.
#[derive(Clone, Copy, Debug, PartialEq, Eq)]
pub enum Kind {
    Vt100,
    Today,
}

/// A typescript and its timing, as far as they are made.
#[derive(Drop)]
pub struct Recorder {
    pub script: Vec<u8>,
    pub timing: Vec<u8>,
    pub random: Random,
    pub kind: Kind,
    pub columns: usize,
    pub lines: usize,
    /// How many chunks were ended, how many bytes they have with the header, and when the last is due, in microseconds.
    pub chunks: usize,
    pub ended: usize,
    pub due: u64,
}

impl Recorder {
    /// One of a terminal of this kind and size, with a header that tells them.
    pub fn new(
        alloc: Global,
        seed: u64,
        kind: Kind,
        columns: usize,
        lines: usize,
    ) -> Result<Self, AllocError> {
        let name = match kind {
            Kind::Vt100 => "vt100",
            Kind::Today => "xterm-256color",
        };
        let header = format!(in alloc;
            "Script started on 2026-11-26 10:00:00+00:00 [TERM=\"{name}\" TTY=\"/dev/pts/1\" COLUMNS=\"{columns}\" LINES=\"{lines}\"]\n"
        )?;
        let mut script = Vec::new(alloc);
        script.extend_from_slice(header.as_bytes())?;
        let ended = script.len();
        Ok(Recorder {
            script,
            timing: Vec::new(alloc),
            random: Random::new(seed),
            kind,
            columns,
            lines,
            chunks: 0,
            ended,
            due: 0,
        })
    }

    /// Puts a text.
    pub fn put(&mut self, text: &str) -> Result<(), AllocError> {
        self.script.extend_from_slice(text.as_bytes())
    }

    /// Puts a number.
    pub fn put_number(&mut self, number: usize) -> Result<(), AllocError> {
        self.script
            .extend_from_slice(Buffer::new().format(number).as_bytes())
    }

    /// Puts a word, now and then one that no VT100 has.
    pub fn put_word(&mut self) -> Result<(), AllocError> {
        if self.kind == Kind::Today && self.random.once_in(24) {
            let other = self.random.below(8);
            return self.put(OTHERS[other]);
        }
        let word = self.random.below(40);
        self.put(WORDS[word])
    }

    /// Puts so many words, with spaces between them.
    pub fn put_words(&mut self, count: usize) -> Result<(), AllocError> {
        for at in 0..count {
            if at > 0 {
                self.put(" ")?;
            }
            self.put_word()?;
        }
        Ok(())
    }

    /// Changes the rendition: a colour, or bold and the like.
    pub fn put_style(&mut self) -> Result<(), AllocError> {
        if self.kind == Kind::Vt100 {
            let style = self.random.below(3);
            let number = [1, 4, 7][style];
            return self.put_sequence(number, "m");
        }
        if self.random.once_in(3) {
            self.put("\x1b[38;5;")?;
            let colour = self.random.below(256);
            self.put_number(colour)?;
            return self.put("m");
        }
        let colour = 30 + self.random.below(8);
        self.put_sequence(colour, "m")
    }

    /// Puts the control sequence with this parameter.
    pub fn put_sequence(&mut self, parameter: usize, end: &str) -> Result<(), AllocError> {
        self.put("\x1b[")?;
        self.put_number(parameter)?;
        self.put(end)
    }

    /// Moves the cursor.
    pub fn go_to(&mut self, line: usize, column: usize) -> Result<(), AllocError> {
        self.put("\x1b[")?;
        self.put_number(line)?;
        self.put(";")?;
        self.put_number(column)?;
        self.put("H")
    }

    /// Ends a chunk, if it has bytes, that came some tenths of a second after the last one.
    pub fn end_chunk(&mut self) -> Result<(), AllocError> {
        let count = self.script.len().saturating_sub(self.ended);
        if count == 0 {
            return Ok(());
        }
        let delay = 100000 + self.random.below(200000);
        let timing = &mut self.timing;
        timing.extend_from_slice(b"0.")?;
        timing.extend_from_slice(Buffer::new().format(delay).as_bytes())?;
        timing.extend_from_slice(b" ")?;
        timing.extend_from_slice(Buffer::new().format(count).as_bytes())?;
        timing.extend_from_slice(b"\n")?;
        self.due = self.due.saturating_add(delay as u64);
        self.ended = self.script.len();
        self.chunks = self.chunks.saturating_add(1);
        Ok(())
    }
}
