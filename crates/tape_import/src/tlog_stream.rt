//! What is left of what was typed, or shown, in a message of tlog.
ghost use Rattle.std.specs.Prelude.{◌≤◌, length};
ghost use Rattle.json_bytes.specs.Strings.{meant};

use crate::tlog_timing::characters_len;
use json_bytes::StringBytes;
use std::alloc::{AllocError, Global};
use std::mem::replace;
use tape_core::Bytes;

/// What is left of a stream: so many bytes at the end of its text, and so many of its bytes.
#[derive(Drop)]
pub struct Rest<'a> {
    text: StringBytes<'a>,
    text_left: usize,
    bytes: Vec<u8>,
    bytes_left: usize,
    ghost text_within: { text_left ≤ length (meant text) },
    ghost bytes_within: { bytes_left ≤ length bytes.items },
}

impl<'a> Rest<'a> {
    ghost use Rattle.std.specs.Prelude.{◌≡◌, ℕ, IfOk, IfSome, List, MatchOption, None, Some, nat_le, true};
    ghost use Rattle.tape_import.specs.KeptTlog.{shown_stream};
    ghost use Rattle.tape_import.specs.TlogTiming.{bytes_taken, characters_len, text_taken};

    /// All of a stream.
    pub fn all(text: StringBytes<'a>, bytes: Vec<u8>) -> Rest<'a>
        ensures { shown_stream result ≡ record { text = meant text.entry; bytes = bytes.items } }
    {
        let text_left = text.as_slice().len();
        let bytes_left = bytes.len();
        Rest {
            text,
            text_left,
            bytes,
            bytes_left,
        }
    }

    /// How many bytes the first so many characters of the text have.
    fn text_len(&self, count: u64) -> Option<usize>
        ensures len { result ≡ characters_len count (shown_stream self.now).text }
        ensures within { IfSome result (λ len. len ≤ self.now.text_left) }
    {
        let text = self.text.as_slice();
        let (_, left) = text.split_at(text.len() - self.text_left);
        characters_len(left, count)
    }

    /// Whether so many bytes are left.
    fn has_bytes(&self, count: u64) -> bool
        ensures few { result ≡ nat_le count (length (shown_stream self.now).bytes) }
        ensures within { result ≡ true → count ≤ self.now.bytes_left }
    {
        count <= self.bytes_left as u64
    }

    /// Passes over the first so many characters of the text.
    pub fn pass_text(&mut self, count: u64) -> Option<()>
        ensures { MatchOption result (text_taken count (shown_stream self.old) ≡ None)
            (λ _. (taken : List ℕ) × (text_taken count (shown_stream self.old) ≡ Some (taken, shown_stream self.new))) }
    {
        self.text_left -= self.text_len(count)?;
        Some(())
    }

    /// Takes the first so many characters off the text, which is handed over where they are all of it.
    pub fn take_text(&mut self, alloc: Global, count: u64) -> Result<Option<Bytes>, AllocError>
        ensures { IfOk result (λ taken. MatchOption taken
            (text_taken count (shown_stream self.old) ≡ None)
            (λ bytes. text_taken count (shown_stream self.old) ≡ Some (bytes, shown_stream self.new))) }
    {
        let Some(len) = self.text_len(count) else {
            return Ok(None);
        };
        let text = self.text.as_slice();
        if len == text.len() {
            self.text_left = 0;
            let all = replace(&mut self.text, StringBytes::Standing(b""));
            return Ok(Some(Bytes::from_vec(all.into_vec(alloc)?)));
        }
        let (_, left) = text.split_at(text.len() - self.text_left);
        let taken = Bytes::copy_of(alloc, left.split_at(len).0)?;
        self.text_left -= len;
        Ok(Some(taken))
    }

    /// Passes over so many characters of the text, and the first so many bytes.
    pub fn pass_bytes(&mut self, skipped: u64, count: u64) -> Option<()>
        ensures { MatchOption result (bytes_taken skipped count (shown_stream self.old) ≡ None)
            (λ _. (taken : List ℕ)
            × (bytes_taken skipped count (shown_stream self.old) ≡ Some (taken, shown_stream self.new))) }
    {
        if !self.has_bytes(count) {
            return None;
        }
        self.text_left -= self.text_len(skipped)?;
        self.bytes_left -= count as usize;
        Some(())
    }

    /// Takes the first so many bytes, in place of so many characters of the text.
    pub fn take_bytes(
        &mut self,
        alloc: Global,
        skipped: u64,
        count: u64,
    ) -> Result<Option<Bytes>, AllocError>
        ensures { IfOk result (λ taken. MatchOption taken
            (bytes_taken skipped count (shown_stream self.old) ≡ None)
            (λ bytes. bytes_taken skipped count (shown_stream self.old) ≡ Some (bytes, shown_stream self.new))) }
    {
        if !self.has_bytes(count) {
            return Ok(None);
        }
        let Some(len) = self.text_len(skipped) else {
            return Ok(None);
        };
        let (_, left) = self.bytes.split_at(self.bytes.len() - self.bytes_left);
        let taken = Bytes::copy_of(alloc, left.split_at(count as usize).0)?;
        self.text_left -= len;
        self.bytes_left -= count as usize;
        Ok(Some(taken))
    }
}
