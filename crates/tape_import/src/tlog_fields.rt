//! The members of a message of tlog, each by what it tells.
ghost use Rattle.std.specs.Prelude.{◌≡◌, ℕ, [], IfOk, List, MatchOption, None, OnOk, Option, Some, false, true};
ghost use Rattle.std.specs.Option.{option_map};
ghost use Rattle.json_bytes.specs.Listed.{valued};
ghost use Rattle.json_bytes.specs.Strings.{meant};
ghost use Rattle.json_bytes.specs.Values.{Json, Members, json_of, last_named, member_of, named_value, object_at, value};
ghost use Rattle.tape_import.specs.Asciicast.{is_word};
ghost use Rattle.tape_import.specs.KeptTlog.{Tells, field_named, none_told, with_member, word_of};

use crate::tlog_message::{bytes_of, count_of, is_versioned};
use json_bytes::{DEEPEST, ReadValue, StringBytes, past_mark, past_space, read_string, read_value};
use std::alloc::{AllocError, Global};

/// The members that tell something.
#[derive(Clone, Copy, Debug)]
pub enum Field {
    Version,
    Number,
    Pos,
    Recording,
    Term,
    Time,
    Timing,
    TypedText,
    TypedBytes,
    ShownText,
    ShownBytes,
}

/// A text and bytes, empty where they are left out; none where what is told is no text, or no bytes.
#[derive(Drop)]
pub struct Given<'a> {
    pub text: Option<StringBytes<'a>>,
    pub bytes: Option<Vec<u8>>,
}

/// What the last member of each name tells: whether the version is one that is read; the numbers; the names of the
/// recording and of the terminal; the second; the timing; and what was typed and what was shown.
#[derive(Drop)]
pub struct Fields<'a> {
    pub is_versioned: bool,
    pub number: Option<u64>,
    pub pos: Option<u64>,
    pub recording: Option<StringBytes<'a>>,
    pub term: Option<ReadValue<'a>>,
    pub time: Option<ReadValue<'a>>,
    pub timing: Option<StringBytes<'a>>,
    pub typed: Given<'a>,
    pub shown: Given<'a>,
}

/// Whether a name is this word, whose length is known where this is inlined: then few tests are left.
#[inline(always)]
#[tactic(auto, using(crate::proofs::FieldLemmas::word_begins, crate::proofs::FieldLemmas::word_longer))]
fn is_named(name: &[u8], word: &[u8]) -> bool
    ensures { result ≡ is_word word.now name.now }
{
    name.len() == word.len() && name.starts_with(word)
}

/// The member of this name.
#[inline]
fn field_named(name: &[u8]) -> Option<Field>
    ensures { result ≡ field_named name.now }
{
    if is_named(name, b"ver") {
        Some(Field::Version)
    } else if is_named(name, b"id") {
        Some(Field::Number)
    } else if is_named(name, b"pos") {
        Some(Field::Pos)
    } else if is_named(name, b"rec") {
        Some(Field::Recording)
    } else if is_named(name, b"term") {
        Some(Field::Term)
    } else if is_named(name, b"time") {
        Some(Field::Time)
    } else if is_named(name, b"timing") {
        Some(Field::Timing)
    } else if is_named(name, b"in_txt") {
        Some(Field::TypedText)
    } else if is_named(name, b"in_bin") {
        Some(Field::TypedBytes)
    } else if is_named(name, b"out_txt") {
        Some(Field::ShownText)
    } else if is_named(name, b"out_bin") {
        Some(Field::ShownBytes)
    } else {
        None
    }
}

impl<'a> Given<'a> {
    /// Both are left out. Takes no memory.
    fn none(alloc: Global) -> Given<'a>
        ensures text { option_map meant result.text ≡ Some [] }
        ensures bytes { option_map (λ b. b.items) result.bytes ≡ Some [] }
    {
        Given {
            text: Some(StringBytes::Standing(b"")),
            bytes: Some(Vec::new(alloc)),
        }
    }
}

impl<'a> Fields<'a> {
    /// No member was read yet. Takes no memory.
    pub fn none(alloc: Global) -> Fields<'a>
        ensures { Tells none_told result }
    {
        Fields {
            is_versioned: false,
            number: None,
            pos: None,
            recording: None,
            term: None,
            time: None,
            timing: None,
            typed: Given::none(alloc),
            shown: Given::none(alloc),
        }
    }

    /// Takes the value of a member.
    #[inline]
    fn put(&mut self, alloc: Global, field: Field, value: ReadValue<'a>) -> Result<(), AllocError>
        ensures { OnOk result ((told : List ℕ → Option Json) → Tells told self.old
            → Tells (with_member (word_of field) (valued 63 value.entry) told) self.new) }
    {
        match field {
            Field::Version => self.is_versioned = is_versioned(alloc, &value)?,
            Field::Number => self.number = count_of(&value),
            Field::Pos => self.pos = count_of(&value),
            Field::Recording => self.recording = value.into_string(alloc)?,
            Field::Term => self.term = Some(value),
            Field::Time => self.time = Some(value),
            Field::Timing => self.timing = value.into_string(alloc)?,
            Field::TypedText => self.typed.text = value.into_string(alloc)?,
            Field::TypedBytes => self.typed.bytes = bytes_of(alloc, &value)?,
            Field::ShownText => self.shown.text = value.into_string(alloc)?,
            Field::ShownBytes => self.shown.bytes = bytes_of(alloc, &value)?,
        }
        Ok(())
    }

    /// Reads the member at the front, and gives what stands behind it.
    #[inline]
    fn read_member(&mut self, alloc: Global, text: &'a [u8]) -> Result<Option<&'a [u8]>, AllocError>
        ensures { IfOk result (λ rest. MatchOption rest (named_value (value 63) text.now ≡ None)
            (λ r. (name : List ℕ) × (v : Json)
            × (named_value (value 63) text.now ≡ Some ((name, v), r.now))
            × ((told : List ℕ → Option Json) → Tells told self.old
            → Tells (with_member name v told) self.new))) }
    {
        let Some((name, rest)) = read_string(alloc, text)? else {
            return Ok(None);
        };
        let Some(place) = past_mark(b':', rest) else {
            return Ok(None);
        };
        let Some((value, rest)) = read_value(alloc, place, DEEPEST - 1)? else {
            return Ok(None);
        };
        if let Some(field) = field_named(name.as_slice()) {
            self.put(alloc, field, value)?;
        }
        Ok(Some(rest))
    }

    /// Reads the members of the object at the front, and gives what stands behind it.
    fn read_object(&mut self, alloc: Global, text: &'a [u8]) -> Result<Option<&'a [u8]>, AllocError>
        requires { Tells none_told self.old }
        ensures { IfOk result (λ rest. MatchOption rest (object_at (value 63) text.now ≡ None)
            (λ r. (all : Members) × (object_at (value 63) text.now ≡ Some (all, r.now))
            × Tells (λ name. last_named name None all) self.new)) }
    {
        let Some(inner) = past_mark(b'{', text) else {
            return Ok(None);
        };
        if let Some(rest) = past_mark(b'}', inner) {
            return Ok(Some(rest));
        }
        let mut at = inner;
        for _ in 0..inner.len() {
            let Some(rest) = self.read_member(alloc, at)? else {
                return Ok(None);
            };
            if let Some(rest) = past_mark(b'}', rest) {
                return Ok(Some(rest));
            }
            let Some(next) = past_mark(b',', rest) else {
                return Ok(None);
            };
            at = next;
        }
        Ok(None)
    }

    /// Reads what the members of the object tell that a line is, and tells whether it is one.
    pub fn read(&mut self, alloc: Global, line: &'a [u8]) -> Result<bool, AllocError>
        requires { Tells none_told self.old }
        ensures told { IfOk result (λ whole. whole ≡ true
            → Tells (λ name. member_of name (json_of line.now)) self.new) }
        ensures none { IfOk result (λ whole. whole ≡ false
            → (name : List ℕ) → member_of name (json_of line.now) ≡ None) }
    {
        let object = past_space(line);
        if !object.starts_with(b"{") {
            return Ok(false);
        }
        let Some(rest) = self.read_object(alloc, object)? else {
            return Ok(false);
        };
        Ok(past_space(rest).is_empty())
    }
}
