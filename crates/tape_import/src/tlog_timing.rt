//! The timing of a message of tlog: which of its characters and bytes came, or were typed, when.
ghost use Rattle.std.specs.Prelude.{◌≡◌, ◌≤◌, ◌++◌, All, IfOk, IfSome, MatchOption, None, OnOk, Some, fold, length, max, true};
ghost use Rattle.std.specs.List.{prefix_len};
ghost use Rattle.std.specs.Option.{option_map};
ghost use Rattle.json_bytes.specs.Values.{as_part};
ghost use Rattle.tape_import.specs.Asciicast.{sided};
ghost use Rattle.tape_import.specs.Kept.{IsSize};
ghost use Rattle.tape_import.specs.KeptCast.{IsSized};
ghost use Rattle.tape_import.specs.KeptTlog.{IsSizedWord, continued_len, events_at, shown_progress, shown_stream, step_behind};
ghost use Rattle.tape_import.specs.TlogTiming.{both_counted, characters_len, counted, digits_at, goes_on, items, later, step_at, step_by, two_at, word_behind};

use crate::event::{Event, What};
use crate::facts::{Size, side_of, size_of};
use crate::tlog_stream::Rest;
use json_bytes::count_digits;
use std::alloc::{AllocError, Global};
use std::collections::VecDeque;
use tape_core::limits::LAST_MOMENT;

/// An item of a timing: milliseconds that pass; characters of what was typed or shown; characters of it that are
/// skipped, and bytes that stand for them; a change of size, none where it is badly formed.
#[derive(Clone, Copy)]
pub enum Word {
    Pass(u64),
    Typed(u64),
    Shown(u64),
    TypedBytes(u64, u64),
    ShownBytes(u64, u64),
    Window(Option<Size>),
}

/// How far a timing has come: the moment, in microseconds, and what is left of what was typed and of what was shown.
#[derive(Drop)]
pub struct Progress<'a> {
    pub moment: u64,
    pub typed: Rest<'a>,
    pub shown: Rest<'a>,
}

/// Whether a byte goes on with a character.
fn goes_on(b: u8) -> bool
    ensures { result ≡ goes_on b }
{
    (128..=191).contains(&b)
}

/// The greatest byte of a text, 0 where there is none.
fn greatest(text: &[u8]) -> u8
    ensures { result ≡ fold max 0 text.now }
{
    text.iter().fold(0, |most, b| most.max(*b))
}

/// Whether no byte of a text goes on with a character before it.
#[inline]
#[tactic(auto, using(crate::proofs::TlogLemmas::first_alone, crate::proofs::TlogLemmas::none_alone))]
fn begins_anew(text: &[u8]) -> bool
    ensures { result ≡ true → prefix_len goes_on text.now ≡ 0 }
{
    match text {
        [b, ..] => !goes_on(*b),
        [] => true,
    }
}

/// Whether the first so many bytes of a text are as many characters, since each of them is below 128, and what stands
/// behind them begins another one.
#[inline]
fn are_characters(text: &[u8], count: usize) -> bool
    requires { count ≤ length text.now }
    ensures { result ≡ true → characters_len count text.now ≡ Some count }
{
    let (front, rest) = text.split_at(count);
    if begins_anew(rest) {
        greatest(front) < 128
    } else {
        false
    }
}

/// How many bytes the first so many characters of a text have.
pub fn characters_len(text: &[u8], count: u64) -> Option<usize>
    ensures len { result ≡ characters_len count text.now }
    ensures within { IfSome result (λ len. len ≤ length text.now) }
{
    if count <= text.len() as u64 && are_characters(text, count as usize) {
        return Some(count as usize);
    }
    if count == 0 {
        return Some(0);
    }
    let [_, behind @ ..] = text else {
        return None;
    };
    Some(1 + continued_len(behind, count - 1)?)
}

/// How many bytes at the front go on with the character before them, and with so many characters more.
fn continued_len(text: &[u8], count: u64) -> Option<usize>
    ensures len { result ≡ continued_len count text.now }
    ensures within { IfSome result (λ len. len ≤ length text.now) }
{
    let mut left = count;
    let mut len = 0;
    for b in text {
        if !goes_on(*b) {
            if left == 0 {
                return Some(len);
            }
            left -= 1;
        }
        len += 1;
    }
    if left == 0 { Some(len) } else { None }
}

/// The number that the digits at the front write, one or more, and what stands behind them.
#[tactic(auto, using(crate::proofs::CountLemmas::counted_at))]
fn count_at(text: &[u8]) -> Option<(u64, &[u8])>
    ensures { option_map (λ r. (r.0, r.1.now)) result
        ≡ as_part counted (digits_at text.now) }
{
    let (count, len) = count_digits(text);
    if len == 0 {
        return None;
    }
    Some((count, text.split_at(len).1))
}

/// Two numbers with a byte between, and what stands behind them.
#[tactic(auto, using(crate::proofs::CountLemmas::two_counted))]
fn counts_at(byte: u8, text: &[u8]) -> Option<(u64, u64, &[u8])>
    ensures { option_map (λ r. ((r.0, r.1), r.2.now)) result
        ≡ as_part both_counted (two_at byte text.now) }
{
    let (first, rest) = count_at(text)?;
    if !rest.starts_with(&[byte]) {
        return None;
    }
    let (second, rest) = count_at(&rest[1..])?;
    Some((first, second, rest))
}

/// The size that columns and lines tell with an `x` between, none where there is no such terminal, and what stands
/// behind them.
#[tactic(auto, using(crate::proofs::CountLemmas::two_sided))]
fn size_at(text: &[u8]) -> Option<(Option<Size>, &[u8])>
    ensures size { option_map (λ r. (r.0, r.1.now)) result
        ≡ as_part (λ n. sided (Some n)) (two_at 120 text.now) }
    ensures small { IfSome result (λ r. IfSome r.0 IsSize) }
{
    let (columns, lines, rest) = counts_at(b'x', text)?;
    Some((size_of(side_of(columns), side_of(lines)), rest))
}

/// The item behind its sign, and what stands behind it.
fn word_behind(sign: u8, text: &[u8]) -> Option<(Word, &[u8])>
    ensures word { option_map (λ r. (r.0, r.1.now)) result ≡ word_behind sign text.now }
    ensures small { IfSome result (λ r. IsSizedWord r.0) }
{
    match sign {
        b'+' => {
            let (ms, rest) = count_at(text)?;
            Some((Word::Pass(ms), rest))
        }
        b'<' => {
            let (count, rest) = count_at(text)?;
            Some((Word::Typed(count), rest))
        }
        b'>' => {
            let (count, rest) = count_at(text)?;
            Some((Word::Shown(count), rest))
        }
        b'[' => {
            let (skipped, count, rest) = counts_at(b'/', text)?;
            Some((Word::TypedBytes(skipped, count), rest))
        }
        b']' => {
            let (skipped, count, rest) = counts_at(b'/', text)?;
            Some((Word::ShownBytes(skipped, count), rest))
        }
        b'=' => {
            let (size, rest) = size_at(text)?;
            Some((Word::Window(size), rest))
        }
        _ => None,
    }
}

/// So many milliseconds later.
fn later(moment: u64, ms: u64) -> u64
    ensures { result ≡ later moment ms }
{
    moment
        .saturating_add(ms.saturating_mul(1000))
        .min(LAST_MOMENT)
}

/// Adds what an item tells at a moment, if anything.
fn keep(events: &mut VecDeque<Event>, time: u64, what: Option<What>) -> Result<(), AllocError>
    ensures { OnOk result (events.new.items ≡ events.old.items ++ events_at time what) }
{
    let Some(what) = what else {
        return Ok(());
    };
    events.push_back(Event { time, what })?;
    Ok(())
}

impl<'a> Progress<'a> {
    /// Nothing of a timing has come yet: the moment is told in milliseconds.
    pub fn at_front(pos: u64, typed: Rest<'a>, shown: Rest<'a>) -> Progress<'a>
        ensures { shown_progress result ≡ record { moment = later 0 pos; typed = shown_stream typed.entry; shown = shown_stream shown.entry } }
    {
        Progress {
            moment: later(0, pos),
            typed,
            shown,
        }
    }

    /// What an item tells, if anything, behind which the timing has then come; none where there is less than it takes.
    fn step_by(&mut self, alloc: Global, word: Word) -> Result<Option<Option<What>>, AllocError>
        requires { IsSizedWord word }
        ensures step { IfOk result (λ step. MatchOption step
            (step_by (shown_progress self.old) word ≡ None)
            (λ what. step_by (shown_progress self.old) word ≡ Some (step_behind what self.new))) }
        ensures small { IfOk result (λ step. IfSome step (λ what. IfSome what IsSized)) }
    {
        match word {
            Word::Pass(ms) => {
                self.moment = later(self.moment, ms);
                Ok(Some(None))
            }
            Word::Typed(count) => match self.typed.pass_text(count) {
                Some(()) => Ok(Some(Some(What::Input))),
                None => Ok(None),
            },
            Word::TypedBytes(skipped, count) => match self.typed.pass_bytes(skipped, count) {
                Some(()) => Ok(Some(Some(What::Input))),
                None => Ok(None),
            },
            Word::Shown(count) => match self.shown.take_text(alloc, count)? {
                Some(bytes) => Ok(Some(Some(What::Output(bytes)))),
                None => Ok(None),
            },
            Word::ShownBytes(skipped, count) => {
                match self.shown.take_bytes(alloc, skipped, count)? {
                    Some(bytes) => Ok(Some(Some(What::Output(bytes)))),
                    None => Ok(None),
                }
            }
            Word::Window(size) => Ok(Some(Some(What::Resize(size)))),
        }
    }

    /// What the item behind a sign tells, if anything, and what stands behind it.
    fn step_at<'t>(
        &mut self,
        alloc: Global,
        sign: u8,
        text: &'t [u8],
    ) -> Result<Option<(Option<What>, &'t [u8])>, AllocError>
        ensures step { IfOk result (λ step. MatchOption step
            (step_at (shown_progress self.old) sign text.now ≡ None)
            (λ r. step_at (shown_progress self.old) sign text.now
            ≡ Some (step_behind r.0 self.new, r.1.now))) }
        ensures small { IfOk result (λ step. IfSome step (λ r. IfSome r.0 IsSized)) }
    {
        let Some((word, rest)) = word_behind(sign, text) else {
            return Ok(None);
        };
        match self.step_by(alloc, word)? {
            Some(what) => Ok(Some((what, rest))),
            None => Ok(None),
        }
    }

    /// Adds what a timing tells, and tells whether it is of items alone, and tells of no more than there is.
    pub fn read_story(
        &mut self,
        alloc: Global,
        timing: &[u8],
        events: &mut VecDeque<Event>,
    ) -> Result<bool, AllocError>
        requires { All (λ e. IsSized e.what) events.old.items }
        ensures whole { IfOk result (λ whole. whole
            ≡ (items (length timing.now) (shown_progress self.old) timing.now).whole) }
        ensures events { OnOk result (events.new.items ≡ events.old.items
            ++ (items (length timing.now) (shown_progress self.old) timing.now).events) }
        ensures sized { OnOk result (All (λ e. IsSized e.what) events.new.items) }
    {
        let mut rest = timing;
        for _ in 0..timing.len() {
            let [sign, text @ ..] = rest else {
                return Ok(true);
            };
            let Some((what, behind)) = self.step_at(alloc, *sign, text)? else {
                return Ok(false);
            };
            keep(events, self.moment, what)?;
            rest = behind;
        }
        Ok(rest.is_empty())
    }
}
