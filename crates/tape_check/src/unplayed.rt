//! Unplayed sequences: how each is written, and how often it comes.
ghost use Rattle.std.specs.Prelude.{◌≡◌, ◌+◌, ◌≤◌, ◌++◌, [], OnOk, Some, fold, length};
ghost use Rattle.std.specs.List.{flat_map};
ghost use Rattle.arrayvec.specs.ArrayVec.{array_vec_len};
ghost use Rattle.vt_parser.specs.Token.{command_of_token};
ghost use Rattle.tape_check.specs.Unplayed.{command_names, control_head, escape_has_row, escape_name, escape_names, formless_name, formless_names, head_text, is_switch, mode_has_row, mode_name, mode_names, sequence_has_row, sequence_names, vt52_names};
ghost use Rattle.tape_check.specs.Scan.{counted};
ghost use Rattle.tape_check.specs.Counting.{entries_of};

use crate::played::PlayedAs;
use crate::quiet::{is_quiet_escape, is_quiet_mode, is_quiet_sequence, is_quiet_vt52};
use arrayvec::ArrayVec;
use itoa::Buffer;
use std::alloc::{AllocError, Global};
use std::collections::BTreeMap;
use vt_parser::{Formless, Token};
use vt_term::played as vt;
use xterm_term::played as today;

/// The most bytes that a name takes: a head, five digits, a space and the final byte.
const LONGEST_NAME: usize = 16;

/// The name of an unplayed sequence.
pub(crate) type Name = ArrayVec<u8, LONGEST_NAME>;

// ---- names

/// What a name begins with.
#[derive(Clone, Copy)]
pub enum Head {
    Escape,
    LongEscape,
    Control,
    PrivateControl,
    IllFormed,
}

impl Head {
    #[tactic(auto, unfolding(crate::specs::Unplayed::head_text))]
    fn text(self) -> &'static [u8]
        ensures text { result.now ≡ head_text self }
        ensures short { length result.now ≤ 9 }
    {
        match self {
            Head::Escape => b"ESC ",
            Head::LongEscape => b"ESC .. ",
            Head::Control => b"ESC [ ",
            Head::PrivateControl => b"ESC [ ? ",
            Head::IllFormed => b"ESC [ .. ",
        }
    }
}

fn append(name: &mut Name, bytes: &[u8])
    requires { array_vec_len name.old + length bytes.now ≤ LONGEST_NAME }
    ensures items { name.new.items ≡ name.old.items ++ bytes.now }
    ensures len { array_vec_len name.new ≡ array_vec_len name.old + length bytes.now }
{
    let _fits = name.try_extend_from_slice(bytes);
}

// A head and a few bytes.
fn name_of(head: Head, rest: &[u8]) -> Name
    requires { length rest.now ≤ 7 }
    ensures { result.items ≡ head_text head ++ rest.now }
{
    let mut name = Name::new();
    append(&mut name, head.text());
    append(&mut name, rest);
    name
}

fn escape_name(inter: Option<u8>, last: u8) -> Name
    ensures { result.items ≡ escape_name inter last }
{
    match inter {
        None => name_of(Head::Escape, &[last]),
        Some(inter) => name_of(Head::Escape, &[inter, b' ', last]),
    }
}

fn control_head(private: bool) -> Head
    ensures { result ≡ control_head private }
{
    if private {
        Head::PrivateControl
    } else {
        Head::Control
    }
}

fn mode_name(private: bool, last: u8, param: u16) -> Name
    ensures { result.items ≡ mode_name private last param }
{
    let mut name = Name::new();
    append(&mut name, control_head(private).text());
    append(&mut name, Buffer::new().format(param).as_bytes());
    append(&mut name, &[b' ', last]);
    name
}

fn formless_name(form: Formless) -> Name
    ensures { result.items ≡ formless_name form }
{
    match form {
        Formless::Escape(last) => name_of(Head::LongEscape, &[last]),
        Formless::ControlSequence(last) => name_of(Head::IllFormed, &[last]),
    }
}

// ---- what has a row

fn escape_has_row(played: PlayedAs, inter: Option<u8>, last: u8) -> bool
    ensures { result ≡ escape_has_row played inter last }
{
    match played {
        PlayedAs::Vt(_) => vt::escape_has_row(inter, last),
        PlayedAs::Today { .. } => today::escape_has_row(inter, last),
    }
}

fn sequence_has_row(played: PlayedAs, private: bool, last: u8) -> bool
    ensures { result ≡ sequence_has_row played private last }
{
    match played {
        PlayedAs::Vt(profile) => vt::sequence_has_row(profile, private, last),
        PlayedAs::Today { .. } => today::sequence_has_row(private, last),
    }
}

fn mode_has_row(played: PlayedAs, private: bool, param: u16) -> bool
    ensures { result ≡ mode_has_row played private param }
{
    match played {
        PlayedAs::Vt(profile) => vt::mode_has_row(profile, private, param),
        PlayedAs::Today { .. } => today::mode_has_row(private, param),
    }
}

fn is_switch(last: u8) -> bool
    ensures { result ≡ is_switch last }
{
    matches!(last, b'h' | b'l')
}

// ---- counts

/// How often each unplayed sequence came, in byte order.
#[derive(Drop)]
pub(crate) struct Counts {
    pub(crate) entries: BTreeMap<Name, u64>,
}

impl Counts {
    /// Nothing was counted yet.
    pub(crate) fn new(alloc: Global) -> Counts
        ensures { entries_of result ≡ [] }
    {
        Counts {
            entries: BTreeMap::new(alloc),
        }
    }

    // Counts a name once more.
    fn count(&mut self, name: Name) -> Result<(), AllocError>
        ensures { OnOk result (entries_of self.new ≡ counted (entries_of self.old) name.items) }
    {
        let count = self.entries.get(&name).copied().unwrap_or(0);
        let Some(more) = count.checked_add(1) else {
            return Err(AllocError);
        };
        self.entries.insert(name, more)?;
        Ok(())
    }

    /// Counts a sequence that has no command.
    pub(crate) fn count_formless(&mut self, form: Option<Formless>) -> Result<(), AllocError>
        ensures { OnOk result
            (entries_of self.new ≡ fold counted (entries_of self.old) (formless_names form)) }
    {
        match form {
            None => Ok(()),
            Some(form) => self.count(formless_name(form)),
        }
    }

    /// Counts what is unplayed of a token.
    // Inlined always: most tokens are nothing here, and would else be written to memory for the call.
    #[inline(always)]
    pub(crate) fn count_token(&mut self, played: PlayedAs, token: &Token) -> Result<(), AllocError>
        ensures { OnOk result
            (entries_of self.new ≡ fold counted (entries_of self.old)
            (command_names played (Some (command_of_token token.now)))) }
    {
        match token {
            Token::Esc { inter, last } => self.count_escape(played, *inter, *last),
            Token::Csi {
                private,
                params,
                last,
            } => self.count_sequence(played, *private, params, *last),
            Token::Vt52(last) => self.count_vt52(*last),
            _ => Ok(()),
        }
    }

    fn count_escape(
        &mut self,
        played: PlayedAs,
        inter: Option<u8>,
        last: u8,
    ) -> Result<(), AllocError>
        ensures { OnOk result
            (entries_of self.new ≡ fold counted (entries_of self.old) (escape_names played inter last)) }
    {
        if escape_has_row(played, inter, last) || is_quiet_escape(played, inter, last) {
            return Ok(());
        }
        self.count(escape_name(inter, last))
    }

    fn count_vt52(&mut self, last: u8) -> Result<(), AllocError>
        ensures { OnOk result
            (entries_of self.new ≡ fold counted (entries_of self.old) (vt52_names last)) }
    {
        if vt::vt52_has_row(last) || is_quiet_vt52(last) {
            return Ok(());
        }
        self.count(escape_name(None, last))
    }

    fn count_sequence(
        &mut self,
        played: PlayedAs,
        private: bool,
        params: &[u16],
        last: u8,
    ) -> Result<(), AllocError>
        ensures { OnOk result
            (entries_of self.new ≡ fold counted (entries_of self.old)
            (sequence_names played private params.now last)) }
    {
        if is_switch(last) {
            return self.count_modes(played, private, params, last);
        }
        if sequence_has_row(played, private, last) || is_quiet_sequence(played, private, last) {
            return Ok(());
        }
        self.count(name_of(control_head(private), &[last]))
    }

    fn count_modes(
        &mut self,
        played: PlayedAs,
        private: bool,
        params: &[u16],
        last: u8,
    ) -> Result<(), AllocError>
        ensures { OnOk result
            (entries_of self.new ≡ fold counted (entries_of self.old)
            (flat_map (mode_names played private last) params.now)) }
    {
        for param in params {
            self.count_mode(played, private, *param, last)?;
        }
        Ok(())
    }

    fn count_mode(
        &mut self,
        played: PlayedAs,
        private: bool,
        param: u16,
        last: u8,
    ) -> Result<(), AllocError>
        ensures { OnOk result
            (entries_of self.new ≡ fold counted (entries_of self.old)
            (mode_names played private last param)) }
    {
        if mode_has_row(played, private, param) || is_quiet_mode(played, private, param) {
            return Ok(());
        }
        self.count(mode_name(private, last, param))
    }
}
