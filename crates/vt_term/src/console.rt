//! A terminal without its parser: the screen, the modes, the sets and what else commands change. `obey` is the top: from a
//! token to the table that its control or sequence stands in.
ghost use Rattle.std.specs.Prelude.{◌≡◌, ◌≤◌, All, List, OnOk, OnErr, IsOk, map, length, take};
ghost use Rattle.vt_term.specs.Sets.{glyph_of, set_in_use};
ghost use Rattle.vt_term.specs.Console.{IsSafe, reset_console, console_of};
ghost use Rattle.vt_term.specs.Effect.{glyph_shown, glyphs_shown, glyphs_written, glyph_for, token_effect, token_reply, IsProperToken};
ghost use Rattle.plays.specs.Sink.{after_sending, HasRoom};
ghost use Rattle.vt_screen.specs.Touched.{KeepsTold, Told};
ghost use Rattle.vt_screen.specs.declared.cell.Row.{Row};

use crate::sets::CHECKERBOARD;
use crate::{CharacterSet, Modes, OutOfMemory, Profile, Reports, Saved, Sets};
use vt_parser::Token;
use vt_screen::limits::{LAST_GLYPH, WIDE_COLUMNS};
use vt_screen::{Rendition, Screen};

// How many glyphs go to the screen at once, where bytes aren't glyphs as they stand: a line's.
const PIECE: usize = WIDE_COLUMNS as usize;

/// The state that effects change.
#[derive(Debug, Drop)]
pub(crate) struct Console {
    pub(crate) profile: Profile,
    pub(crate) screen: Screen,
    pub(crate) modes: Modes,
    pub(crate) rendition: Rendition,
    pub(crate) sets: Sets,
    pub(crate) saved: Option<Saved>,
    pub(crate) leds: [bool; 4],
}

impl Console {
    /// The initial state of a profile.
    pub(crate) fn reset(profile: Profile) -> Self
        ensures done { console_of result ≡ reset_console profile }
        ensures told { (before : List Row) → Told before result.screen }
    {
        Console {
            profile,
            screen: Screen::reset(),
            modes: Modes::first(),
            rendition: Rendition::plain(),
            sets: Sets::first(),
            saved: None,
            leds: [false; 4],
        }
    }

    pub(crate) fn copy_from(&mut self, other: &Console)
        ensures done { console_of self.new ≡ console_of other.now }
        ensures touched { self.new.screen.touched ≡ other.now.screen.touched }
    {
        self.profile = other.profile;
        self.screen.copy_from(&other.screen);
        self.modes = other.modes;
        self.rendition = other.rendition;
        self.sets = other.sets;
        self.saved = other.saved;
        self.leds = other.leds;
    }

    /// Obeys a token: sends the reply to it, and does what it asks for. A refused growth changes nothing.
    // Inlined always, with what comes most often below it: the terminal's loop takes a third longer where it calls this.
    #[inline(always)]
    #[tactic(auto, unfolding(crate::specs::Effect::effect, crate::specs::Effect::reply))]
    pub(crate) fn obey(&mut self, token: Token, sink: &mut Reports) -> Result<(), OutOfMemory>
        requires proper { IsProperToken token }
        requires safe { IsSafe (console_of self.old) }
        ensures done { OnOk result
            (console_of self.new ≡ token_effect token.entry (console_of self.old)) }
        ensures sent { OnOk result
            (sink.new ≡ after_sending sink.old (token_reply token.entry (console_of self.old))) }
        ensures err { OnErr result (console_of self.new ≡ console_of self.old) }
        ensures err_sink { OnErr result (sink.new ≡ sink.old) }
        ensures room { HasRoom sink.old (token_reply token.entry (console_of self.old))
            → IsOk result }
        ensures told { KeepsTold self.old.screen self.new.screen }
    {
        match token {
            Token::Show(run) => self.show_bytes(run),
            Token::Error => self.show_error(),
            Token::Control(byte) => self.control(byte),
            Token::Esc { inter, last } => return self.obey_escape(inter, last, sink),
            Token::Csi {
                private: true,
                params,
                last,
            } => self.obey_private_sequence(last, params),
            Token::Csi {
                private: false,
                params,
                last,
            } => return self.obey_plain_sequence(last, params, sink),
            Token::Vt52(last) => return self.obey_vt52(last, sink),
            Token::Vt52Address { line, column } => self.go_to_address(line, column),
        }
        Ok(())
    }

    #[inline]
    fn set_in_use(&self) -> CharacterSet
        ensures { result ≡ set_in_use self.now.modes.mode self.now.sets }
    {
        self.sets.in_use(self.modes.mode)
    }

    /// Shows a glyph with the current rendition.
    #[inline(never)]
    fn show_glyph(&mut self, glyph: u8)
        requires { glyph ≤ LAST_GLYPH }
        ensures done { console_of self.new ≡ glyph_shown glyph (console_of self.old) }
        ensures told { KeepsTold self.old.screen self.new.screen }
    {
        if self.modes.insert {
            self.screen
                .show_inserting(glyph, self.rendition, self.modes.autowrap);
        } else {
            self.screen.show(glyph, self.rendition, self.modes.autowrap);
        }
    }

    /// Shows the error character.
    pub(crate) fn show_error(&mut self)
        ensures done { console_of self.new ≡ glyph_shown CHECKERBOARD (console_of self.old) }
        ensures told { KeepsTold self.old.screen self.new.screen }
    {
        self.show_glyph(CHECKERBOARD);
    }

    /// Shows the glyphs of a run of bytes.
    #[inline(always)]
    pub(crate) fn show_bytes(&mut self, bytes: &[u8])
        requires { All (λ byte. byte ≤ LAST_GLYPH) bytes.now }
        ensures done { console_of self.new
            ≡ glyphs_shown (map (glyph_for (console_of self.old)) bytes.now) (console_of self.old) }
        ensures told { KeepsTold self.old.screen self.new.screen }
    {
        if self.modes.insert {
            self.insert_glyphs(self.set_in_use(), bytes);
        } else {
            self.write_bytes(bytes);
        }
    }

    // In insert mode a run's glyphs are shown one by one.
    fn insert_glyphs(&mut self, set: CharacterSet, bytes: &[u8])
        requires { All (λ byte. byte ≤ LAST_GLYPH) bytes.now }
        ensures done { console_of self.new
            ≡ glyphs_shown (map (glyph_of set) bytes.now) (console_of self.old) }
        ensures told { KeepsTold self.old.screen self.new.screen }
    {
        for &byte in bytes {
            self.show_glyph(set.glyph(byte));
        }
    }

    // Outside it they are written over those that stand there.
    #[inline(always)]
    fn write_bytes(&mut self, bytes: &[u8])
        requires { All (λ byte. byte ≤ LAST_GLYPH) bytes.now }
        ensures done { console_of self.new
            ≡ glyphs_written (map (glyph_for (console_of self.old)) bytes.now)
            (console_of self.old) }
        ensures told { KeepsTold self.old.screen self.new.screen }
    {
        match self.set_in_use() {
            CharacterSet::Ascii => self
                .screen
                .show_run(bytes, self.rendition, self.modes.autowrap),
            set => self.write_glyphs(set, bytes),
        }
    }

    // Writes the glyphs that a run of bytes has in a set, a line's at a time.
    #[inline(never)]
    fn write_glyphs(&mut self, set: CharacterSet, bytes: &[u8])
        requires { All (λ byte. byte ≤ LAST_GLYPH) bytes.now }
        ensures done { console_of self.new
            ≡ glyphs_written (map (glyph_of set) bytes.now) (console_of self.old) }
        ensures told { KeepsTold self.old.screen self.new.screen }
    {
        let mut rest = bytes;
        while !rest.is_empty() {
            let (piece, more) = rest.split_at(rest.len().min(PIECE));
            self.write_piece(set, piece);
            rest = more;
        }
    }

    fn write_piece(&mut self, set: CharacterSet, bytes: &[u8])
        requires short { length bytes.now ≤ PIECE }
        requires graphic { All (λ byte. byte ≤ LAST_GLYPH) bytes.now }
        ensures done { console_of self.new
            ≡ glyphs_written (map (glyph_of set) bytes.now) (console_of self.old) }
        ensures told { KeepsTold self.old.screen self.new.screen }
    {
        let mut glyphs = [0; PIECE];
        fill_glyphs(set, bytes, &mut glyphs);
        self.screen.show_run(&glyphs[..bytes.len()], self.rendition, self.modes.autowrap);
    }
}

// The glyphs of bytes in a set, at the head of an array.
fn fill_glyphs(set: CharacterSet, bytes: &[u8], glyphs: &mut [u8; PIECE])
    requires { length bytes.now ≤ PIECE }
    ensures len { length glyphs.new ≡ PIECE }
    ensures front { take (length bytes.now) glyphs.new ≡ map (glyph_of set) bytes.now }
{
    for (i, byte) in bytes.iter().enumerate() {
        glyphs[i] = set.glyph(*byte);
    }
}
