//! Laws of the definitions that contracts cite, and of every terminal. Nothing here does anything.
ghost use Rattle.std.specs.Prelude.{◌≡◌, ℕ, ◌<◌, ◌≤◌, true};
ghost use Rattle.vt_screen.specs.Cells.{blank};
ghost use Rattle.vt_screen.specs.Picture.{IsInRegion, cell, right_margin};
ghost use Rattle.vt_term.specs.Law.{PlaysInParts, SendsInParts, SeenDecides, SendsLittle, StaysSafe};
ghost use Rattle.vt_term.specs.Printing.{NothingBrings, PartsBring, CharactersBring, GlyphsAreWritten, ControlsBring, EscapesBring, DesignationsBring, ControlSequencesBring, PrivateSequencesBring};
ghost use Rattle.vt_term.specs.Played.{RowlessDoNothing, RowlessModesStay, RowlessAnsiModesStay, ModeGoesAlone};
ghost use Rattle.vt_term.specs.Console.{IsSafe};
ghost use Rattle.vt_term.specs.declared.profile.Profile.{Profile};
ghost use Rattle.vt_term.specs.Term.{reset_term_as};

use crate::Terminal;
use vt_screen::limits::{LAST_GLYPH, LINES};

/// Joined texts are played as their parts in turn, wherever the cut is.
#[tactic(auto, using(crate::proofs::Steps::plays_in_parts))]
pub fn plays_in_parts()
    ensures { PlaysInParts }
{}

/// What joined texts send is what their parts send in turn.
#[tactic(auto, using(crate::proofs::Steps::sends_in_parts))]
pub fn sends_in_parts()
    ensures { SendsInParts }
{}

/// Terms of which the same is seen step alike and send the same.
pub fn seen_decides()
    ensures { SeenDecides }
{}

/// Three times what is sent from a reset term is at most twenty times the bytes.
#[tactic(auto, using(crate::proofs::Bound::sends_little))]
pub fn sends_little()
    ensures { SendsLittle }
{}

/// A reset term is safe, and a safe term stays so whatever bytes are played.
pub fn stays_safe()
    ensures reset { (profile : Profile) → IsSafe (reset_term_as profile).console }
    ensures played { StaysSafe }
{}

/// What every terminal shows: the cursor is on the screen and within its line's right margin, cells right of that margin
/// are blank, glyphs are at most 126, and while DECOM is set the cursor is inside the margins.
pub fn terminals_are_safe(terminal: &Terminal)
    ensures line { let p = terminal.now.console.picture in (1 ≤ p.line) × (p.line ≤ LINES) }
    ensures column { let p = terminal.now.console.picture in
        (1 ≤ p.column) × (p.column ≤ right_margin p p.line) }
    ensures blank { (line column : ℕ) → right_margin terminal.now.console.picture line < column
        → cell terminal.now.console.picture line column ≡ blank }
    ensures glyphs { (line column : ℕ)
        → (cell terminal.now.console.picture line column).glyph ≤ LAST_GLYPH }
    ensures inside { terminal.now.console.modes.origin ≡ true
        → IsInRegion terminal.now.console.picture }
{
    let _screen = terminal.screen();
}

/// What bytes bring is joined as the bytes are.
#[tactic(auto, using(crate::proofs::Printed::nothing_brings, crate::proofs::Printed::parts_bring))]
pub fn parts_bring()
    ensures none { NothingBrings }
    ensures joined { PartsBring }
{}

/// Graphic characters are put as the run of their glyphs.
#[tactic(auto, using(crate::proofs::Printed::characters_bring))]
pub fn characters_bring()
    ensures { CharactersBring }
{}

/// Outside insert mode they take the place of what stands there.
#[tactic(auto, using(crate::proofs::Runs::glyphs_are_written))]
pub fn glyphs_are_written()
    ensures { GlyphsAreWritten }
{}

/// A control has its effect, and sends nothing.
#[tactic(auto, using(crate::proofs::Printed::controls_bring))]
pub fn controls_bring()
    ensures { ControlsBring }
{}

/// Whole sequences of ANSI mode that have no reply have their effect once, and send nothing.
#[tactic(auto, using(crate::proofs::Printed::escapes_bring, crate::proofs::Printed::designations_bring, crate::proofs::Printed::control_sequences_bring, crate::proofs::Printed::private_sequences_bring))]
pub fn sequences_bring()
    ensures escape { EscapesBring }
    ensures designation { DesignationsBring }
    ensures control { ControlSequencesBring }
    ensures private { PrivateSequencesBring }
{}

/// A finished sequence that has no row does nothing and isn't replied to; a parameter of `h` and `l` without a row sets
/// nothing.
#[tactic(auto, using(crate::proofs::Rowless::rowless_modes_stay, crate::proofs::Rowless::rowless_ansi_modes_stay))]
pub fn rowless_do_nothing()
    ensures commands { RowlessDoNothing }
    ensures modes { RowlessModesStay }
    ensures ansi_modes { RowlessAnsiModesStay }
{}

/// The mode that a command leaves goes by the mode before it, and by nothing else of a terminal.
#[tactic(auto, using(crate::proofs::Rowless::mode_goes_alone))]
pub fn mode_goes_alone()
    ensures { ModeGoesAlone }
{}
