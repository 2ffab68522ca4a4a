//! What holds of every step, for the layers above. Each function's contract is the law, and its body is empty.
ghost use Rattle.vt_parser.specs.Law.{StateDecides, StaysShown, GroundIsEmpty, FinishedLeavesNothing, PendingPays, GraphicIsShown, ControlIsGiven, CommandsAreProper, DecimalsAreRead, WrittenSequencesFinish, WrittenPrivatesFinish};

/// Pending bytes that show one state give one command after any byte, and show one state again.
pub fn state_decides()
    ensures { StateDecides }
{}

/// What is pending after a byte is shown by a state again.
pub fn stays_shown()
    ensures { StaysShown }
{}

/// Nothing pending is Ground in each mode, and only nothing is.
#[tactic(auto, using(crate::proofs::Agrees::ground_is_empty))]
pub fn ground_is_empty()
    ensures { GroundIsEmpty }
{}

/// A finished sequence leaves nothing pending, so that its effect may change the mode.
#[tactic(auto, using(crate::proofs::LawLemmas::finished_leaves_nothing))]
pub fn finished_leaves_nothing()
    ensures { FinishedLeavesNothing }
{}

/// The bytes that a command takes at least are paid by its byte and by what was pending.
#[tactic(auto, using(crate::proofs::LawLemmas::pending_pays))]
pub fn pending_pays()
    ensures { PendingPays }
{}

/// On ground a graphic character is shown, and the parser stays on ground.
pub fn graphic_is_shown()
    ensures { GraphicIsShown }
{}

/// On ground the controls from BS to SI are commands, and the parser stays on ground.
pub fn control_is_given()
    ensures { ControlIsGiven }
{}

/// The numbers of every command are in their ranges.
#[tactic(auto, using(crate::proofs::LawLemmas::commands_are_proper))]
pub fn commands_are_proper()
    ensures { CommandsAreProper }
{}

/// Numbers that are written in decimal are the parameters that are read.
pub fn decimals_are_read()
    ensures params { DecimalsAreRead }
    ensures control { WrittenSequencesFinish }
    ensures private { WrittenPrivatesFinish }
{}
