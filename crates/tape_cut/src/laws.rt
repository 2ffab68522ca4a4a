//! Laws over the definitions alone. Nothing here does anything.
ghost use Rattle.std.specs.Prelude.{◌<◌, ℕ, Option};
ghost use Rattle.tape_core.specs.Due.{due};
ghost use Rattle.tape_core.specs.Tape.{Tape};
ghost use Rattle.tape_seek.specs.Edits.{edited_all};
ghost use Rattle.tape_cut.specs.CutEdits.{cut_edits, excerpt_edits};
ghost use Rattle.tape_cut.specs.Law.{CutIsMade, CutIsUnseen, CutKeepsTheRest, ExcerptIsMade, ExcerptIsUnseen, ExcerptKeepsTheRest, NothingIsCut, OnlyLimitsRefuse, OnlyLimitsRefuseAnExcerpt};

use crate::states::StateText;
use plays::Plays;

/// The edits of a cut, and of an excerpt, make the recordings that these are by their moments.
pub fn edits_make_them()
    ensures cut { CutIsMade }
    ensures none { NothingIsCut }
    ensures excerpt { ExcerptIsMade }
{}

/// The chunks that stay have their bytes, and header and trailer stay too.
pub fn the_rest_stays()
    ensures cut { CutKeepsTheRest }
    ensures excerpt { ExcerptKeepsTheRest }
{}

/// Of a recording that fits, their edits have no fault but that there are too many chunks or bytes, where the text that comes
/// in has a byte.
pub fn only_limits_refuse()
    ensures cut { OnlyLimitsRefuse }
    ensures excerpt { OnlyLimitsRefuseAnExcerpt }
{}

/// A cut doesn't show where the text that comes in is the state of the terminal at its end: before its beginning the
/// same is due, and from then on the same is seen as so much later in the old recording. Sent is what the chunks that
/// stay send.
pub fn a_cut_is_unseen<T: Plays, S: StateText<T>>()
    ensures { (profile : T.Profile) (from to : ℕ) (tape : Tape) → from < to
        → CutIsUnseen T.Plays profile from to tape
        (edited_all tape (cut_edits from to (S.text profile (due tape.chunks to)) tape)) }
{
    T::laws();
    S::makes_any_this();
}

/// Nor does an excerpt, where the text is the state at its beginning.
pub fn an_excerpt_is_unseen<T: Plays, S: StateText<T>>()
    ensures { (profile : T.Profile) (from : ℕ) (to : Option ℕ) (tape : Tape)
        → ExcerptIsUnseen T.Plays profile from to tape
        (edited_all tape (excerpt_edits from to (S.text profile (due tape.chunks from)) tape)) }
{
    T::laws();
    S::makes_any_this();
}
