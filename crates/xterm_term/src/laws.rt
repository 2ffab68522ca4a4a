//! Laws of the definitions that contracts cite, and of every terminal. Nothing here does anything.
ghost use Rattle.std.specs.Prelude.{ℕ};
ghost use Rattle.xterm_term.specs.Size.{IsSize};
ghost use Rattle.xterm_term.specs.Console.{IsSafe};
ghost use Rattle.xterm_term.specs.Term.{reset_term};
ghost use Rattle.xterm_term.specs.Played.{RowlessDoNothing, RowlessModesStay, RowlessAnsiModesStay, TitleGoesAlone};
ghost use Rattle.xterm_term.specs.Law.{PlaysInParts, SendsInParts, SentIsAppended, SeenDecides, SendsLittle, StaysSafe, SizeStays};

use crate::below::laws_below;

/// Joined texts are played as their parts in turn, wherever the cut is.
#[tactic(auto, using(crate::proofs::Steps::plays_in_parts))]
pub fn plays_in_parts()
    ensures { PlaysInParts }
{}

/// What joined texts send is what their parts send in turn.
#[tactic(auto, using(crate::proofs::Steps::sends_in_parts))]
pub fn sends_in_parts()
    ensures { SendsInParts }
{}

/// What is sent is what playing appends to the reports.
#[tactic(auto, using(crate::proofs::Steps::sent_is_appended))]
pub fn sent_is_appended()
    ensures { SentIsAppended }
{}

/// Terms of which the same is seen step alike and send the same.
pub fn seen_decides()
    ensures { SeenDecides }
{
    laws_below();
}

/// Three times what is sent from a reset term is at most twenty times the bytes.
pub fn sends_little()
    ensures { SendsLittle }
{
    laws_below();
}

/// A reset term is safe, and a safe term stays so whatever bytes are played.
pub fn stays_safe()
    ensures reset { (columns lines : ℕ) → IsSize columns lines
        → IsSafe (reset_term columns lines).console }
    ensures played { StaysSafe }
{
    laws_below();
}

/// Whatever bytes a term takes, its size stays.
pub fn size_stays()
    ensures { SizeStays }
{}

/// Finished sequences and parameters of modes that have no row do nothing.
pub fn rowless_do_nothing()
    ensures commands { RowlessDoNothing }
    ensures modes { RowlessModesStay }
    ensures ansi_modes { RowlessAnsiModesStay }
{}

/// Whether a title is read goes by the commands alone.
pub fn title_goes_alone()
    ensures { TitleGoesAlone }
{}
