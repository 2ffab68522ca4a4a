//! Laws over the definitions alone, as functions with empty bodies.

ghost use Rattle.tape_jobs.specs.Player.{NowhereMeansNowhere};
ghost use Rattle.tape_jobs.specs.Endings.{NothingIsNowhere, Readers, RunEnds, Writers};
ghost use Rattle.tape_jobs.specs.Unseen.{CutsAreUnseen, ExcerptsAreUnseen};
ghost use Rattle.command_line.specs.declared.job.Job.{Job};
ghost use Rattle.tape_jobs.specs.declared.job.Outcome.{Outcome};

use screen_state::VtState;
use std::io::{Read, Write};
use xterm_state::TodayState;

/// Where no line of a text is written, of whichever terminal, it stands nowhere: not at the moment `from`, and not after
/// any byte of a chunk that is asked for.
pub fn nowhere_means_nowhere()
    ensures { NowhereMeansNowhere }
{
    screen_print::laws::nowhere_means_nowhere();
    xterm_print::laws::nowhere_means_nowhere();
}

/// Nowhere means nowhere: where a search is done with status 1, its text stands nowhere on the screen, neither at the moment
/// `from` nor after any byte of a chunk that is asked for.
pub fn nothing_found_is_nowhere<S: Read, T: Read, R: Read, O: Write, P: Write>()
    ensures { (readers : Readers S T R) (writers : Writers O P) (job : Job) (outcome : Outcome)
        → RunEnds readers writers job outcome → NothingIsNowhere readers job outcome }
{
    nowhere_means_nowhere();
}

/// A cut doesn't show, of whichever terminal plays the recording: what the job makes of it shows before `from` what was due
/// then, and from `from` on what was seen so much later.
pub fn a_cut_is_unseen()
    ensures { CutsAreUnseen }
{
    tape_cut::laws::a_cut_is_unseen::<vt_term::Terminal, VtState>();
    tape_cut::laws::a_cut_is_unseen::<xterm_term::Terminal, TodayState>();
}

/// Nor does an excerpt: what the job makes shows at each moment what was seen so much later, up to its end.
pub fn an_excerpt_is_unseen()
    ensures { ExcerptsAreUnseen }
{
    tape_cut::laws::an_excerpt_is_unseen::<vt_term::Terminal, VtState>();
    tape_cut::laws::an_excerpt_is_unseen::<xterm_term::Terminal, TodayState>();
}
