//! A caller of sessions that knows nothing of its terminal but that it plays.
ghost use Rattle.std.specs.Prelude.{◌≡◌, ◌∷◌, [], ◌++◌, IfOk, OnOk};
ghost use Rattle.tape_core.specs.Due.{due};
ghost use Rattle.tape_core.specs.Tape.{Tape};
ghost use Rattle.tape_seek.specs.Edits.{edited, edited_all};
ghost use Rattle.tape_seek.specs.Played.{TellsBytes};
ghost use Rattle.tape_seek.specs.State.{accepted};

use plays::Plays;
use tape_seek::{Edit, EditFault, Session, View};

/// Makes an edit, or tells why it is refused.
fn applied<T: Plays>(session: &mut Session<T>, edit: Edit) -> Result<(), EditFault>
    ensures { OnOk result (session.new ≡ accepted edit session.old) }
{
    match session.apply(edit) {
        Ok(()) => Ok(()),
        Err(refused) => Err(refused.fault),
    }
}

/// Makes two edits, and goes to a moment.
pub fn after_two_edits<T: Plays>(
    session: &mut Session<T>,
    first: Edit,
    second: Edit,
    moment: u64,
) -> Result<View<'_, T>, EditFault>
    // Whatever the terminal is: what it shows and has sent is the replay of the recording with both edits.
    ensures replay { IfOk result (λ view.
        TellsBytes T.Plays session.old.profile view.terminal.now view.reports.now
        (due (edited (edited session.old.recording first) second).chunks moment)) }
    // So it is of the recording that the session was opened with.
    ensures headline { (o : Tape) → session.old.recording ≡ edited_all o session.old.log
        → IfOk result (λ view.
        TellsBytes T.Plays session.old.profile view.terminal.now view.reports.now
        (due (edited_all o (session.old.log ++ first ∷ second ∷ [])).chunks moment)) }
{
    applied(session, first)?;
    applied(session, second)?;
    match session.play_to(moment) {
        Ok(view) => Ok(view),
        Err(_) => Err(EditFault::OutOfMemory),
    }
}
