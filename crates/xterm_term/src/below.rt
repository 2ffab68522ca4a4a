//! What the laws of the parser and of the screen come to for a terminal. Nothing here does anything.
ghost use Rattle.xterm_term.specs.Law.{CommandsKeepSafe, ModesKeepSafe, SheetsKeepSafe, PutsKeepSafe, LawsBelow};

use vt_parser::laws::{
    commands_are_proper, finished_leaves_nothing, graphic_is_shown, ground_is_empty, pending_pays,
    state_decides, stays_shown,
};
use xterm_screen::laws::{
    changes_keep_sound, cursors_stay_inside, moves_keep_sound, origin_goes_inside, reset_is_sound,
    shows_keep_sound, writes_stay_inside,
};

/// Every character, every command and every mode keeps a terminal safe.
pub(crate) fn commands_keep_safe()
    ensures puts { PutsKeepSafe }
    ensures modes { ModesKeepSafe }
    ensures sheets { SheetsKeepSafe }
    ensures commands { CommandsKeepSafe }
{
    reset_is_sound();
    moves_keep_sound();
    shows_keep_sound();
    changes_keep_sound();
    origin_goes_inside();
    cursors_stay_inside();
    writes_stay_inside();
}

/// The laws of the parser, and what those of the screen come to.
#[inline]
pub(crate) fn laws_below()
    ensures { LawsBelow }
{
    state_decides();
    stays_shown();
    ground_is_empty();
    finished_leaves_nothing();
    pending_pays();
    graphic_is_shown();
    commands_are_proper();
    reset_is_sound();
    commands_keep_safe();
}
