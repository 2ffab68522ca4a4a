//! Laws over the definitions alone, as functions with empty bodies.

ghost use Rattle.std.specs.Prelude.{ℕ, List};
ghost use Rattle.tape_redact.specs.Law.{HidesAll, LinesStay, NoneIsLeft, ReadsAlike, TimesStay, WrittenAnew};

/// Each byte of an occurrence is hidden, and no other byte changes.
pub fn redacting_hides_all()
    ensures { (text bytes : List ℕ) → HidesAll text bytes }
{}

/// Of a text that has a byte, and no `*`, no occurrence is left, and none is made.
pub fn none_is_left()
    ensures { NoneIsLeft }
{}

/// A text without LF leaves every LF where it is, and brings none.
pub fn lines_stay()
    ensures { LinesStay }
{}

/// A script of the same length, with LF at the same places, is read as the same recording with other bytes,
/// or has the same fault.
pub fn scripts_read_alike()
    ensures { ReadsAlike }
{}

/// It has the same delays and counts.
pub fn times_stay()
    ensures { TimesStay }
{}

/// Written, a recording whose bytes are cut from another script is that script, with the timing of before.
pub fn what_is_cut_anew_is_written()
    ensures { WrittenAnew }
{}
