//! Laws over the definitions alone, as functions with empty bodies.

ghost use Rattle.xterm_state.specs.Remade.{MakesAnyThis, StateTextIsShort};

use characters::laws::widths_are_small;
use vt_parser::laws::{commands_are_proper, decimals_are_read, graphic_is_shown};
use xterm_term::laws::stays_safe;

/// The state text of a terminal that bytes made of a reset one, played on any terminal of its size, whatever is pending
/// there, gives all that is seen of it, and sends nothing.
pub fn state_text_makes_any_this()
    ensures { MakesAnyThis }
{
    widths_are_small();
    commands_are_proper();
    decimals_are_read();
    graphic_is_shown();
    stays_safe();
}

/// It is at most as long as the escaped prints of both sheets, 16 bytes for each tab stop, and 2,048.
pub fn state_text_is_short()
    ensures { StateTextIsShort }
{
    widths_are_small();
    commands_are_proper();
    decimals_are_read();
    graphic_is_shown();
    stays_safe();
}
