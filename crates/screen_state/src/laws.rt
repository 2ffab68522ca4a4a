//! Laws over the definitions alone, as functions with empty bodies.

ghost use Rattle.screen_state.specs.Remade.{MakesAnyThis, StateTextIsShort};

/// The state text of a terminal that bytes made of a reset one, played on any terminal of its profile, whatever is
/// pending there, gives all that is seen of it, and sends nothing.
pub fn state_text_makes_any_this()
    ensures { MakesAnyThis }
{}

/// It is at most as long as the escaped print, 16 bytes for each tab stop, and 2,048.
pub fn state_text_is_short()
    ensures { StateTextIsShort }
{}
