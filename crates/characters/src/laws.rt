//! Laws of the definitions that contracts cite. Nothing here does anything.
ghost use Rattle.characters.specs.Law.{DecodesInParts, AsciiIsNarrow, NoneIsWider};

/// Joined texts are decoded as their parts in turn.
pub fn decodes_in_parts()
    ensures { DecodesInParts }
{}

/// ASCII takes a column each, and no character more than two.
pub fn widths_are_small()
    ensures ascii { AsciiIsNarrow }
    ensures most { NoneIsWider }
{}
