//! Laws of the definitions that contracts cite. Nothing here does anything.
ghost use Rattle.std.specs.Prelude.{◌≡◌};
ghost use Rattle.std.specs.List.{flat_map};
ghost use Rattle.tape_core.specs.Tape.{Tape, body};
ghost use Rattle.output_cast.specs.Events.{characters_of, events};

/// The texts of the events joined are the body as characters, whatever chunks cut it.
pub fn texts_join()
    ensures { (tape : Tape) → flat_map (λ event. event.text) (events tape)
        ≡ characters_of (body tape.chunks) }
{}
