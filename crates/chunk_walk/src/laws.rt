//! What a walk leaves of its writer, as a function with an empty body.
ghost use Rattle.std.specs.Prelude.{◌≡◌, ◌++◌, List, false, ℕ};
ghost use Rattle.tape_core.specs.declared.devices.Watched.{Watched};
ghost use Rattle.tape_core.specs.Devices.{Gave, TookPart};
ghost use Rattle.chunk_walk.specs.Stops.{StopsSound};

use std::io::Write;

/// What a walk leaves of a writer where memory was refused, behind one text and before another.
pub fn walks_end_sound<W: Write>()
    ensures alone { (a b : Watched W) (text : List ℕ)
        → StopsSound W.contents a b text → TookPart W.contents a b text false }
    ensures between { (a b c : Watched W) (text x y z : List ℕ) → text ≡ x ++ y ++ z
        → StopsSound W.contents b c y → Gave W.contents a b x → TookPart W.contents a c text false }
{}
