//! How a terminal is written as a text that makes any terminal of its setup one like it.
ghost use Rattle.std.specs.Prelude.{◌≡◌, ◌≤◌, List, ℕ, length, false, IsOk};
ghost use Rattle.tape_core.specs.Devices.{Puts, has_failed};

use plays::{OutOfMemory, Plays};
use std::io::Write;
use tape_core::{Fault, Watched};
use tape_seek::Session;

/// What writes the state of a terminal.
pub trait StateText<T: Plays> {
    ghost use Rattle.tape_seek.specs.State.{Leaves};
    ghost use Rattle.tape_cut.specs.States.{MakesAnyThis};

    /// The text of the terminal that the reset one of the profile comes to by these bytes.
    ghost text: { T.Profile → List ℕ → List ℕ };

    /// Goes to a count of chunks, by the function that the terminal's crate has for it: so what feeds is compiled once.
    fn go_to(session: &mut Session<T>, count: usize) -> Result<(), OutOfMemory>
        requires { count ≤ length session.old.recording.chunks }
        ensures state { Leaves result count session.old session.new }
        ensures room { count ≤ session.old.marks.frontier → IsOk result };

    /// Writes the text of a terminal. After a write fault a beginning of it has gone out.
    fn put<W: Write>(terminal: &T, writer: &mut Watched<W>) -> Result<(), Fault>
        requires { has_failed writer.old ≡ false }
        ensures { (profile : T.Profile) (bytes : List ℕ) → T.shows profile terminal.now bytes
            → Puts W.contents writer.old writer.new (text profile bytes) result };

    /// The text makes any terminal one like it. Nothing is done.
    fn makes_any_this()
        ensures { MakesAnyThis T.Plays text };
}
