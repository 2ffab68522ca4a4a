//! The terminal plays, as every terminal does.
ghost use Rattle.std.specs.Prelude.{◌≡◌};

use crate::laws::{plays_in_parts, sent_is_appended, size_stays};
use crate::{OutOfMemory, PackedTerminal, Reports, Size, Terminal};
use plays::Plays;
use std::alloc::{AllocError, Global};

impl Plays for Terminal {
    type Profile = Size;

    type Packed = PackedTerminal;

    ghost use Rattle.xterm_term.specs.Seen.{Shows, Tells};
    ghost use Rattle.xterm_term.specs.Term.{play, reset_term, sent as sent_from};

    ghost shows = { λ size terminal bytes.
        Shows terminal (play (reset_term size.columns size.lines) bytes) };

    ghost keeps = { λ size packed bytes.
        Shows packed (play (reset_term size.columns size.lines) bytes) };

    ghost told = { λ size terminal bytes.
        Tells (play (reset_term size.columns size.lines) bytes).console.picture.rows terminal };

    ghost fits = { λ size terminal. (terminal.console.picture.columns ≡ size.columns)
        × (terminal.console.picture.lines ≡ size.lines) };

    ghost sent = { λ size bytes. (play (reset_term size.columns size.lines) bytes).reports };

    ghost replies = { λ size before bytes.
        sent_from (play (reset_term size.columns size.lines) before) bytes };

    fn reset(alloc: Global, size: Size) -> Result<Self, AllocError> {
        Terminal::reset(alloc, size)
    }

    fn clear(&mut self, size: Size) {
        let _size = size;
        Terminal::clear(self);
    }

    #[tactic(auto, using(sheet::proofs::Came::are_marked))]
    fn feed(&mut self, bytes: &[u8], sink: &mut Reports) -> Result<(), OutOfMemory> {
        plays_in_parts();
        self.feed_in_place(bytes, sink)
    }

    fn pack(&self, alloc: Global) -> Result<PackedTerminal, AllocError> {
        Terminal::pack(self, alloc)
    }

    #[tactic(auto, using(sheet::proofs::Came::are_marked))]
    fn unpack(&mut self, packed: &PackedTerminal) {
        size_stays();
        let size = self.size();
        let other = packed.size();
        if size.columns == other.columns && size.lines == other.lines {
            Terminal::unpack(self, packed);
        }
    }

    fn laws() {
        plays_in_parts();
        sent_is_appended();
        size_stays();
    }
}
