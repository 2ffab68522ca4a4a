//! The terminal plays, as every terminal does.
ghost use Rattle.std.specs.Prelude.{◌≡◌};

use crate::{OutOfMemory, PackedTerminal, Profile, Reports, Terminal};
use plays::Plays;
use std::alloc::{AllocError, Global};

impl Plays for Terminal {
    type Profile = Profile;

    type Packed = PackedTerminal;

    ghost use Rattle.vt_term.specs.Seen.{Shows, Told};
    ghost use Rattle.vt_term.specs.Term.{play, reset_term_as, sent as sent_from};

    ghost shows = { λ profile terminal bytes. Shows terminal (play (reset_term_as profile) bytes) };

    ghost keeps = { λ profile packed bytes. Shows packed (play (reset_term_as profile) bytes) };

    ghost told = { λ profile terminal bytes. Told (play (reset_term_as profile) bytes).console.picture.rows terminal };

    ghost fits = { λ _ _. Unit {0} };

    ghost sent = { λ profile bytes. (play (reset_term_as profile) bytes).reports };

    ghost replies = { λ profile before bytes. sent_from (play (reset_term_as profile) before) bytes };

    fn reset(alloc: Global, profile: Profile) -> Result<Self, AllocError> {
        let _alloc = alloc;
        Ok(Terminal::reset_as(profile))
    }

    fn clear(&mut self, profile: Profile) {
        *self = Terminal::reset_as(profile);
    }

    #[tactic(auto, using(crate::proofs::Steps::plays_in_parts))]
    fn feed(&mut self, bytes: &[u8], sink: &mut Reports) -> Result<(), OutOfMemory> {
        self.feed_in_place(bytes, sink)
    }

    fn pack(&self, alloc: Global) -> Result<PackedTerminal, AllocError> {
        Terminal::pack(self, alloc)
    }

    fn unpack(&mut self, packed: &PackedTerminal) {
        Terminal::unpack(self, packed);
    }

    fn laws() {}
}
