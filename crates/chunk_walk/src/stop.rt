//! Why a print of chunks ends early.

use plays::OutOfMemory;
use tape_core::Fault;

/// Why a print of chunks ends before the last of them.
#[derive(Debug, Clone, Copy, PartialEq, Eq)]
pub enum WalkFault {
    /// The writer failed.
    Write,
    /// Memory was refused.
    Memory,
}

impl From<Fault> for WalkFault {
    ghost use Rattle.std.specs.Prelude.{◌≡◌};
    ghost use Rattle.chunk_walk.specs.declared.stop.WalkFault.TheVariants as stops;

    ghost from_gives = { λ _ fault. fault ≡ stops.Write };

    fn from(_fault: Fault) -> Self {
        WalkFault::Write
    }
}

impl From<OutOfMemory> for WalkFault {
    ghost use Rattle.std.specs.Prelude.{◌≡◌};
    ghost use Rattle.chunk_walk.specs.declared.stop.WalkFault.TheVariants as stops;

    ghost from_gives = { λ _ fault. fault ≡ stops.Memory };

    fn from(_refused: OutOfMemory) -> Self {
        WalkFault::Memory
    }
}
