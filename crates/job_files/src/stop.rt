//! Why there are no files for a job.

use std::alloc::AllocError;
use std::io;

/// Why a file isn't opened or created.
#[derive(Debug, Drop)]
pub enum FileStop {
    /// A growth was refused.
    Memory,
    /// The path as it may be told, and why.
    CannotOpen(String, io::Error),
    /// The same.
    CannotCreate(String, io::Error),
}

impl From<AllocError> for FileStop {
    ghost use Rattle.std.specs.Prelude.{◌≡◌};
    ghost use Rattle.job_files.specs.declared.stop.FileStop.TheVariants.{Memory};

    ghost from_gives = { λ _ stop. stop ≡ Memory };

    fn from(_refused: AllocError) -> FileStop {
        FileStop::Memory
    }
}
