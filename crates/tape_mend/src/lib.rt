//! Recordings in whatever state script(1) left them: a typescript and a timing file of either format are read as far as
//! they can be, as a recording of the classic format, and what was lost is told.
#![tactic(auto)]

mod counting;
mod front;
pub mod laws;
mod line;
mod lines;
mod logs;
mod losses;
mod mended;
mod opening;
mod taken;

pub use line::LineFault;
pub use losses::{Cut, LinesLeft, Losses, put_losses};
pub use mended::{Mended, mend};
pub use opening::Header;
