//! Where a text stands on rows of characters, what of it came and went between two screens, and how that is written.
#![tactic(auto)]

mod alone;
mod follow;
mod lag;
mod left;
mod less;
mod line;
mod near;
mod place;
mod region;
mod row;
mod span;
mod surplus;

pub use alone::Alone;
pub use lag::Lag;
pub use left::{Standing, ends_before, is_less, is_lone, stays_moved};
pub use less::{Less, Passed, may_pass};
pub use line::{Lines, Moment};
pub use place::{Place, standing};
pub use row::Row;
pub use span::Span;
