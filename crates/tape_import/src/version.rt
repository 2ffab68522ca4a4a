//! The versions of asciicast whose lines are events.

/// In version 2 an output has its moment, in version 3 each event the time since the one before.
#[derive(Clone, Copy, Debug, PartialEq, Eq)]
pub enum Version {
    Two,
    Three,
}
