//! The limits of a control sequence (ours).

/// Parameters that count.
pub const MOST_PARAMS: usize = 16;

/// The greatest parameter.
pub const GREATEST_PARAM: u32 = 9_999;
