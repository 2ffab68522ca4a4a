//! Which terminal is played.
ghost use Rattle.std.specs.Prelude.{◌≡◌};
ghost use Rattle.vt_term.specs.Profile.{has_editing};

/// Which terminal is played.
#[derive(Clone, Copy, Debug, PartialEq, Eq)]
pub enum Profile {
    /// A VT100 with the Advanced Video Option.
    Vt100,
    /// The same with the editing functions of a VT102: IL, DL, DCH and insert mode.
    Vt102,
}

impl Profile {
    /// Whether it has the editing functions.
    #[inline]
    pub(crate) fn has_editing(self) -> bool
        ensures { result ≡ has_editing self }
    {
        match self {
            Profile::Vt100 => false,
            Profile::Vt102 => true,
        }
    }
}
