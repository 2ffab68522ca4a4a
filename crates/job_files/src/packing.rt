//! The bytes with which a compressed file begins, as they come.

ghost use Rattle.std.specs.Prelude.{◌≡◌};
ghost use Rattle.job_files.specs.Beginning.{is_packed, is_past, magic_of, packer_of, packing_after};

/// What writes compressed files.
#[derive(Clone, Copy, Debug, PartialEq, Eq)]
pub enum Packer {
    Gzip,
    Bzip2,
    Xz,
    Zstd,
}

/// How many bytes of a text are those with which a compressed file begins.
#[derive(Clone, Copy, Debug, PartialEq, Eq)]
pub enum Packing {
    /// The text is empty.
    Awaited,
    /// So many of this one's, up to all.
    Come(Packer, usize),
    /// Another byte stands there.
    Other,
}

impl Packing {
    /// With this byte behind the text.
    pub fn after(self, byte: u8) -> Packing
        ensures { result ≡ packing_after self byte }
    {
        match self {
            Packing::Awaited => match packer_of(byte) {
                Some(packer) => Packing::Come(packer, 1),
                None => Packing::Other,
            },
            Packing::Come(packer, come) => come_after(packer, come, byte),
            Packing::Other => self,
        }
    }

    /// Whether all have come.
    pub fn is_packed(self) -> bool
        ensures { result ≡ is_packed self }
    {
        match self {
            Packing::Come(packer, come) => come >= magic_of(packer).len(),
            Packing::Awaited | Packing::Other => false,
        }
    }

    /// Whether no further byte changes it.
    pub fn is_past(self) -> bool
        ensures { result ≡ is_past self }
    {
        self.is_packed() || matches!(self, Packing::Other)
    }
}

/// With this byte behind so many of this packer's.
fn come_after(packer: Packer, come: usize, byte: u8) -> Packing
    ensures { result ≡ packing_after (Packing.Come packer come) byte }
{
    let magic = magic_of(packer);
    if come >= magic.len() {
        Packing::Come(packer, come)
    } else if magic[come] == byte {
        Packing::Come(packer, come + 1)
    } else {
        Packing::Other
    }
}

/// With which bytes a file of this one begins.
fn magic_of(packer: Packer) -> &'static [u8]
    ensures { result.now ≡ magic_of packer }
{
    match packer {
        Packer::Gzip => b"\x1f\x8b\x08",
        Packer::Bzip2 => b"BZh",
        Packer::Xz => b"\xfd7zXZ\0",
        Packer::Zstd => b"\x28\xb5\x2f\xfd",
    }
}

/// Whose first byte it is.
fn packer_of(byte: u8) -> Option<Packer>
    ensures { result ≡ packer_of byte }
{
    match byte {
        0x1f => Some(Packer::Gzip),
        b'B' => Some(Packer::Bzip2),
        0xfd => Some(Packer::Xz),
        0x28 => Some(Packer::Zstd),
        _ => None,
    }
}
