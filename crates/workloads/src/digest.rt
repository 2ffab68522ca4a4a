//! A short number for a long text.

/// The number of the bytes so far (after FNV-1a, by words).
#[derive(Clone, Copy, Debug)]
pub struct Digest {
    pub number: u64,
}

impl Digest {
    /// That of no bytes.
    pub fn new() -> Self {
        Digest {
            number: 14695981039346656037,
        }
    }

    /// Takes in more bytes, eight at a time.
    pub fn take(&mut self, bytes: &[u8]) {
        let (words, rest) = bytes.as_chunks::<8>();
        for word in words {
            self.mix(u64::from_le_bytes(*word));
        }
        for byte in rest {
            self.mix(*byte as u64);
        }
    }

    /// Takes in a number.
    fn mix(&mut self, number: u64) {
        self.number = (self.number ^ number).wrapping_mul(1099511628211) ^ (self.number >> 29);
    }
}
