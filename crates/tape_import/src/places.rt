//! Where the values stand that tell something of a recording.
ghost use Rattle.std.specs.Prelude.{◌≡◌};
ghost use Rattle.json_bytes.specs.Values.{found, value};
ghost use Rattle.tape_import.specs.AsciicastOne.{none_named, with_value};
ghost use Rattle.tape_import.specs.ShownOne.{named_at};

/// The places of the last values of these names, of an asciicast of version 1.
#[derive(Clone, Copy, Debug)]
pub struct Places<'a> {
    pub version: Option<&'a [u8]>,
    pub width: Option<&'a [u8]>,
    pub height: Option<&'a [u8]>,
    pub env: Option<&'a [u8]>,
    pub timestamp: Option<&'a [u8]>,
}

impl<'a> Places<'a> {
    /// Nothing was told yet.
    pub fn none() -> Places<'a>
        ensures { named_at result ≡ none_named }
    {
        Places {
            version: None,
            width: None,
            height: None,
            env: None,
            timestamp: None,
        }
    }

    /// The value of a member of this name stands here.
    pub fn put(&mut self, name: &[u8], place: &'a [u8])
        ensures { named_at self.new ≡ with_value name.now (found (value 63 place.now)) (named_at self.old) }
    {
        if name == b"version".as_slice() {
            self.version = Some(place);
        } else if name == b"width".as_slice() {
            self.width = Some(place);
        } else if name == b"height".as_slice() {
            self.height = Some(place);
        } else if name == b"env".as_slice() {
            self.env = Some(place);
        } else if name == b"timestamp".as_slice() {
            self.timestamp = Some(place);
        }
    }
}
