//! Rows as they go out.
ghost use Rattle.std.specs.Prelude.{◌≡◌, ◌+◌, ◌∷◌, [], replicate, OnErr, OnOk};
ghost use Rattle.held.specs.Held.{Wrote};
ghost use Rattle.tape_core.specs.Devices.{Gave};
ghost use Rattle.transcripts.specs.Told.{BeginsRow, EndsRow, PutsPart, Tells};

use arrayvec::ArrayVec;
use held::{HELD, let_out, put, put_byte};
use plays::OutOfMemory;
use std::io::Write;
use std::marker::Model;
use tape_core::Watched;

/// Rows on their way to a writer. Blank ones are held back by their count, until one comes that isn't; of the others at
/// most 1,024 bytes are.
#[derive(Drop)]
pub struct Rows {
    held: ArrayVec<u8, HELD>,
    blank: u64,
}

impl Model for Rows {
    ghost use Rattle.transcripts.specs.Told.{Back};

    ghost Value = { Back };

    ghost view = { λ rows. record { held = rows.held.items; blank = rows.blank } };
}

impl Rows {
    /// Nothing was told.
    pub fn new() -> Self
        ensures { result ≡ record { held = []; blank = 0 } }
    {
        Rows {
            held: ArrayVec::new(),
            blank: 0,
        }
    }

    /// Tells a row by its text. Where more blank rows would be held back than can be counted, nothing is done.
    pub fn put<W: Write>(&mut self, text: &[u8], writer: &mut Watched<W>) -> Result<(), OutOfMemory>
        ensures tells { OnOk result
            (Tells W.contents writer.old self.old writer.new self.new (text.now ∷ [])) }
        ensures rows_stay { OnErr result (self.new ≡ self.old) }
        ensures writer_stays { OnErr result (writer.new ≡ writer.old) }
    {
        if text.is_empty() {
            self.put_blank()?;
            return Ok(());
        }
        self.begin(writer);
        put(text, &mut self.held, writer);
        put_byte(b'\n', &mut self.held, writer);
        Ok(())
    }

    /// Begins a row that isn't blank. Its text is put behind this, part by part, and then the row is ended.
    pub fn begin_row<W: Write>(&mut self, writer: &mut Watched<W>)
        ensures { BeginsRow W.contents writer.old self.old writer.new self.new [] }
    {
        self.begin(writer);
    }

    /// Puts a part of the text of a row that was begun.
    pub fn put_part<W: Write>(&mut self, part: &[u8], writer: &mut Watched<W>)
        ensures { PutsPart W.contents writer.old self.old writer.new self.new part.now }
    {
        put(part, &mut self.held, writer);
    }

    /// Ends a row that was begun, of which some text was put.
    pub fn end_row<W: Write>(&mut self, writer: &mut Watched<W>)
        ensures { EndsRow W.contents writer.old self.old writer.new self.new }
    {
        put(b"\n", &mut self.held, writer);
    }

    /// Tells a blank row.
    fn put_blank(&mut self) -> Result<(), OutOfMemory>
        ensures held { self.new.held ≡ self.old.held }
        ensures ok { OnOk result (self.new.blank ≡ self.old.blank + 1) }
        ensures err { OnErr result (self.new.blank ≡ self.old.blank) }
    {
        let Some(blank) = self.blank.checked_add(1) else {
            return Err(OutOfMemory);
        };
        self.blank = blank;
        Ok(())
    }

    /// Writes the blank rows that are held back.
    fn begin<W: Write>(&mut self, writer: &mut Watched<W>)
        ensures lines { Wrote W.contents writer.old self.old.held writer.new self.new.held
            (replicate self.old.blank 10) }
        ensures none { self.new.blank ≡ 0 }
    {
        put_line_ends(self.blank, &mut self.held, writer);
        self.blank = 0;
    }

    /// Lets out what is held back of a text. Blank rows at the end stay behind.
    pub(crate) fn end<W: Write>(&mut self, writer: &mut Watched<W>)
        ensures gave { Gave W.contents writer.old writer.new self.old.held }
    {
        let_out(&mut self.held, writer);
    }
}

/// Writes so many blank rows.
fn put_line_ends<W: Write>(count: u64, held: &mut ArrayVec<u8, HELD>, writer: &mut Watched<W>)
    ensures { Wrote W.contents writer.old held.old.items writer.new held.new.items
        (replicate count 10) }
{
    let mut put = 0;
    while put < count {
        put_byte(b'\n', held, writer);
        put += 1;
    }
}
