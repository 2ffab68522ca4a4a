//! How a rendition is set: SGR of its attributes and its ink, and SGR of its paper.

ghost use Rattle.std.specs.Prelude.{◌≡◌, ◌≤◌, decimal};
ghost use Rattle.tape_core.specs.Devices.{Gave};
ghost use Rattle.xterm_escaped.specs.EscapedText.{
  attributes_text,
  colour_text,
  direct_text,
  ink_text,
  is_told,
  letters_text,
  palette_text,
  paper_text,
  rendition_set_text,
  same_rendition,
  text_where,
};

use itoa::Buffer;
use sheet::{Colour, Rendition};
use std::io::Write;
use tape_core::Watched;
use tape_core::laws::gives_join;
use xterm_rows::{attribute_number, colour_number};

/// Behind which number the parameters of an ink stand, and those of a paper.
const INK: u8 = 30;

const PAPER: u8 = 40;

/// Whether two renditions are one.
pub fn same_rendition(one: Rendition, other: Rendition) -> bool
    ensures { result ≡ same_rendition one other }
{
    attribute_number(one) == attribute_number(other)
        && colour_number(one.ink) == colour_number(other.ink)
        && colour_number(one.paper) == colour_number(other.paper)
}

/// Writes what sets a rendition, whatever was in force.
#[tactic(auto, unfolding(crate::specs::EscapedText::rendition_set_text))]
pub fn put_rendition<W: Write>(rendition: Rendition, writer: &mut Watched<W>)
    ensures { Gave W.contents writer.old writer.new (rendition_set_text rendition) }
{
    gives_join::<W>();
    put_letters(rendition, writer);
    put_paper(rendition.paper, writer);
}

/// Writes SGR of attributes and ink, after none.
fn put_letters<W: Write>(rendition: Rendition, writer: &mut Watched<W>)
    ensures { Gave W.contents writer.old writer.new (letters_text rendition) }
{
    gives_join::<W>();
    writer.give(b"\x1b[0");
    put_attributes(rendition, writer);
    put_ink(rendition.ink, writer);
    writer.give(b"m");
}

/// Writes an ink as further parameters; nothing for the default one.
fn put_ink<W: Write>(ink: Colour, writer: &mut Watched<W>)
    ensures { Gave W.contents writer.old writer.new (ink_text ink) }
{
    gives_join::<W>();
    if is_told(ink) {
        writer.give(b";");
        put_colour(INK, ink, writer);
    }
}

/// Writes SGR of a paper; nothing for the default one.
fn put_paper<W: Write>(paper: Colour, writer: &mut Watched<W>)
    ensures { Gave W.contents writer.old writer.new (paper_text paper) }
{
    gives_join::<W>();
    if is_told(paper) {
        writer.give(b"\x1b[");
        put_colour(PAPER, paper, writer);
        writer.give(b"m");
    }
}

/// Writes the attributes as further parameters.
#[tactic(auto, unfolding(crate::specs::EscapedText::attributes_text))]
fn put_attributes<W: Write>(rendition: Rendition, writer: &mut Watched<W>)
    ensures { Gave W.contents writer.old writer.new (attributes_text rendition) }
{
    gives_join::<W>();
    put_where(rendition.bold, b";1", writer);
    put_where(rendition.faint, b";2", writer);
    put_where(rendition.italic, b";3", writer);
    put_where(rendition.underscore, b";4", writer);
    put_where(rendition.blink, b";5", writer);
    put_where(rendition.reverse, b";7", writer);
    put_where(rendition.concealed, b";8", writer);
    put_where(rendition.crossed_out, b";9", writer);
}

/// Writes a text, or nothing.
pub fn put_where<W: Write>(holds: bool, text: &[u8], writer: &mut Watched<W>)
    ensures { Gave W.contents writer.old writer.new (text_where holds text.now) }
{
    gives_join::<W>();
    if holds {
        writer.give(text);
    }
}

/// Whether a colour isn't the default one.
fn is_told(colour: Colour) -> bool
    ensures { result ≡ is_told colour }
{
    colour_number(colour) != 0
}

/// Writes the parameters of a colour behind a number; nothing for the default one.
#[tactic(auto, unfolding(crate::specs::EscapedText::colour_text))]
fn put_colour<W: Write>(base: u8, colour: Colour, writer: &mut Watched<W>)
    requires { base ≤ PAPER }
    ensures { Gave W.contents writer.old writer.new (colour_text base colour) }
{
    gives_join::<W>();
    match colour {
        Colour::Default => {}
        Colour::Palette(n) => put_palette(base, n, writer),
        Colour::Direct(red, green, blue) => put_direct(base, red, green, blue, writer),
    }
}

/// Writes the parameters of a number of the palette.
fn put_palette<W: Write>(base: u8, n: u8, writer: &mut Watched<W>)
    requires { base ≤ PAPER }
    ensures { Gave W.contents writer.old writer.new (palette_text base n) }
{
    gives_join::<W>();
    if n < 8 {
        put_number(u16::from(base + n), writer);
    } else if n < 16 {
        put_number(u16::from(base + 52 + n), writer);
    } else {
        put_number(u16::from(base + 8), writer);
        writer.give(b";5;");
        put_number(u16::from(n), writer);
    }
}

/// Writes the parameters of red, green and blue.
fn put_direct<W: Write>(base: u8, red: u8, green: u8, blue: u8, writer: &mut Watched<W>)
    requires { base ≤ PAPER }
    ensures { Gave W.contents writer.old writer.new (direct_text base red green blue) }
{
    gives_join::<W>();
    put_number(u16::from(base + 8), writer);
    writer.give(b";2;");
    put_number(u16::from(red), writer);
    writer.give(b";");
    put_number(u16::from(green), writer);
    writer.give(b";");
    put_number(u16::from(blue), writer);
}

/// Writes a number in decimal.
pub fn put_number<W: Write>(number: u16, writer: &mut Watched<W>)
    ensures { Gave W.contents writer.old writer.new (decimal number) }
{
    writer.give(Buffer::new().format(number).as_bytes());
}
