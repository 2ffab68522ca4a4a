//! How paints and attributes are written: classes, each told by one letter, and colours.

ghost use Rattle.std.specs.Prelude.{◌≡◌, ◌<◌, ◌∷◌, [], ◌++◌, length};
ghost use Rattle.std.specs.List.{flat_map};
ghost use Rattle.tape_core.specs.Devices.{Gave};
ghost use Rattle.xterm_picture.specs.Colours.{ink_paint};
ghost use Rattle.xterm_picture.specs.Attributes.{
  back_of,
  class_text,
  digit_of,
  faint_text,
  fill_text,
  further_class,
  hex_of,
  ink_of,
  letter_attributes,
  letter_classes,
  paint_classes,
  rgb_text,
  stroke_attributes,
  stroke_classes,
};

use crate::colour_table::Rgb;
use crate::colours::{Paint, ink_paint};
use arrayvec::ArrayVec;
use sheet::Rendition;
use std::io::Write;
use tape_core::Watched;
use tape_core::laws::gives_join;
use xterm_rows::Kind;

/// How many classes a run has at most.
const CLASSES: usize = 4;

/// The class of what is ink on the screen: `i`, or `p` on a reversed one (ours).
fn ink_of(reversed: bool) -> u8
    ensures { result ≡ ink_of reversed }
{
    if reversed { b'p' } else { b'i' }
}

/// The class of the screen's ground: `p`, or `i` on a reversed one (ours).
fn back_of(reversed: bool) -> u8
    ensures { result ≡ back_of reversed }
{
    if reversed { b'i' } else { b'p' }
}

/// Writes the class of what is ink on the screen.
pub(crate) fn put_ink<W: Write>(reversed: bool, writer: &mut Watched<W>)
    ensures { Gave W.contents writer.old writer.new (ink_of reversed ∷ []) }
{
    writer.give(&[ink_of(reversed)]);
}

/// Writes the class of the screen's ground.
pub(crate) fn put_back<W: Write>(reversed: bool, writer: &mut Watched<W>)
    ensures { Gave W.contents writer.old writer.new (back_of reversed ∷ []) }
{
    writer.give(&[back_of(reversed)]);
}

/// Writes the attributes of the letters of a run.
#[tactic(auto, unfolding(crate::specs::Attributes::letter_attributes))]
pub(crate) fn put_letter_attributes<W: Write>(kind: Kind, reversed: bool, writer: &mut Watched<W>)
    ensures { Gave W.contents writer.old writer.new (letter_attributes reversed kind) }
{
    gives_join::<W>();
    put_classes(letter_classes(kind, reversed).as_slice(), writer);
    if !kind.drawn {
        put_colour(kind.rendition, writer);
    }
}

/// Writes the attributes of the strokes of a run.
#[tactic(auto, unfolding(crate::specs::Attributes::stroke_attributes))]
pub(crate) fn put_stroke_attributes<W: Write>(
    rendition: Rendition,
    reversed: bool,
    writer: &mut Watched<W>,
)
    ensures { Gave W.contents writer.old writer.new (stroke_attributes reversed rendition) }
{
    gives_join::<W>();
    put_classes(stroke_classes(rendition, reversed).as_slice(), writer);
    put_colour(rendition, writer);
}

/// Writes the colour of a run's ink, and whether it is faint.
fn put_colour<W: Write>(rendition: Rendition, writer: &mut Watched<W>)
    ensures { Gave W.contents writer.old writer.new
        (fill_text (ink_paint rendition) ++ faint_text rendition.faint) }
{
    gives_join::<W>();
    put_fill(ink_paint(rendition), writer);
    put_faint(rendition.faint, writer);
}

/// Writes the attribute of what is faint.
fn put_faint<W: Write>(faint: bool, writer: &mut Watched<W>)
    ensures { Gave W.contents writer.old writer.new (faint_text faint) }
{
    gives_join::<W>();
    if faint {
        writer.give(b" fill-opacity=\".7\"");
    }
}

/// Writes the attribute that tells a colour; none for the screen's own ink and ground.
#[tactic(auto, unfolding(crate::specs::Attributes::fill_text))]
pub(crate) fn put_fill<W: Write>(paint: Paint, writer: &mut Watched<W>)
    ensures { Gave W.contents writer.old writer.new (fill_text paint) }
{
    gives_join::<W>();
    match paint {
        Paint::Ink | Paint::Back => {}
        Paint::Fill(rgb) => put_rgb(rgb, writer),
    }
}

/// Writes the attribute of a colour.
fn put_rgb<W: Write>(rgb: Rgb, writer: &mut Watched<W>)
    ensures { Gave W.contents writer.old writer.new (rgb_text rgb) }
{
    gives_join::<W>();
    writer.give(b" fill=\"#");
    put_hex(rgb.red, writer);
    put_hex(rgb.green, writer);
    put_hex(rgb.blue, writer);
    writer.give(b"\"");
}

/// Writes a byte in two digits.
#[tactic(auto, unfolding(crate::specs::Attributes::hex_of))]
fn put_hex<W: Write>(byte: u8, writer: &mut Watched<W>)
    ensures { Gave W.contents writer.old writer.new (hex_of byte) }
{
    writer.give(&[digit_of(byte / 16), digit_of(byte % 16)]);
}

/// A digit.
fn digit_of(n: u8) -> u8
    requires { n < 16 }
    ensures { result ≡ digit_of n }
{
    b"0123456789abcdef"[n as usize]
}

/// Writes the attribute that tells classes; none where there are none.
fn put_classes<W: Write>(classes: &[u8], writer: &mut Watched<W>)
    ensures { Gave W.contents writer.old writer.new (class_text classes.now) }
{
    gives_join::<W>();
    if let [first, rest @ ..] = classes {
        put_named(*first, rest, writer);
    }
}

/// Writes the attribute that tells this class and others.
fn put_named<W: Write>(first: u8, rest: &[u8], writer: &mut Watched<W>)
    ensures { Gave W.contents writer.old writer.new (class_text (first ∷ rest.now)) }
{
    gives_join::<W>();
    writer.give(b" class=\"");
    writer.give(&[first]);
    put_further(rest, writer);
    writer.give(b"\"");
}

/// Writes the classes behind the first one.
fn put_further<W: Write>(classes: &[u8], writer: &mut Watched<W>)
    ensures { Gave W.contents writer.old writer.new (flat_map further_class classes.now) }
{
    gives_join::<W>();
    for letter in classes {
        writer.give(&[b' ', *letter]);
    }
}

/// The classes of a run's letters.
fn letter_classes(kind: Kind, reversed: bool) -> ArrayVec<u8, CLASSES>
    ensures { result.items ≡ letter_classes reversed kind }
{
    let mut classes = ArrayVec::new();
    if kind.rendition.bold {
        classes.push(b'b');
    }
    if kind.rendition.italic {
        classes.push(b't');
    }
    if kind.rendition.blink {
        classes.push(b'k');
    }
    if kind.drawn {
        classes.push(b'n');
    } else {
        push_paint(&mut classes, ink_paint(kind.rendition), reversed);
    }
    classes
}

/// The classes of a run's strokes.
fn stroke_classes(rendition: Rendition, reversed: bool) -> ArrayVec<u8, CLASSES>
    ensures { result.items ≡ stroke_classes reversed rendition }
{
    let mut classes = ArrayVec::new();
    if rendition.blink {
        classes.push(b'k');
    }
    push_paint(&mut classes, ink_paint(rendition), reversed);
    classes
}

/// Puts the class that tells a paint behind others, where there is one.
fn push_paint(classes: &mut ArrayVec<u8, CLASSES>, paint: Paint, reversed: bool)
    requires { length classes.old.items < CLASSES }
    ensures { classes.new.items ≡ classes.old.items ++ paint_classes reversed paint }
{
    match paint {
        Paint::Back => classes.push(back_of(reversed)),
        Paint::Ink | Paint::Fill(_) => {}
    }
}
