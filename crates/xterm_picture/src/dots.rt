//! The dots of a pattern of Braille, each a square.

ghost use Rattle.std.specs.Prelude.{◌≡◌, ◌<◌, ◌∷◌, [], if◌then◌else◌};
ghost use Rattle.tape_core.specs.Devices.{Gave};
ghost use Rattle.xterm_picture.specs.Attributes.{text_where};
ghost use Rattle.xterm_picture.specs.Strokes.{
  difference,
  dot_left,
  dot_top,
  dots_text,
  is_raised,
  square_text,
};

use crate::texts::put_number;
use std::io::Write;
use tape_core::Watched;
use tape_core::laws::gives_join;

/// Writes the dots of a pattern.
#[tactic(auto, unfolding(crate::specs::Strokes::dots_text))]
pub(crate) fn put_dots<W: Write>(pattern: usize, writer: &mut Watched<W>)
    ensures { Gave W.contents writer.old writer.new (dots_text pattern) }
{
    gives_join::<W>();
    let mut left = 0;
    let mut top = 0;
    for dot in 0..8 {
        put_dot(pattern, dot, left, top, writer);
        left = left_behind(pattern, dot, left);
        top = top_behind(pattern, dot, top);
    }
}

/// Writes a dot, where it is raised; the one before it stands there.
fn put_dot<W: Write>(pattern: usize, dot: usize, left: usize, top: usize, writer: &mut Watched<W>)
    requires { dot < 8 }
    ensures { Gave W.contents writer.old writer.new (text_where (is_raised pattern dot)
        (square_text left top (dot_left dot) (dot_top dot))) }
{
    gives_join::<W>();
    if is_raised(pattern, dot) {
        put_square(left, top, dot_left(dot), dot_top(dot), writer);
    }
}

/// How far right the last raised dot stands, this one or the one before it.
fn left_behind(pattern: usize, dot: usize, left: usize) -> usize
    requires { dot < 8 }
    ensures { result ≡ (if is_raised pattern dot then dot_left dot else left) }
{
    if is_raised(pattern, dot) {
        dot_left(dot)
    } else {
        left
    }
}

/// How far down it stands.
fn top_behind(pattern: usize, dot: usize, top: usize) -> usize
    requires { dot < 8 }
    ensures { result ≡ (if is_raised pattern dot then dot_top dot else top) }
{
    if is_raised(pattern, dot) {
        dot_top(dot)
    } else {
        top
    }
}

/// Whether a dot is raised.
fn is_raised(pattern: usize, dot: usize) -> bool
    requires { dot < 8 }
    ensures { result ≡ is_raised pattern dot }
{
    (pattern >> dot) % 2 == 1
}

/// How far right a dot stands.
fn dot_left(dot: usize) -> usize
    ensures { result ≡ dot_left dot }
{
    if dot < 3 || dot == 6 { 1 } else { 6 }
}

/// How far down a dot stands.
fn dot_top(dot: usize) -> usize
    ensures { result ≡ dot_top dot }
{
    if dot < 6 { 1 + 5 * (dot % 3) } else { 16 }
}

/// Writes a square, told from the corner of the one before it.
fn put_square<W: Write>(
    left_before: usize,
    top_before: usize,
    left: usize,
    top: usize,
    writer: &mut Watched<W>,
)
    ensures { Gave W.contents writer.old writer.new (square_text left_before top_before left top) }
{
    gives_join::<W>();
    writer.give(b"m");
    put_difference(left, left_before, writer);
    put_gap(top_before <= top, writer);
    put_difference(top, top_before, writer);
    writer.give(b"h3v3h-3z");
}

/// Writes a space, or nothing.
fn put_gap<W: Write>(holds: bool, writer: &mut Watched<W>)
    ensures { Gave W.contents writer.old writer.new (text_where holds (32 ∷ [])) }
{
    gives_join::<W>();
    if holds {
        writer.give(b" ");
    }
}

/// Writes by how much a number is more than another, with its sign.
fn put_difference<W: Write>(one: usize, other: usize, writer: &mut Watched<W>)
    ensures { Gave W.contents writer.old writer.new (difference one other) }
{
    gives_join::<W>();
    if one < other {
        writer.give(b"-");
        put_number(other - one, writer);
    } else {
        put_number(one - other, writer);
    }
}
