//! The grounds of reversed runs.

ghost use Rattle.std.specs.Prelude.{◌≡◌, ◌≤◌, ◌*◌, ◌-◌, All};
ghost use Rattle.std.specs.List.{flat_map};
ghost use Rattle.tape_core.specs.Devices.{Gave};
ghost use Rattle.screen_picture.specs.Grounds.{by_line, cell_width, down, ground_text, grounds_text, row_grounds};
ghost use Rattle.screen_rows.specs.Runs.{IsRun};

use itoa::Buffer;
use screen_rows::{Run, runs_of};
use std::io::Write;
use tape_core::Watched;
use tape_core::laws::gives_join;
use vt_screen::laws::screens_are_sound;
use vt_screen::limits::LINES;
use vt_screen::{Screen, Size};

/// Writes the grounds of all rows.
#[tactic(auto, unfolding(crate::specs::Grounds::grounds_text))]
pub(crate) fn put_grounds<W: Write>(screen: &Screen, writer: &mut Watched<W>)
    ensures { Gave W.contents writer.old writer.new (grounds_text screen.now.picture.rows) }
{
    gives_join::<W>();
    writer.give(b"<path d=\"");
    put_lines(screen, writer);
    writer.give(b"\"/>\n");
}

/// Writes the grounds of the rows in turn.
fn put_lines<W: Write>(screen: &Screen, writer: &mut Watched<W>)
    ensures { Gave W.contents writer.old writer.new
        (by_line (row_grounds screen.now.picture.rows)) }
{
    gives_join::<W>();
    for line in 1..LINES + 1 {
        put_line(screen, line, writer);
    }
}

/// Writes the grounds of a row.
fn put_line<W: Write>(screen: &Screen, line: u8, writer: &mut Watched<W>)
    requires low { 1 ≤ line }
    requires high { line ≤ LINES }
    ensures { Gave W.contents writer.old writer.new
        (row_grounds screen.now.picture.rows line) }
{
    let row = screen.row(line);
    put_runs(line, row.size, runs_of(row).as_slice(), writer);
}

/// Writes the grounds of runs.
fn put_runs<W: Write>(line: u8, size: Size, runs: &[Run], writer: &mut Watched<W>)
    requires low { 1 ≤ line }
    requires high { line ≤ LINES }
    requires runs { All IsRun runs.now }
    ensures { Gave W.contents writer.old writer.new
        (flat_map (ground_text line size) runs.now) }
{
    gives_join::<W>();
    for run in runs {
        put_run(line, size, *run, writer);
    }
}

/// Writes the ground of a run, where it is reversed.
fn put_run<W: Write>(line: u8, size: Size, run: Run, writer: &mut Watched<W>)
    requires low { 1 ≤ line }
    requires high { line ≤ LINES }
    requires run { IsRun run }
    ensures { Gave W.contents writer.old writer.new (ground_text line size run) }
{
    gives_join::<W>();
    if !run.kind.reverse {
        return;
    }
    let mut left = Buffer::new();
    let mut top = Buffer::new();
    let mut width = Buffer::new();
    let width = width
        .format(cell_width(size) * u16::from(run.len))
        .as_bytes();
    writer.give_all(&[
        b"M",
        left.format(cell_width(size) * u16::from(run.before))
            .as_bytes(),
        b" ",
        top.format(down(line)).as_bytes(),
        b"h",
        width,
        b"v20h-",
        width,
        b"z",
    ]);
}

/// How many units wide a cell is on a line of a size.
fn cell_width(size: Size) -> u16
    ensures value { result ≡ cell_width size }
    ensures high { result ≤ 20 }
{
    if size.is_single() { 10 } else { 20 }
}

/// How many units down a line begins.
pub(crate) fn down(line: u8) -> u16
    requires low { 1 ≤ line }
    requires high { line ≤ LINES }
    ensures { result ≡ down line }
{
    20 * u16::from(line - 1)
}
