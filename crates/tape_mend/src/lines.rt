//! The lines of a timing file, without the CR of lines that end in CR LF.
ghost use Rattle.std.specs.Prelude.{◌≡◌, ◌<◌, ◌∷◌, length};
ghost use Rattle.tape_mend.specs.Lines.{ends_in_cr, has_cr_lf, timing_lines, without_cr};

use tape_core::text::next_line;

/// Whether a CR stands at the end of a line.
fn ends_in_cr(line: &[u8]) -> bool
    ensures { result ≡ ends_in_cr line.now }
{
    line.last() == Some(&b'\r')
}

/// A line without one CR at its end.
fn without_cr(line: &[u8]) -> &[u8]
    ensures { result.now ≡ without_cr line.now }
{
    if ends_in_cr(line) {
        &line[..line.len() - 1]
    } else {
        line
    }
}

/// The first line of a timing file that isn't empty, without the LF or CR LF at its end, and what stands behind it.
pub fn next_timing_line(timing: &[u8]) -> (&[u8], &[u8])
    requires { 0 < length timing.now }
    ensures lines { timing_lines timing.now ≡ result.0.now ∷ timing_lines result.1.now }
    ensures shorter { length result.1.now < length timing.now }
{
    let (line, rest) = next_line(timing);
    (without_cr(line), rest)
}

/// How many lines a timing file has.
pub fn count_lines(timing: &[u8]) -> u64
    ensures { result ≡ length (timing_lines timing.now) }
{
    let mut count = 0;
    let mut rest = timing;
    while !rest.is_empty() {
        rest = next_timing_line(rest).1;
        count += 1;
    }
    count
}

/// Whether any line of a timing file ends in CR LF.
pub fn has_cr_lf(timing: &[u8]) -> bool
    ensures { result ≡ has_cr_lf timing.now }
{
    let mut rest = timing;
    while !rest.is_empty() {
        let (line, after) = next_line(rest);
        if ends_in_cr(line) {
            return true;
        }
        rest = after;
    }
    false
}
