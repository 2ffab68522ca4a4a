//! Pictures as whole files.
use std::alloc::Global;
use std::test::Fail;
use tape_core::Watched;
use xterm_picture::picture;
use xterm_term::{Reports, Size, Terminal};

/// Columns and lines of these terminals, and what their pictures measure.
const COLUMNS: u16 = 12;

const LINES: usize = 3;

const WIDTH: &str = "140";

const HEIGHT: &str = "80";

const STYLE: &str =
    "text{font:16.67px 'DejaVu Sans Mono',Menlo,Consolas,'Liberation Mono',monospace;white-space:pre}path{shape-rendering:crispEdges}g:last-child path{shape-rendering:auto}tspan{unicode-bidi:isolate-override}.i{fill:#ddd}.p{fill:#111}.b{font-weight:bold}.t{font-style:italic}.n{fill:none}.k{animation:k 1s step-end infinite}@keyframes k{50%{opacity:.2}}@media print,(prefers-reduced-motion:reduce){.k{animation:none}}";

/// What is fed, and the parts of the picture that it makes.
pub(crate) struct Drawn {
    pub(crate) text: &'static str,
    pub(crate) reversed: bool,
    /// The plain print's first lines as they stand in XML, each with LF.
    pub(crate) plain: &'static str,
    pub(crate) grounds: &'static str,
    /// What stands in the frames of the first rows; empty ones follow.
    pub(crate) rows: &'static [&'static str],
    /// The cursor with its frame.
    pub(crate) cursor: &'static str,
}

/// A terminal of 12 columns and 3 lines after a text.
pub(crate) fn fed(alloc: Global, text: &str) -> Result<Terminal, Fail> {
    let size = Size::new(COLUMNS, LINES as u16).ok_or("no size")?;
    let mut terminal = Terminal::reset(alloc, size)?;
    terminal.feed(text.as_bytes(), &mut Reports::new(alloc))?;
    Ok(terminal)
}

/// Its picture at half a second.
pub(crate) fn drawn_of(alloc: Global, text: &str) -> Result<Vec<u8>, Fail> {
    let terminal = fed(alloc, text)?;
    let mut writer = Watched::new(Vec::new(alloc));
    picture(&terminal, 500_000, &mut writer)?;
    Ok(writer.into_inner())
}

/// The whole file that is wanted.
pub(crate) fn file_of(alloc: Global, drawn: &Drawn) -> Result<String, Fail> {
    let (ink, back) = if drawn.reversed {
        ("p", "i")
    } else {
        ("i", "p")
    };
    let mut text = format!(in alloc;
        "<svg xmlns=\"http://www.w3.org/2000/svg\" class=\"{ink}\" viewBox=\"-10 -10 {WIDTH} {HEIGHT}\" width=\"{WIDTH}\" height=\"{HEIGHT}\" role=\"group\" aria-label=\"Screen\" xml:space=\"preserve\"><title>Screen at 0.500000 s</title><desc>"
    )?;
    push_all(
        &mut text,
        &[
            drawn.plain,
            "</desc><style>",
            STYLE,
            "</style>\n<path class=\"",
            back,
        ],
    )?;
    push_all(
        &mut text,
        &[
            "\" d=\"M-10 -10h",
            WIDTH,
            "v",
            HEIGHT,
            "h-",
            WIDTH,
            "z\"/>\n<g>",
        ],
    )?;
    push_all(&mut text, &[drawn.grounds, "</g>\n"])?;
    push_rows(alloc, drawn.rows, &mut text)?;
    push_all(&mut text, &[drawn.cursor, "\n</svg>\n"])?;
    Ok(text)
}

/// Three rows: these, and empty ones.
fn push_rows(alloc: Global, rows: &[&str], text: &mut String) -> Result<(), Fail> {
    for line in 0..LINES {
        let down = 20 * line;
        let row = if line < rows.len() { rows[line] } else { "" };
        let opening = format!(in alloc; "<g transform=\"translate(0 {down})\">")?;
        push_all(text, &[opening.as_str(), row, "</g>\n"])?;
    }
    Ok(())
}

fn push_all(text: &mut String, parts: &[&str]) -> Result<(), Fail> {
    for part in parts {
        text.push_str(part)?;
    }
    Ok(())
}
