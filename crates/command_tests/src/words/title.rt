//! The title of a page: the flag, and what stands for it.
use super::words_from;
use command_line::read_words;
use std::test::Fail;

/// A line's words, and the title.
const LINES: [(&[&str], &str); 9] = [
    (&["typetool", "page", "s", "t"], "s"),
    (&["typetool", "page", "a.b/demo.script", "t"], "demo"),
    (&["typetool", "page", "/demo.1.script", "t"], "demo.1"),
    (&["typetool", "page", ".script", "t"], ".script"),
    (&["typetool", "page", "a b.", "t"], "a b"),
    (
        &["typetool", "page", "--title", "A <b> & \"c\"", "s.x", "t"],
        "A <b> & \"c\"",
    ),
    (&["typetool", "page", "s.x", "--title=", "t"], ""),
    (
        &[
            "typetool",
            "page",
            "--title=--é",
            "--profile=vt102",
            "s",
            "t",
        ],
        "--é",
    ),
    (
        &["typetool", "page", "--title", "\u{1b}\u{9b}", "s", "t"],
        "\u{1b}\u{9b}",
    ),
];

#[test]
fn reads_titles(rt: HostRuntime) -> Result<(), Fail> {
    for (line, title) in LINES {
        let words = words_from(rt.alloc(), line)?;
        let wanted: Vec<char> = title.chars().collect(rt.alloc())?;
        match read_words(rt.alloc(), words.as_slice()) {
            Ok(read) => assert_eq!(rt; read.text.as_slice(), wanted.as_slice(), "{line:?}"),
            Err(fault) => panic!(rt; "{line:?} is a command line, and not refused for {fault}"),
        }
    }
    Ok(())
}
