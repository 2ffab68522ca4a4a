//! The state text of the terminal of today.
use crate::files::fed;
use std::alloc::Global;
use std::test::Fail;
use tape_core::Watched;
use xterm_state::state;
use xterm_term::Terminal;

/// What is fed to a terminal of 12 columns and 3 lines without tab stops, and its state text.
const TEXTS: [(&str, &str); 6] = [
    // Nothing.
    (
        "",
        "\x1bc\x1b[3g\x1b[?6l\x1b[0m\x1b(B\x1b)B\x0f\x1b[0m\x1b[?1047h\x1b[?6l\x1b[0m\x1b(B\x1b)B\x0f\x1b[?1047l\x1b[1;3r\x1b[1;1H\x1b[0m\x1b(B\x1b)B\x0f\x1b>",
    ),
    // A wrap that is pending behind the last character, in bold.
    (
        "\x1b[1m\x1b[2;12Hq",
        "\x1bc\x1b[3g\x1b[?6l\x1b[0m\x1b(B\x1b)B\x0f\x1b[2;1H           \x1b[0;1mq\x1b[0m\x1b[?1047h\x1b[?6l\x1b[0m\x1b(B\x1b)B\x0f\x1b[?1047l\x1b[1;3r\x1b[2;12H\x1b[0;1m\x1b[2;12Hq\x1b[0;1m\x1b(B\x1b)B\x0f\x1b>\x1b[2;12Hq",
    ),
    // A stop, and saves of both sheets, of which the main one has a wrap; the alternate one is shown.
    (
        "\x1b[1;3H\x1bH\x1b[1;12Hx\x1b[?47h\x1b[31m\x1b)0\x0e\x1b[2;2H\x1b7\x1b[?47l\x1b[1;12Hx\x1b[?1049h",
        "\x1bc\x1b[3g\x1b[1;3H\x1bH\x1b[1;12H \x1b[0;31m\x1b(B\x1b)0\x0e\x1b7\x1b[?6l\x1b[0m\x1b(B\x1b)B\x0f\x1b[1;1H           \x1b[0;31m\u{2502}\x1b[0m\x1b[?1047h\x1b[2;2H\x1b[0;31m\x1b(B\x1b)0\x0e\x1b7\x1b[?6l\x1b[0m\x1b(B\x1b)B\x0f\x1b[1;3r\x1b[1;12H\x1b[0m\x1b[1;12H \x1b[0;31m\x1b(B\x1b)0\x0e\x1b>",
    ),
    // The last character with a mark in insert mode, on a line that is counted from the top margin.
    (
        "\x1b[2;3r\x1b[?6h\x1b[4habc\x08\x08\u{65e5}\u{1f600}\u{301}",
        "\x1bc\x1b[3g\x1b[?6l\x1b[0m\x1b(B\x1b)B\x0f\x1b[2;1Ha\u{65e5}\u{1f600}\u{301}bc\x1b[0m\x1b[?1047h\x1b[?6l\x1b[0m\x1b(B\x1b)B\x0f\x1b[?1047l\x1b[2;3r\x1b[?6h\x1b[1;6H\x1b[0m\x1b(B\x1b)B\x0f\x1b[4h\x1b>\x1b[1;4H\x1b[2P\u{1f600}\u{301}",
    ),
    // Without DECAWM the last character at the last column, which no mark joins, and a sequence that isn't finished.
    (
        "\x1b[?7l\x1b[?25l\x1b=\x1b[1;11Hab\u{301}\x1b[;7",
        "\x1bc\x1b[3g\x1b[?6l\x1b[0m\x1b(B\x1b)B\x0f\x1b[1;1H          a\u{301}b\x1b[0m\x1b[?1047h\x1b[?6l\x1b[0m\x1b(B\x1b)B\x0f\x1b[?1047l\x1b[1;3r\x1b[1;12H\x1b[0m\x1b(B\x1b)B\x0f\x1b[?7l\x1b[?25l\x1b=\x1b[1;12Hb\x1b[0;7",
    ),
    // A title.
    (
        "\x1b[?5;1h\x1b[20hx\x1bkname",
        "\x1bc\x1b[3g\x1b[?6l\x1b[0m\x1b(B\x1b)B\x0f\x1b[1;1Hx\x1b[0m\x1b[?1047h\x1b[?6l\x1b[0m\x1b(B\x1b)B\x0f\x1b[?1047l\x1b[1;3r\x1b[1;2H\x1b[0m\x1b(B\x1b)B\x0f\x1b[?1h\x1b[?5h\x1b[20h\x1b>\x1bk",
    ),
];

/// The state text of a terminal.
fn told(alloc: Global, terminal: &Terminal) -> Result<Vec<u8>, Fail> {
    let mut writer = Watched::new(Vec::new(alloc));
    state(terminal, &mut writer)?;
    Ok(writer.into_inner())
}

#[test]
fn tells_all_that_a_terminal_is(rt: HostRuntime) -> Result<(), Fail> {
    for (bytes, wanted) in &TEXTS {
        let cleared = format!(in rt.alloc(); "\x1b[3g{bytes}")?;
        let text = told(rt.alloc(), &fed(rt.alloc(), cleared.as_str())?)?;
        assert_eq!(rt; text.as_slice(), wanted.as_bytes(), "after {bytes:?}");
    }
    Ok(())
}
