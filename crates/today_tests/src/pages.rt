//! Pages of a terminal of today.

ghost use Rattle.std.specs.Prelude.{◌≡◌, [], ◌∷◌, ◌++◌, Some, None, codes, encode_utf8, false, true};
ghost use Rattle.xterm_page.specs.Entries.{Is, Was, first_entry};
ghost use Rattle.xterm_page.specs.Reading.{data_read};

use std::alloc::Global;
use std::process::Abort;
use std::rt::{HostRuntime, Runtime};
use std::test::Fail;
use tape_core::Watched;
use tape_tests::once_more::read;
use xterm_page::page;
use xterm_print::open;
use xterm_term::Size;

/// Chunks on 12 columns and 3 lines, each half a second behind the one before it, divided by bars, and the entries of
/// their page behind its first two.
const ROWS: [(&str, &str); 8] = [
    ("", "[0.500000,0,1,1]"),
    // Bright, faint, reversed, drawn, with a mark, of width 2, of a colour of its own, crossed out.
    (
        "\x1b[1;31mab\x1b[0;2;44m\u{65e5}\x1b[7m\u{2500}e\u{301}\x1b[m\r\n\x1b[38;2;1;2;3;9m<\u{1f600}\x1b[m",
        "[0.500000,0,2,4,1,[0,1,2,\"ab\",544,0,5,\"\u{65e5}\",56,0,5,\"\u{2500}\",1064,0,5,\"e\u{301}\"],2,[0,256,66308,\"\\u003c\",768,66308,\"\u{1f600}\"]]",
    ),
    // Noughts at the end of a run's numbers are left out, others aren't.
    (
        "ab\x1b[1mc\x1b[0;44md\x1b[m",
        "[0.500000,0,1,5,1,[0,\"ab\",1,\"c\",0,0,5,\"d\"]]",
    ),
    // The least line that was the row; a blank row; a reversed screen, a hidden cursor.
    (
        "a\r\na|\x1b[3;1Ha|\x1b[2J\x1b[?5h|\x1b[?25l",
        "[0.500000,0,2,2,1,[0,\"a\"],2,[0,\"a\"]],\n[1.000000,0,3,2,3,1],\n[1.500000,2,3,2,1,[0],2,[0],3,[0]],\n[2.000000,6,3,2]",
    ),
    // Rows that move by one line, of which a line above was the second one too.
    (
        "c\r\nb\r\nc|\n",
        "[0.500000,0,3,2,1,[0,\"c\"],2,[0,\"b\"],3,[0,\"c\"]],\n[1.000000,0,3,2,1,2,2,1,3,[0]]",
    ),
    // The end of a row is erased.
    (
        "abc|\x1b[2G\x1b[K",
        "[0.500000,0,1,4,1,[0,\"abc\"]],\n[1.000000,0,1,2,1,[0,\"a\"]]",
    ),
    // Drawn cells among letters, one of which is escaped.
    (
        "a\u{2500}\u{2500}\"b",
        "[0.500000,0,1,6,1,[0,\"a\",16,\"\u{2500}\u{2500}\",\"\\\"b\"]]",
    ),
    // Rows that move, and what a string escapes.
    (
        "\"\\<|\n\n\n",
        "[0.500000,0,1,4,1,[0,\"\\\"\\\\\\u003c\"]],\n[1.000000,0,3,4,1,2]",
    ),
];

/// The page of chunks.
fn page_of(rt: &(impl Runtime<A = Global> + Abort), chunks: &str) -> Result<Vec<u8>, Fail> {
    let alloc = rt.alloc();
    let mut script = vec![in alloc; b'\n']?;
    let mut timing = String::new(alloc);
    for chunk in chunks.split('|') {
        script.extend_from_slice(chunk.as_bytes())?;
        timing.push_str(format!(in alloc; "0.5 {}\n", chunk.len())?.as_str())?;
    }
    let recording = read(rt, script.as_slice(), timing.as_bytes())?;
    let size = Size::new(12, 3).ok_or("no size")?;
    let mut session = open(alloc, recording, 1, size)?;
    let mut writer = Watched::new(Vec::new(alloc));
    page(alloc, &mut session, &['t'], &mut writer)?;
    Ok(writer.into_inner())
}

#[test]
fn entries_tell_what_changes(rt: HostRuntime) -> Result<(), Fail> {
    for (chunks, wanted) in ROWS {
        let page = page_of(&rt, chunks)?;
        let text = std::str::from_utf8(page.as_slice()).unwrap_or("");
        let (_, behind) = text
            .split_once("[[12,3],\n[0.000000,0,1,1],\n")
            .unwrap_or(("", ""));
        let (entries, _) = behind.split_once("]\n</script>").unwrap_or(("", ""));
        assert_eq!(&rt; entries, wanted);
    }
    Ok(())
}

/// What the data of pages tells, and what is no data.
#[tactic(auto, unfolding(xterm_page::specs::Reading::data_read, screen_page::specs::Reading::fields_read, tape_core::specs::Seconds::seconds_of))]
fn data_is_read()
    ensures first { data_read (codes "[[80,24],\n[0.000000,0,1,1]]")
        ≡ Some (record { columns = 80; lines = 24; entries = first_entry ∷ [] }) }
    // Numbers that are left out are 0.
    ensures noughts { data_read (codes "[[12,3],\n[0.500000,2,1,5,1,[0,\"ab\",1,\"c\",0,7,\"\",0,0,5,\"d\"],3,[0]]]")
        ≡ Some (record {
          columns = 12;
          lines = 3;
          entries = record {
            due = 500000;
            reversed = true;
            hidden = false;
            line = 1;
            column = 5;
            changes = (
              1,
              Is (
                  record { kind = 0; ink = 0; paper = 0; characters = codes "ab" }
                  ∷ record { kind = 1; ink = 0; paper = 0; characters = codes "c" }
                  ∷ record { kind = 0; ink = 7; paper = 0; characters = [] }
                  ∷ record { kind = 0; ink = 0; paper = 5; characters = codes "d" } ∷ []),
            )
                ∷ (3, Is []) ∷ [];
          } ∷ [];
        }) }
    // A row that another line was, a character of width 2, what a string escapes, and a colour by its parts.
    ensures strings { data_read (codes "[[2,500],\n[1.250000,6,500,2,9,8,10,[0,512,66308,16777472,\"" ++ 230 ∷ 151 ∷ 165 ∷ codes "\\\"\\\\\\u003c\"]]]")
        ≡ Some (record {
          columns = 2;
          lines = 500;
          entries = record {
            due = 1250000;
            reversed = true;
            hidden = true;
            line = 500;
            column = 2;
            changes = (9, Was 8) ∷ (
              10,
              Is (
                  record { kind = 512; ink = 66308; paper = 16777472; characters = 230 ∷ 151 ∷ 165 ∷ 34 ∷ 92 ∷ encode_utf8 60 } ∷ []),
            ) ∷ [];
          } ∷ [];
        }) }
    // No size, a row that begins otherwise, a sign, four numbers before a string, a line by itself, an end too early.
    ensures size { data_read (codes "[[0.000000,0,1,1]]") ≡ None }
    ensures row { data_read (codes "[[12,3],\n[0.5,0,1,1,1,[1,\"a\"]]]") ≡ None }
    ensures sign { data_read (codes "[[12,3],\n[0.5,0,1,1,1,[0,-5,\"a\"]]]") ≡ None }
    ensures numbers { data_read (codes "[[12,3],\n[0.5,0,1,1,1,[0,1,2,3,4,\"a\"]]]") ≡ None }
    ensures line { data_read (codes "[[12,3],\n[0.5,0,1,1,1]]") ≡ None }
    ensures whole { data_read (codes "[[12,3],\n[0.5,0,1,1]") ≡ None }
{}

#[test]
fn pages_are_read(_rt: HostRuntime) -> Result<(), Fail> {
    data_is_read();
    Ok(())
}
