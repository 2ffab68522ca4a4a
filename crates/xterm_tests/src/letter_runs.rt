//! Characters of one column that come many at once: those of special graphics, and those of several bytes. What other
//! characters, borders, modes and ends of chunks do to such runs.

use crate::told::{all_bytes_leave, all_leave, are_same, feed_reset, told};
use std::alloc::Global;
use std::process::Abort;
use std::test::Fail;

// Sets other than ASCII: over the right border, in insert mode, without autowrap, and REP behind.
const SETS: &[(&str, &str)] = &[
    ("\x1b(0lqk", "1:┌─┐ at 1 4 G0 SpecialGraphics last ┐"),
    (
        "\x1b(0abcdefghijklmn",
        "1:▒␉␌␍␊°±␤␋┘┐┌ 2:└┼ at 2 3 G0 SpecialGraphics last ┼",
    ),
    (
        "\x1b(0abcdefghijkl",
        "1:▒␉␌␍␊°±␤␋┘┐┌ at 1 12 wrap G0 SpecialGraphics last ┌",
    ),
    (
        "\x1b[?7l\x1b(0abcdefghijklmn",
        "1:▒␉␌␍␊°±␤␋┘┐┼ at 1 12 no DECAWM G0 SpecialGraphics last ┼",
    ),
    (
        "ab\r\x1b[4h\x1b(0lqk",
        "1:┌─┐ab at 1 4 IRM G0 SpecialGraphics last ┐",
    ),
    (
        "123456789012\x1b[1;11H\x1b[4h\x1b(0lqk",
        "1:1234567890┌─ 2:┐ at 2 2 IRM G0 SpecialGraphics last ┐",
    ),
    (
        "123456789012\x1b[1;11H\x1b[4h\x1b[?7l\x1b(0lqk",
        "1:1234567890┌┐ at 1 12 no DECAWM IRM G0 SpecialGraphics last ┐",
    ),
    ("\x1b(0lqqk\x1b[2b", "1:┌──┐┐┐ at 1 7 G0 SpecialGraphics"),
    (
        "\x1b(0qqqqqqqqqqqqx\x1b[3b",
        "1:─{12} 2:││││ at 2 5 G0 SpecialGraphics",
    ),
    (
        "\x1b(0qqqqqqqqqqqqqqqqqqqqqqqqqqqqqqqqqqqqqqqqqqqqqqqqqqqqqqqqqqqqqqqxk",
        "1:─{12} 2:─{12} 3:─{12} 4:─{12} 5:─{12} 6:───│┐ at 6 6 G0 SpecialGraphics last ┐",
    ),
    (
        "日本\x1b[1;2H\x1b(0xx",
        "1: ││ at 1 4 G0 SpecialGraphics last │",
    ),
    ("\x1b(A##a#", "1:££a£ at 1 5 G0 Uk last £"),
    // One alone.
    ("\x1b(0q", "1:─ at 1 2 G0 SpecialGraphics last ─"),
    (
        "\x1b(0q\x1b(Bq\x1b(0x",
        "1:─q│ at 1 4 G0 SpecialGraphics last │",
    ),
    ("\x1b(0q\x1b[2b", "1:─── at 1 4 G0 SpecialGraphics"),
    (
        "ab\r\x1b[4h\x1b(0q",
        "1:─ab at 1 2 IRM G0 SpecialGraphics last ─",
    ),
    (
        "12345678901\x1b(0qx",
        "1:12345678901─ 2:│ at 2 2 G0 SpecialGraphics last │",
    ),
    (
        "\x1b[1m\x1b(0qx",
        "1:[B]─│ at 1 3 G0 SpecialGraphics [B] last │",
    ),
];

#[test]
fn sets(rt: HostRuntime) -> Result<(), Fail> {
    all_leave(&rt, SETS)
}

// Characters of several bytes, and others among them.
const LETTERS: &[(&str, &str)] = &[
    ("é", "1:é at 1 2 last é"),
    ("éà", "1:éà at 1 3 last à"),
    ("┌─┐éà😀", "1:┌─┐éà😀 at 1 8 last 😀"),
    ("éà日üö", "1:éà日üö at 1 7 last ö"),
    ("日éà", "1:日éà at 1 5 last à"),
    ("é日à", "1:é日à at 1 5 last à"),
    ("éà\u{301}üö", "1:éà\u{301}üö at 1 5 last ö"),
    ("é\u{301}àü", "1:é\u{301}àü at 1 4 last ü"),
    ("éàaüö", "1:éàaüö at 1 6 last ö"),
    ("éà\u{85}ü", "1:éàü at 1 4 last ü"),
    ("éà\u{85}", "1:éà at 1 3"),
    ("éà\nü", "1:éà 2:  ü at 2 4 last ü"),
    ("éà\x1b[2b", "1:éààà at 1 5"),
    ("éà\u{301}\x1b[2b", "1:éà\u{301}àà at 1 5"),
    ("абвгдежзийкл", "1:абвгдежзийкл at 1 12 wrap last л"),
    ("абвгдежзийклм", "1:абвгдежзийкл 2:м at 2 2 last м"),
    ("абвгдежзийк日м", "1:абвгдежзийк 2:日м at 2 4 last м"),
    (
        "\x1b[?7lабвгдежзийклмн",
        "1:абвгдежзийкн at 1 12 no DECAWM last н",
    ),
    ("\x1b[?7lабвгдежзийкл日", "1:абвгдежзийкл at 1 12 no DECAWM"),
    (
        "\x1b[?7lабвгдежзийклм\x1b[b",
        "1:абвгдежзийкм at 1 12 no DECAWM",
    ),
    ("ab\r\x1b[4héàü", "1:éàüab at 1 4 IRM last ü"),
    ("日本\x1b[1;2Héà", "1: éà at 1 4 last à"),
    ("\x1b[31;1méà", "1:[Bi1]éà at 1 3 [Bi1] last à"),
    ("\x1bkéà\x07ü", "1:ü at 1 2 last ü"),
    // One of one column, and another behind it.
    ("é日\x1b[2b", "1:é日日日 at 1 8"),
    ("é\u{301}\x1b[2b", "1:é\u{301}éé at 1 4"),
    ("é\u{85}ü", "1:éü at 1 3 last ü"),
    ("é\u{85}\x1b[b", "1:é at 1 2"),
    ("\u{301}é日", "1:é日 at 1 4 last 日"),
    ("1234567890é日", "1:1234567890é 2:日 at 2 3 last 日"),
    ("12345678901é日", "1:12345678901é 2:日 at 2 3 last 日"),
    (
        "12345678901é\u{301}",
        "1:12345678901é\u{301} at 1 12 wrap last é",
    ),
    (
        "\x1b[?7l1234567890é日\x1b[b",
        "1:1234567890é at 1 12 no DECAWM",
    ),
    (
        "\x1b[?7l12345678901é日\x1b[b",
        "1:12345678901é at 1 12 no DECAWM",
    ),
    ("ab\r\x1b[4hé日", "1:é日ab at 1 4 IRM last 日"),
    ("ab\r\x1b[4hé\u{301}à", "1:é\u{301}àab at 1 3 IRM last à"),
    // Two of one column, and another behind them.
    ("éà日\x1b[b", "1:éà日日 at 1 7"),
    ("123456789éà日", "1:123456789éà 2:日 at 2 3 last 日"),
    (
        "1234567890éà\u{301}",
        "1:1234567890éà\u{301} at 1 12 wrap last à",
    ),
];

#[test]
fn letters(rt: HostRuntime) -> Result<(), Fail> {
    all_leave(&rt, LETTERS)
}

// Bytes that are no character among them, and one that isn't finished.
const BROKEN: &[(&[u8], &str)] = &[
    (
        b"\xc3\xa9\xc3\xa0\xff\xc3\xbc\xc3\xb6",
        "1:éà�üö at 1 6 last ö",
    ),
    (b"\xc3\xa9\xc3\xc3\xa0\xc3\xbc", "1:é�àü at 1 5 last ü"),
    (b"\xc3\xa9\xe2\x94\xc3\xa0", "1:é�à at 1 4 last à"),
    (b"\xc3\xa9\xc3\xa0\xc3", "1:éà at 1 3 last à pending"),
    (b"\xc3\xa9\xc3", "1:é at 1 2 last é pending"),
];

#[test]
fn broken(rt: HostRuntime) -> Result<(), Fail> {
    all_bytes_leave(&rt, BROKEN)
}

// What many of them are, over and over.
const CYCLE: [char; 11] = ['а', 'б', 'в', 'г', 'д', 'е', 'ж', 'з', 'и', 'й', 'к'];

// So many of them leave this.
const COUNTED: &[(usize, &str)] = &[
    (1, "1:а at 1 2 last а"),
    (2, "1:аб at 1 3 last б"),
    (12, "1:абвгдежзийка at 1 12 wrap last а"),
    (
        63,
        "1:абвгдежзийка 2:бвгдежзийкаб 3:вгдежзийкабв 4:гдежзийкабвг 5:дежзийкабвгд 6:ежз at 6 4 last з",
    ),
    (
        64,
        "1:абвгдежзийка 2:бвгдежзийкаб 3:вгдежзийкабв 4:гдежзийкабвг 5:дежзийкабвгд 6:ежзи at 6 5 last и",
    ),
    (
        65,
        "1:абвгдежзийка 2:бвгдежзийкаб 3:вгдежзийкабв 4:гдежзийкабвг 5:дежзийкабвгд 6:ежзий at 6 6 last й",
    ),
    (
        130,
        "1:ежзийкабвгде 2:жзийкабвгдеж 3:зийкабвгдежз 4:ийкабвгдежзи 5:йкабвгдежзий 6:кабвгдежзи at 6 11 last и",
    ),
];

fn cycle(alloc: Global, count: usize) -> Result<String, Fail> {
    let mut text = String::new(alloc);
    for i in 0..count {
        text.push(CYCLE[i % CYCLE.len()])?;
    }
    Ok(text)
}

#[test]
fn many(rt: HostRuntime) -> Result<(), Fail> {
    for (count, want) in COUNTED {
        let bytes = cycle(rt.alloc(), *count)?;
        let left = feed_reset(rt.alloc(), &[bytes.as_bytes()])?;
        let text = told(rt.alloc(), &left)?;
        assert_eq!(rt; text.as_str(), *want, "at {count}");
    }
    Ok(())
}

// In two pieces, and byte by byte, they leave what they leave at once.
fn assert_same_when_cut(rt: &(impl Abort + AllocGlobal), bytes: &[u8]) -> Result<(), Fail> {
    let whole = feed_reset(rt.alloc(), &[bytes])?;
    for at in 0..bytes.len() {
        let cut = feed_reset(rt.alloc(), &[&bytes[..at], &bytes[at..]])?;
        assert!(rt; are_same(&cut, &whole), "cut at {at}");
    }
    let mut each = feed_reset(rt.alloc(), &[])?;
    for byte in bytes {
        each.feed(&[&[*byte]])?;
    }
    assert!(rt;
        are_same(&each, &whole),
        "byte by byte: {}",
        bytes.escape_ascii()
    );
    Ok(())
}

#[test]
fn cut(rt: HostRuntime) -> Result<(), Fail> {
    for (text, _) in SETS {
        assert_same_when_cut(&rt, text.as_bytes())?;
    }
    for (text, _) in LETTERS {
        assert_same_when_cut(&rt, text.as_bytes())?;
    }
    for (bytes, _) in BROKEN {
        assert_same_when_cut(&rt, bytes)?;
    }
    let text = cycle(rt.alloc(), 130)?;
    assert_same_when_cut(&rt, text.as_bytes())
}

// How many of one column are put at once, and one more or less, and what stands behind them: a wide character, a mark, one
// that shows nothing, one of ASCII, one that isn't finished, and one that is broken.
const COUNTS: [usize; 7] = [1, 2, 3, 63, 64, 65, 66];

const BEHIND: &[&[u8]] = &[
    b"\xe6\x97\xa5",
    b"\xcc\x81",
    b"\xc2\x85",
    b"a",
    b"\xd0",
    b"\xff",
];

fn assert_same_behind(rt: &(impl Abort + AllocGlobal), count: usize) -> Result<(), Fail> {
    for behind in BEHIND {
        let mut bytes = Vec::new(rt.alloc());
        bytes.extend_from_slice(cycle(rt.alloc(), count)?.as_bytes())?;
        bytes.extend_from_slice(behind)?;
        bytes.extend_from_slice("é".as_bytes())?;
        assert_same_when_cut(rt, bytes.as_slice())?;
    }
    Ok(())
}

#[test]
fn behind_many(rt: HostRuntime) -> Result<(), Fail> {
    for count in COUNTS {
        assert_same_behind(&rt, count)?;
    }
    Ok(())
}
