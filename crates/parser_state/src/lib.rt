//! Writes what is pending in a parser, as a text that leaves another one as this one is seen.
#![tactic(auto)]

ghost use Rattle.std.specs.Prelude.{◌≡◌, decimal};
ghost use Rattle.tape_core.specs.Devices.{Gave};
ghost use Rattle.vt_parser.specs.Decimals.{params_text};
ghost use Rattle.parser_state.specs.PendingText.{begun_text, pending_text, text_where};

use itoa::Buffer;
use std::io::Write;
use tape_core::Watched;
use tape_core::laws::gives_join;
use vt_parser::ParserState;

/// Writes bytes that are pending in this state, where nothing is: at most 100, never those that came.
pub fn put_pending<W: Write>(state: &ParserState, writer: &mut Watched<W>)
    ensures { Gave W.contents writer.old writer.new (pending_text state.now) }
{
    gives_join::<W>();
    match state {
        ParserState::Ground => {}
        ParserState::Escape | ParserState::Vt52Escape => writer.give(b"\x1b"),
        ParserState::EscapeOne(inter) => writer.give(&[0x1b, *inter]),
        ParserState::EscapeMany => writer.give(b"\x1b  "),
        ParserState::CsiStart => writer.give(b"\x1b["),
        ParserState::Csi {
            private,
            params,
            over,
        } => put_begun(*private, params.as_slice(), *over, writer),
        ParserState::CsiIgnored => writer.give(b"\x1b[<"),
        ParserState::Text => writer.give(b"\x1bP"),
        ParserState::Vt52Line => writer.give(b"\x1bY"),
        ParserState::Vt52Column(line) => writer.give(&[0x1b, b'Y', *line]),
    }
}

/// Writes a control sequence that is begun.
fn put_begun<W: Write>(private: bool, params: &[u16], over: bool, writer: &mut Watched<W>)
    ensures { Gave W.contents writer.old writer.new (begun_text private params.now over) }
{
    gives_join::<W>();
    writer.give(b"\x1b[");
    put_where(private, b"?", writer);
    put_params(params, writer);
    put_where(over, b";", writer);
}

/// Writes numbers in decimal, joined by `;`.
fn put_params<W: Write>(params: &[u16], writer: &mut Watched<W>)
    ensures { Gave W.contents writer.old writer.new (params_text params.now) }
{
    gives_join::<W>();
    for (i, &number) in params.iter().enumerate() {
        put_where(i > 0, b";", writer);
        put_number(number, writer);
    }
}

/// Writes a number in decimal.
fn put_number<W: Write>(number: u16, writer: &mut Watched<W>)
    ensures { Gave W.contents writer.old writer.new (decimal number) }
{
    writer.give(Buffer::new().format(number).as_bytes());
}

/// Writes a text, or nothing.
fn put_where<W: Write>(holds: bool, text: &[u8], writer: &mut Watched<W>)
    ensures { Gave W.contents writer.old writer.new (text_where holds text.now) }
{
    gives_join::<W>();
    if holds {
        writer.give(text);
    }
}
