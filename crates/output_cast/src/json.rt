//! Characters as they stand in a string of JSON.

ghost use Rattle.std.specs.Prelude.{◌≡◌, ◌<◌};
ghost use Rattle.tape_core.specs.Devices.{Gave};
ghost use Rattle.output_cast.specs.Json.{control_text, hex_digit, json_character};

use std::io::Write;
use tape_core::Watched;

/// Writes a character.
#[tactic(auto, unfolding(crate::specs::Json::json_character))]
pub(crate) fn put_character<W: Write>(character: char, writer: &mut Watched<W>)
    ensures { Gave W.contents writer.old writer.new (json_character character) }
{
    match character {
        '"' => writer.give(b"\\\""),
        '\\' => writer.give(b"\\\\"),
        '\0'..='\x1f' | '\x7f' => put_control(character as u8, writer),
        _ => writer.give(character.encode_utf8(&mut [0; 4]).as_bytes()),
    }
}

/// Writes a control character by its number.
fn put_control<W: Write>(byte: u8, writer: &mut Watched<W>)
    ensures { Gave W.contents writer.old writer.new (control_text byte) }
{
    writer.give(&[
        b'\\',
        b'u',
        b'0',
        b'0',
        hex_digit(byte / 16),
        hex_digit(byte % 16),
    ]);
}

/// A digit in hexadecimal.
fn hex_digit(n: u8) -> u8
    requires { n < 16 }
    ensures { result ≡ hex_digit n }
{
    if n < 10 { b'0' + n } else { b'a' - 10 + n }
}
