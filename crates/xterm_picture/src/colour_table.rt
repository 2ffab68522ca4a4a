//! The palette of 256 colours.

ghost use Rattle.std.specs.Prelude.{◌≡◌, ◌<◌};
ghost use Rattle.xterm_picture.specs.Palette.{cube, grey, level, palette};

/// Red, green and blue.
#[derive(Clone, Copy, Debug, PartialEq, Eq)]
pub struct Rgb {
    pub red: u8,
    pub green: u8,
    pub blue: u8,
}

/// Colours 0 to 15 (ours).
const FIRST_COLOURS: [Rgb; 16] = [
    Rgb {
        red: 0x00,
        green: 0x00,
        blue: 0x00,
    }, // black
    Rgb {
        red: 0xd6,
        green: 0x4d,
        blue: 0x4d,
    }, // red
    Rgb {
        red: 0x3f,
        green: 0xa3,
        blue: 0x3f,
    }, // green
    Rgb {
        red: 0xe0,
        green: 0xbc,
        blue: 0x48,
    }, // yellow
    Rgb {
        red: 0x35,
        green: 0x64,
        blue: 0xc8,
    }, // blue
    Rgb {
        red: 0xb5,
        green: 0x65,
        blue: 0xb5,
    }, // magenta
    Rgb {
        red: 0x3f,
        green: 0xb0,
        blue: 0xb0,
    }, // cyan
    Rgb {
        red: 0xcc,
        green: 0xcc,
        blue: 0xcc,
    }, // white
    Rgb {
        red: 0x76,
        green: 0x76,
        blue: 0x76,
    }, // bright black
    Rgb {
        red: 0xff,
        green: 0x80,
        blue: 0x78,
    }, // bright red
    Rgb {
        red: 0x7f,
        green: 0xd9,
        blue: 0x7f,
    }, // bright green
    Rgb {
        red: 0xff,
        green: 0xe0,
        blue: 0x66,
    }, // bright yellow
    Rgb {
        red: 0x8f,
        green: 0xb8,
        blue: 0xff,
    }, // bright blue
    Rgb {
        red: 0xe8,
        green: 0xa0,
        blue: 0xe8,
    }, // bright magenta
    Rgb {
        red: 0x7f,
        green: 0xe0,
        blue: 0xe0,
    }, // bright cyan
    Rgb {
        red: 0xff,
        green: 0xff,
        blue: 0xff,
    }, // bright white
];

/// The levels of red, green and blue in colours 16 to 231 (xterm).
const LEVELS: [u8; 6] = [0x00, 0x5f, 0x87, 0xaf, 0xd7, 0xff];

/// A colour of the palette: 16 of this project's own, 216 of six levels of red, green and blue, and 24 greys (xterm).
#[tactic(auto, unfolding(crate::specs::Palette::palette))]
pub fn palette(n: u8) -> Rgb
    ensures { result ≡ palette n }
{
    if n < 16 {
        FIRST_COLOURS[n as usize]
    } else if n < 232 {
        cube(n - 16)
    } else {
        grey(n - 232)
    }
}

/// Number n of the colours that have six levels of red, green and blue.
fn cube(n: u8) -> Rgb
    requires { n < 216 }
    ensures { result ≡ cube n }
{
    Rgb {
        red: LEVELS[n as usize / 36],
        green: LEVELS[n as usize / 6 % 6],
        blue: LEVELS[n as usize % 6],
    }
}

/// Number n of the greys.
fn grey(n: u8) -> Rgb
    requires { n < 24 }
    ensures { result ≡ grey n }
{
    let level = 8 + 10 * n;
    Rgb {
        red: level,
        green: level,
        blue: level,
    }
}
