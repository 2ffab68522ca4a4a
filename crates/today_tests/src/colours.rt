//! Colours.
use sheet::{Colour, Rendition};
use std::test::Fail;
use xterm_picture::{Paint, Rgb, ground_paint, ink_paint, palette};

/// Colours of xterm's cube and greys, as its own lists have them, and some of the first sixteen.
const PALETTE: [(u8, u8, u8, u8); 16] = [
    (0, 0x00, 0x00, 0x00),
    (1, 0xd6, 0x4d, 0x4d),
    (4, 0x35, 0x64, 0xc8),
    (7, 0xcc, 0xcc, 0xcc),
    (8, 0x76, 0x76, 0x76),
    (15, 0xff, 0xff, 0xff),
    (16, 0x00, 0x00, 0x00),
    (17, 0x00, 0x00, 0x5f),
    (21, 0x00, 0x00, 0xff),
    (22, 0x00, 0x5f, 0x00),
    (52, 0x5f, 0x00, 0x00),
    (208, 0xff, 0x87, 0x00),
    (231, 0xff, 0xff, 0xff),
    (232, 0x08, 0x08, 0x08),
    (244, 0x80, 0x80, 0x80),
    (255, 0xee, 0xee, 0xee),
];

#[test]
fn the_palette_is_that_of_xterm_from_16_on(rt: HostRuntime) -> Result<(), Fail> {
    for (n, red, green, blue) in PALETTE {
        assert_eq!(rt; palette(n), Rgb { red, green, blue }, "colour {n}");
    }
    Ok(())
}

#[test]
fn bold_brightens_and_reverse_turns_around(rt: HostRuntime) -> Result<(), Fail> {
    let green = Rendition {
        bold: true,
        ink: Colour::Palette(2),
        ..Rendition::plain_on(Colour::Direct(1, 2, 3))
    };
    let bright = Paint::Fill(Rgb {
        red: 0x7f,
        green: 0xd9,
        blue: 0x7f,
    });
    let paper = Paint::Fill(Rgb {
        red: 1,
        green: 2,
        blue: 3,
    });
    assert_eq!(rt; (ink_paint(green), ground_paint(green)), (bright, paper));
    let turned = Rendition {
        reverse: true,
        ..green
    };
    assert_eq!(rt; (ink_paint(turned), ground_paint(turned)), (paper, bright));
    let plain = Rendition::plain_on(Colour::Default);
    assert_eq!(rt;
        (ink_paint(plain), ground_paint(plain)),
        (Paint::Ink, Paint::Back)
    );
    Ok(())
}
