//! The outlines of the characters that are drawn, written by assets/make_outlines.py.

ghost use Rattle.std.specs.Prelude.{◌≡◌};
ghost use Rattle.xterm_rows.specs.OutlineTable.{
  block_23b,
  block_250,
  block_251,
  block_252,
  block_253,
  block_254,
  block_255,
  block_256,
  block_257,
  block_258,
  block_259,
  block_25c,
  block_e0b,
};
ghost use Rattle.xterm_rows.specs.Outlines.{outline_in};

/// The outline of a character from U+23B0 to U+23BF; nothing where it has none.
#[tactic(auto, unfolding(crate::specs::OutlineTable::block_23b))]
pub(crate) fn outline_23b(character: char) -> &'static [u8]
    ensures { result.now ≡ outline_in block_23b character }
{
    match character {
        '\u{23ba}' => b"m0 1h10v2h-10z", // ⎺
        '\u{23bb}' => b"m0 5h10v2h-10z", // ⎻
        '\u{23bc}' => b"m0 13h10v2h-10z", // ⎼
        '\u{23bd}' => b"m0 17h10v2h-10z", // ⎽
        _ => b"",
    }
}

/// The outline of a character from U+2500 to U+250F; nothing where it has none.
#[tactic(auto, unfolding(crate::specs::OutlineTable::block_250))]
pub(crate) fn outline_250(character: char) -> &'static [u8]
    ensures { result.now ≡ outline_in block_250 character }
{
    match character {
        '\u{2500}' => b"m0 9h10v2h-10z", // ─
        '\u{2501}' => b"m0 8h10v4h-10z", // ━
        '\u{2502}' => b"m4 0h2v20h-2z", // │
        '\u{2503}' => b"m3 0h4v20h-4z", // ┃
        '\u{2504}' => b"m1 9h2v2h-2zm3 0h2v2h-2zm3 0h2v2h-2z", // ┄
        '\u{2505}' => b"m1 8h2v4h-2zm3 0h2v4h-2zm3 0h2v4h-2z", // ┅
        '\u{2506}' => b"m4 1h2v4h-2zm0 7h2v4h-2zm0 7h2v4h-2z", // ┆
        '\u{2507}' => b"m3 1h4v4h-4zm0 7h4v4h-4zm0 7h4v4h-4z", // ┇
        '\u{2508}' => b"m.5 9h1.5v2h-1.5zm2.5 0h1.5v2h-1.5zm2.5 0h1.5v2h-1.5zm2.5 0h1.5v2h-1.5z", // ┈
        '\u{2509}' => b"m.5 8h1.5v4h-1.5zm2.5 0h1.5v4h-1.5zm2.5 0h1.5v4h-1.5zm2.5 0h1.5v4h-1.5z", // ┉
        '\u{250a}' => b"m4 1h2v3h-2zm0 5h2v3h-2zm0 5h2v3h-2zm0 5h2v3h-2z", // ┊
        '\u{250b}' => b"m3 1h4v3h-4zm0 5h4v3h-4zm0 5h4v3h-4zm0 5h4v3h-4z", // ┋
        '\u{250c}' => b"m4 9h6v2h-4v9h-2z", // ┌
        '\u{250d}' => b"m4 8h6v4h-4v8h-2z", // ┍
        '\u{250e}' => b"m3 9h7v2h-3v9h-4z", // ┎
        '\u{250f}' => b"m3 8h7v4h-3v8h-4z", // ┏
        _ => b"",
    }
}

/// The outline of a character from U+2510 to U+251F; nothing where it has none.
#[tactic(auto, unfolding(crate::specs::OutlineTable::block_251))]
pub(crate) fn outline_251(character: char) -> &'static [u8]
    ensures { result.now ≡ outline_in block_251 character }
{
    match character {
        '\u{2510}' => b"m0 9h6v11h-2v-9h-4z", // ┐
        '\u{2511}' => b"m0 8h6v12h-2v-8h-4z", // ┑
        '\u{2512}' => b"m0 9h7v11h-4v-9h-3z", // ┒
        '\u{2513}' => b"m0 8h7v12h-4v-8h-3z", // ┓
        '\u{2514}' => b"m4 0h2v9h4v2h-6z", // └
        '\u{2515}' => b"m4 0h2v8h4v4h-6z", // ┕
        '\u{2516}' => b"m3 0h4v9h3v2h-7z", // ┖
        '\u{2517}' => b"m3 0h4v8h3v4h-7z", // ┗
        '\u{2518}' => b"m0 9h4v-9h2v11h-6z", // ┘
        '\u{2519}' => b"m4 0h2v12h-6v-4h4z", // ┙
        '\u{251a}' => b"m3 0h4v11h-7v-2h3z", // ┚
        '\u{251b}' => b"m3 0h4v12h-7v-4h3z", // ┛
        '\u{251c}' => b"m4 0h2v9h4v2h-4v9h-2z", // ├
        '\u{251d}' => b"m4 0h2v8h4v4h-4v8h-2z", // ┝
        '\u{251e}' => b"m3 0h4v9h3v2h-4v9h-2v-9h-1z", // ┞
        '\u{251f}' => b"m4 0h2v9h4v2h-3v9h-4v-11h1z", // ┟
        _ => b"",
    }
}

/// The outline of a character from U+2520 to U+252F; nothing where it has none.
#[tactic(auto, unfolding(crate::specs::OutlineTable::block_252))]
pub(crate) fn outline_252(character: char) -> &'static [u8]
    ensures { result.now ≡ outline_in block_252 character }
{
    match character {
        '\u{2520}' => b"m3 0h4v9h3v2h-3v9h-4z", // ┠
        '\u{2521}' => b"m3 0h4v8h3v4h-4v8h-2v-8h-1z", // ┡
        '\u{2522}' => b"m4 0h2v8h4v4h-3v8h-4v-12h1z", // ┢
        '\u{2523}' => b"m3 0h4v8h3v4h-3v8h-4z", // ┣
        '\u{2524}' => b"m4 0h2v20h-2v-9h-4v-2h4z", // ┤
        '\u{2525}' => b"m4 0h2v20h-2v-8h-4v-4h4z", // ┥
        '\u{2526}' => b"m3 0h4v11h-1v9h-2v-9h-4v-2h3z", // ┦
        '\u{2527}' => b"m4 0h2v9h1v11h-4v-9h-3v-2h4z", // ┧
        '\u{2528}' => b"m3 0h4v20h-4v-9h-3v-2h3z", // ┨
        '\u{2529}' => b"m3 0h4v12h-1v8h-2v-8h-4v-4h3z", // ┩
        '\u{252a}' => b"m4 0h2v8h1v12h-4v-8h-3v-4h4z", // ┪
        '\u{252b}' => b"m3 0h4v20h-4v-8h-3v-4h3z", // ┫
        '\u{252c}' => b"m0 9h10v2h-4v9h-2v-9h-4z", // ┬
        '\u{252d}' => b"m0 8h6v1h4v2h-4v9h-2v-8h-4z", // ┭
        '\u{252e}' => b"m4 8h6v4h-4v8h-2v-9h-4v-2h4z", // ┮
        '\u{252f}' => b"m0 8h10v4h-4v8h-2v-8h-4z", // ┯
        _ => b"",
    }
}

/// The outline of a character from U+2530 to U+253F; nothing where it has none.
#[tactic(auto, unfolding(crate::specs::OutlineTable::block_253))]
pub(crate) fn outline_253(character: char) -> &'static [u8]
    ensures { result.now ≡ outline_in block_253 character }
{
    match character {
        '\u{2530}' => b"m0 9h10v2h-3v9h-4v-9h-3z", // ┰
        '\u{2531}' => b"m0 8h7v1h3v2h-3v9h-4v-8h-3z", // ┱
        '\u{2532}' => b"m3 8h7v4h-3v8h-4v-9h-3v-2h3z", // ┲
        '\u{2533}' => b"m0 8h10v4h-3v8h-4v-8h-3z", // ┳
        '\u{2534}' => b"m4 0h2v9h4v2h-10v-2h4z", // ┴
        '\u{2535}' => b"m4 0h2v9h4v2h-4v1h-6v-4h4z", // ┵
        '\u{2536}' => b"m4 0h2v8h4v4h-6v-1h-4v-2h4z", // ┶
        '\u{2537}' => b"m4 0h2v8h4v4h-10v-4h4z", // ┷
        '\u{2538}' => b"m3 0h4v9h3v2h-10v-2h3z", // ┸
        '\u{2539}' => b"m3 0h4v9h3v2h-3v1h-7v-4h3z", // ┹
        '\u{253a}' => b"m3 0h4v8h3v4h-7v-1h-3v-2h3z", // ┺
        '\u{253b}' => b"m3 0h4v8h3v4h-10v-4h3z", // ┻
        '\u{253c}' => b"m4 0h2v9h4v2h-4v9h-2v-9h-4v-2h4z", // ┼
        '\u{253d}' => b"m4 0h2v9h4v2h-4v9h-2v-8h-4v-4h4z", // ┽
        '\u{253e}' => b"m4 0h2v8h4v4h-4v8h-2v-9h-4v-2h4z", // ┾
        '\u{253f}' => b"m4 0h2v8h4v4h-4v8h-2v-8h-4v-4h4z", // ┿
        _ => b"",
    }
}

/// The outline of a character from U+2540 to U+254F; nothing where it has none.
#[tactic(auto, unfolding(crate::specs::OutlineTable::block_254))]
pub(crate) fn outline_254(character: char) -> &'static [u8]
    ensures { result.now ≡ outline_in block_254 character }
{
    match character {
        '\u{2540}' => b"m3 0h4v9h3v2h-4v9h-2v-9h-4v-2h3z", // ╀
        '\u{2541}' => b"m4 0h2v9h4v2h-3v9h-4v-9h-3v-2h4z", // ╁
        '\u{2542}' => b"m3 0h4v9h3v2h-3v9h-4v-9h-3v-2h3z", // ╂
        '\u{2543}' => b"m3 0h4v9h3v2h-3v1h-1v8h-2v-8h-4v-4h3z", // ╃
        '\u{2544}' => b"m3 0h4v8h3v4h-4v8h-2v-8h-1v-1h-3v-2h3z", // ╄
        '\u{2545}' => b"m4 0h2v8h1v1h3v2h-3v9h-4v-8h-3v-4h4z", // ╅
        '\u{2546}' => b"m4 0h2v8h4v4h-3v8h-4v-9h-3v-2h3v-1h1z", // ╆
        '\u{2547}' => b"m3 0h4v8h3v4h-4v8h-2v-8h-4v-4h3z", // ╇
        '\u{2548}' => b"m4 0h2v8h4v4h-3v8h-4v-8h-3v-4h4z", // ╈
        '\u{2549}' => b"m3 0h4v9h3v2h-3v9h-4v-8h-3v-4h3z", // ╉
        '\u{254a}' => b"m3 0h4v8h3v4h-3v8h-4v-9h-3v-2h3z", // ╊
        '\u{254b}' => b"m3 0h4v8h3v4h-3v8h-4v-8h-3v-4h3z", // ╋
        '\u{254c}' => b"m1 9h3v2h-3zm5 0h3v2h-3z", // ╌
        '\u{254d}' => b"m1 8h3v4h-3zm5 0h3v4h-3z", // ╍
        '\u{254e}' => b"m4 2h2v6h-2zm0 10h2v6h-2z", // ╎
        '\u{254f}' => b"m3 2h4v6h-4zm0 10h4v6h-4z", // ╏
        _ => b"",
    }
}

/// The outline of a character from U+2550 to U+255F; nothing where it has none.
#[tactic(auto, unfolding(crate::specs::OutlineTable::block_255))]
pub(crate) fn outline_255(character: char) -> &'static [u8]
    ensures { result.now ≡ outline_in block_255 character }
{
    match character {
        '\u{2550}' => b"m0 7h10v2h-10zm0 4h10v2h-10z", // ═
        '\u{2551}' => b"m2 0h2v20h-2zm4 0h2v20h-2z", // ║
        '\u{2552}' => b"m4 7h6v2h-4v2h4v2h-4v7h-2z", // ╒
        '\u{2553}' => b"m2 9h8v2h-2v9h-2v-9h-2v9h-2z", // ╓
        '\u{2554}' => b"m2 7h8v2h-6v11h-2zm4 4h4v2h-2v7h-2z", // ╔
        '\u{2555}' => b"m0 7h6v13h-2v-7h-4v-2h4v-2h-4z", // ╕
        '\u{2556}' => b"m0 9h8v11h-2v-9h-2v9h-2v-9h-2z", // ╖
        '\u{2557}' => b"m0 7h8v13h-2v-11h-6zm0 4h4v9h-2v-7h-2z", // ╗
        '\u{2558}' => b"m4 0h2v7h4v2h-4v2h4v2h-6z", // ╘
        '\u{2559}' => b"m2 0h2v9h2v-9h2v9h2v2h-8z", // ╙
        '\u{255a}' => b"m2 0h2v11h6v2h-8zm4 0h2v7h2v2h-4z", // ╚
        '\u{255b}' => b"m4 0h2v13h-6v-2h4v-2h-4v-2h4z", // ╛
        '\u{255c}' => b"m2 0h2v9h2v-9h2v11h-8v-2h2z", // ╜
        '\u{255d}' => b"m2 0h2v9h-4v-2h2zm4 0h2v13h-8v-2h6z", // ╝
        '\u{255e}' => b"m4 0h2v7h4v2h-4v2h4v2h-4v7h-2z", // ╞
        '\u{255f}' => b"m2 0h2v20h-2zm4 0h2v9h2v2h-2v9h-2z", // ╟
        _ => b"",
    }
}

/// The outline of a character from U+2560 to U+256F; nothing where it has none.
#[tactic(auto, unfolding(crate::specs::OutlineTable::block_256))]
pub(crate) fn outline_256(character: char) -> &'static [u8]
    ensures { result.now ≡ outline_in block_256 character }
{
    match character {
        '\u{2560}' => b"m2 0h2v20h-2zm4 0h2v7h2v2h-4zm0 11h4v2h-2v7h-2z", // ╠
        '\u{2561}' => b"m4 0h2v20h-2v-7h-4v-2h4v-2h-4v-2h4z", // ╡
        '\u{2562}' => b"m2 0h2v20h-2v-9h-2v-2h2zm4 0h2v20h-2z", // ╢
        '\u{2563}' => b"m2 0h2v9h-4v-2h2zm4 0h2v20h-2zm-6 11h4v9h-2v-7h-2z", // ╣
        '\u{2564}' => b"m0 7h10v2h-10zm0 4h10v2h-4v7h-2v-7h-4z", // ╤
        '\u{2565}' => b"m0 9h10v2h-2v9h-2v-9h-2v9h-2v-9h-2z", // ╥
        '\u{2566}' => b"m0 7h10v2h-10zm0 4h4v9h-2v-7h-2zm6 0h4v2h-2v7h-2z", // ╦
        '\u{2567}' => b"m4 0h2v7h4v2h-10v-2h4zm-4 11h10v2h-10z", // ╧
        '\u{2568}' => b"m2 0h2v9h2v-9h2v9h2v2h-10v-2h2z", // ╨
        '\u{2569}' => b"m2 0h2v9h-4v-2h2zm4 0h2v7h2v2h-4zm-6 11h10v2h-10z", // ╩
        '\u{256a}' => b"m4 0h2v7h4v2h-4v2h4v2h-4v7h-2v-7h-4v-2h4v-2h-4v-2h4z", // ╪
        '\u{256b}' => b"m2 0h2v9h2v-9h2v9h2v2h-2v9h-2v-9h-2v9h-2v-9h-2v-2h2z", // ╫
        '\u{256c}' => b"m2 0h2v9h-4v-2h2zm4 0h2v7h2v2h-4zm-6 11h4v9h-2v-7h-2zm6 0h4v2h-2v7h-2z", // ╬
        '\u{256d}' => b"m4 20v-5q0-6 6-6v2q-4 0-4 4v5z", // ╭
        '\u{256e}' => b"m0 9q6 0 6 6v5h-2v-5q0-4-4-4z", // ╮
        '\u{256f}' => b"m0 9q4 0 4-4v-5h2v5q0 6-6 6z", // ╯
        _ => b"",
    }
}

/// The outline of a character from U+2570 to U+257F; nothing where it has none.
#[tactic(auto, unfolding(crate::specs::OutlineTable::block_257))]
pub(crate) fn outline_257(character: char) -> &'static [u8]
    ensures { result.now ≡ outline_in block_257 character }
{
    match character {
        '\u{2570}' => b"m4 0h2v5q0 4 4 4v2q-6 0-6-6z", // ╰
        '\u{2571}' => b"m9 0h2l-10 20h-2z", // ╱
        '\u{2572}' => b"m-1 0h2l10 20h-2z", // ╲
        '\u{2573}' => b"m9 0h2l-10 20h-2zm-10 0h2l10 20h-2z", // ╳
        '\u{2574}' => b"m0 9h5v2h-5z", // ╴
        '\u{2575}' => b"m4 0h2v10h-2z", // ╵
        '\u{2576}' => b"m5 9h5v2h-5z", // ╶
        '\u{2577}' => b"m4 10h2v10h-2z", // ╷
        '\u{2578}' => b"m0 8h5v4h-5z", // ╸
        '\u{2579}' => b"m3 0h4v10h-4z", // ╹
        '\u{257a}' => b"m5 8h5v4h-5z", // ╺
        '\u{257b}' => b"m3 10h4v10h-4z", // ╻
        '\u{257c}' => b"m5 8h5v4h-5v-1h-5v-2h5z", // ╼
        '\u{257d}' => b"m4 0h2v10h1v10h-4v-10h1z", // ╽
        '\u{257e}' => b"m0 8h5v1h5v2h-5v1h-5z", // ╾
        '\u{257f}' => b"m3 0h4v10h-1v10h-2v-10h-1z", // ╿
        _ => b"",
    }
}

/// The outline of a character from U+2580 to U+258F; nothing where it has none.
#[tactic(auto, unfolding(crate::specs::OutlineTable::block_258))]
pub(crate) fn outline_258(character: char) -> &'static [u8]
    ensures { result.now ≡ outline_in block_258 character }
{
    match character {
        '\u{2580}' => b"m0 0h10v10h-10z", // ▀
        '\u{2581}' => b"m0 17.5h10v2.5h-10z", // ▁
        '\u{2582}' => b"m0 15h10v5h-10z", // ▂
        '\u{2583}' => b"m0 12.5h10v7.5h-10z", // ▃
        '\u{2584}' => b"m0 10h10v10h-10z", // ▄
        '\u{2585}' => b"m0 7.5h10v12.5h-10z", // ▅
        '\u{2586}' => b"m0 5h10v15h-10z", // ▆
        '\u{2587}' => b"m0 2.5h10v17.5h-10z", // ▇
        '\u{2588}' => b"m0 0h10v20h-10z", // █
        '\u{2589}' => b"m0 0h8.75v20h-8.75z", // ▉
        '\u{258a}' => b"m0 0h7.5v20h-7.5z", // ▊
        '\u{258b}' => b"m0 0h6.25v20h-6.25z", // ▋
        '\u{258c}' => b"m0 0h5v20h-5z", // ▌
        '\u{258d}' => b"m0 0h3.75v20h-3.75z", // ▍
        '\u{258e}' => b"m0 0h2.5v20h-2.5z", // ▎
        '\u{258f}' => b"m0 0h1.25v20h-1.25z", // ▏
        _ => b"",
    }
}

/// The outline of a character from U+2590 to U+259F; nothing where it has none.
#[tactic(auto, unfolding(crate::specs::OutlineTable::block_259))]
pub(crate) fn outline_259(character: char) -> &'static [u8]
    ensures { result.now ≡ outline_in block_259 character }
{
    match character {
        '\u{2590}' => b"m5 0h5v20h-5z", // ▐
        '\u{2591}' => b"m0 0h5v5h-5zm5 10h5v5h-5z", // ░
        '\u{2592}' => b"m0 0h5v5h-5zm5 5h5v5h-5zm-5 5h5v5h-5zm5 5h5v5h-5z", // ▒
        '\u{2593}' => b"m0 0h10v5h-5v5h5v10h-5v-5h-5z", // ▓
        '\u{2594}' => b"m0 0h10v2.5h-10z", // ▔
        '\u{2595}' => b"m8.75 0h1.25v20h-1.25z", // ▕
        '\u{2596}' => b"m0 10h5v10h-5z", // ▖
        '\u{2597}' => b"m5 10h5v10h-5z", // ▗
        '\u{2598}' => b"m0 0h5v10h-5z", // ▘
        '\u{2599}' => b"m0 0h5v10h5v10h-10z", // ▙
        '\u{259a}' => b"m0 0h5v10h-5zm5 10h5v10h-5z", // ▚
        '\u{259b}' => b"m0 0h10v10h-5v10h-5z", // ▛
        '\u{259c}' => b"m0 0h10v20h-5v-10h-5z", // ▜
        '\u{259d}' => b"m5 0h5v10h-5z", // ▝
        '\u{259e}' => b"m5 0h5v10h-5zm-5 10h5v10h-5z", // ▞
        '\u{259f}' => b"m5 0h5v20h-10v-10h5z", // ▟
        _ => b"",
    }
}

/// The outline of a character from U+25C0 to U+25CF; nothing where it has none.
#[tactic(auto, unfolding(crate::specs::OutlineTable::block_25c))]
pub(crate) fn outline_25c(character: char) -> &'static [u8]
    ensures { result.now ≡ outline_in block_25c character }
{
    match character {
        '\u{25c6}' => b"m5 5l4 5-4 5-4-5z", // ◆
        _ => b"",
    }
}

/// The outline of a character from U+E0B0 to U+E0BF; nothing where it has none.
#[tactic(auto, unfolding(crate::specs::OutlineTable::block_e0b))]
pub(crate) fn outline_e0b(character: char) -> &'static [u8]
    ensures { result.now ≡ outline_in block_e0b character }
{
    match character {
        '\u{e0b0}' => b"m0 0l10 10-10 10z", // an arrow of prompts
        '\u{e0b1}' => b"m0 0h2l8 10-8 10h-2l8-10z", // an arrow of prompts
        '\u{e0b2}' => b"m10 0v20l-10-10z", // an arrow of prompts
        '\u{e0b3}' => b"m8 0h2l-8 10 8 10h-2l-8-10z", // an arrow of prompts
        _ => b"",
    }
}
