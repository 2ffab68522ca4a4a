//! Written by assets/make_page.py of the files beside it; edit those, and run it with --write.

/// What stands before the title of a page.
pub(crate) const HEAD: &str = r#"<!DOCTYPE html>
<html lang="en">
<head>
<meta charset="utf-8">
<meta http-equiv="Content-Security-Policy" content="default-src 'none'; style-src 'sha256-/gduD0c4fp628CuUCF79P08mE9Bz7IVzaASm/PA91uM=' 'sha256-41ZjWXbLzhTafYEyERDbGKbMVNxsK3OwEvW/XNHXbgg=' 'sha256-TyIR+bqr2yFmwvNy/CexORdVWbfdkMu0BcA5BIMPLns=' 'sha256-01PLkxmEMkI+3llU6tB//ucNTih+KsYuSReYs88QKVE='; script-src 'sha256-l7VmH81hsBCtZO8Hlos8Vp01ozwnSyJ8NMgfvkae11w='; form-action 'none'; base-uri 'none'">
<meta name="viewport" content="width=device-width, initial-scale=1">
<title>"#;

/// What stands between the title and the same as a heading.
pub(crate) const MIDDLE: &str = r#"</title>
<style id="drawing">text{font:16.67px 'DejaVu Sans Mono',Menlo,Consolas,'Liberation Mono',monospace;white-space:pre}path{shape-rendering:crispEdges}.i{fill:#ddd}.p{fill:#111}.b{font-weight:bold}.n{fill:none}.k{animation:k 1s step-end infinite}@keyframes k{50%{opacity:.2}}@media print{.i{fill:#111}.p{fill:#fff}}@media print,(prefers-reduced-motion:reduce){.k{animation:none}}</style>
<style id="today">text{font:16.67px 'DejaVu Sans Mono',Menlo,Consolas,'Liberation Mono',monospace;white-space:pre}path{shape-rendering:crispEdges}g:last-child path{shape-rendering:auto}tspan{unicode-bidi:isolate-override}.i{fill:#ddd}.p{fill:#111}.b{font-weight:bold}.t{font-style:italic}.n{fill:none}.k{animation:k 1s step-end infinite}@keyframes k{50%{opacity:.2}}@media print,(prefers-reduced-motion:reduce){.k{animation:none}}</style>
<style>
:root {
  color-scheme: light dark;
  --page: light-dark(#f4f6f8, #15171c);
  --card: light-dark(#ffffff, #1e2127);
  --text: light-dark(#1a1c20, #e6e8ec);
  --quiet: light-dark(#5b6068, #a3a9b3);
  --line: light-dark(#d3d7dd, #3a404a);
  --accent: light-dark(#1d5fd1, #6ea8ff);
  --found: light-dark(#b27300, #d99a2b);
  font: 100%/1.4 system-ui, sans-serif;
}
body { margin: 0; background: var(--page); color: var(--text); }
main { max-width: 1040px; margin: 0 auto; padding: 1rem; }
[hidden] { display: none !important; }
header { display: flex; align-items: baseline; gap: .75rem; margin: .5rem 0; }
h1 { font-size: 1.1rem; margin: 0; }
#facts, #now, #found, #answer { color: var(--quiet); font-size: .85rem; margin: 0; }
#theme { margin-left: auto; align-self: center; }
figure { position: relative; margin: 0; border-radius: 10px; overflow: hidden; background: #111; }
figure, #under { box-shadow: 0 4px 16px #0004; }
#screen svg { display: block; width: 100%; height: auto; }
/* Where no text runs from right to left nothing is isolated: it looks the same, and is laid out in less time. */
#screen:not(.turned) tspan { unicode-bidi: normal; }
#sketch { display: none; position: absolute; inset: 0; width: 100%; height: 100%; pointer-events: none; }
@media screen {
  .sketched #sketch { display: block; }
  .sketched #screen text { display: none; }
}
#poster { position: absolute; inset: 0; width: 100%; height: 100%; border-radius: 0; background: #0004; }
#poster svg { width: 96px; height: 96px; fill: #fff; }
#poster circle { fill: #111; stroke: #fff; stroke-width: 2; }
#length { position: absolute; right: 1rem; bottom: 1rem; padding: .1rem .5rem; border-radius: 5px; }
#length, #under { background: #111; color: #fff; font: .8rem monospace; }
.begun #poster { display: none; }
#card { margin-top: .75rem; padding: .5rem .9rem; border: 1px solid var(--line); border-radius: 10px; background: var(--card); }

/* The strip is the slider: its thumb is 16 pixels wide, so the rails begin and end 8 pixels inside. */
#strip { position: relative; height: 32px; }
.rail { position: absolute; left: 8px; width: calc(100% - 16px); height: 100%; fill: none; }
.rail path { stroke: var(--line); stroke-width: 4px; vector-effect: non-scaling-stroke; shape-rendering: auto; }
#idles { stroke-opacity: .45; }
#done path { stroke: var(--accent); }
#idlesDone { stroke-opacity: .45; }
.rail #marks { stroke: var(--found); stroke-width: 2px; }
#time { position: absolute; width: 100%; height: 100%; margin: 0; appearance: none; background: none; cursor: pointer; }
#time::-webkit-slider-thumb { appearance: none; width: 16px; height: 16px; border-radius: 8px; background: var(--accent); }
#time::-moz-range-thumb { width: 16px; height: 16px; border: 0; border-radius: 8px; background: var(--accent); }
#under { position: absolute; bottom: 100%; transform: translateX(-50%); padding: .1rem .4rem; border-radius: 5px; }
#under { pointer-events: none; }

#bar, #finder { display: flex; flex-wrap: wrap; gap: .25rem .4rem; align-items: center; margin: .25rem 0; }
.space { flex: 1; }
#now { font-variant-numeric: tabular-nums; margin: 0 .5rem; }
#clock { color: var(--text); }
button { min-width: 32px; min-height: 32px; padding: 4px; border: 0; border-radius: 6px; background: none; color: inherit; cursor: pointer; }
button svg { display: block; width: 22px; height: 22px; margin: auto; fill: currentColor; }
button path { shape-rendering: auto; }
button:hover, summary:hover { background: color-mix(in srgb, var(--accent) 14%, transparent); }
select, #text { min-height: 32px; font: inherit; font-size: .9rem; color: inherit; background: var(--card); }
select, #text { border: 1px solid var(--line); border-radius: 6px; }
#text { flex: 1 1 12rem; padding: 0 .6rem; }
#text::placeholder { color: var(--quiet); opacity: 1; }
#moments { max-height: 14rem; overflow: auto; margin: 0; padding: 0; list-style: none; }
#moments button { display: flex; gap: .8rem; width: 100%; text-align: left; font: .85rem monospace; }
#moments button[aria-current] { background: color-mix(in srgb, var(--accent) 22%, transparent); }
.moment { color: var(--quiet); }
.row { flex: 1; min-width: 0; white-space: pre; overflow: hidden; text-overflow: ellipsis; }
mark { background: var(--found); color: #111; border-radius: 2px; }
summary { display: inline-block; padding: .25rem .4rem; border-radius: 6px; font-size: .85rem; color: var(--quiet); cursor: pointer; }
dl { display: grid; grid-template-columns: 8rem auto; gap: .25rem; font-size: .9rem; }
dt { font-family: monospace; }
dd { margin: 0; }
#told { position: absolute; width: 1px; height: 1px; overflow: hidden; clip-path: inset(50%); }
:focus-visible { outline: 2px solid var(--accent); outline-offset: 2px; }

/* The screen fills the window. */
main.filled { display: flex; flex-direction: column; box-sizing: border-box; max-width: none; height: 100vh; padding: 0; }
.filled header, .filled #moments, .filled details { display: none; }
.filled figure { flex: 1; min-height: 0; border-radius: 0; }
.filled #screen, .filled #screen svg { height: 100%; }
.filled #card { margin: 0; border-radius: 0; }

@media (pointer: coarse) { button, select, #text { min-width: 44px; min-height: 44px; } }
@media (max-width: 480px) {
  main { padding: .5rem; }
  #text { flex-basis: 100%; }
  .space { display: none; }
}
@media print {
  #poster, #card, #theme { display: none; }
  figure { box-shadow: none; background: none; }
}
</style>
<noscript><style>
/* Without a script the page is its heading, a sentence, and the data as text. */
#player[hidden] { display: block !important; }
#player > :not(header), #theme { display: none; }
noscript p, #entries { width: calc(100% - 2rem); max-width: 1008px; margin: 0 auto 1rem; }
#entries {
  box-sizing: border-box;
  display: block;
  max-height: 70vh;
  padding: .75rem 1rem;
  overflow: auto;
  border: 1px solid var(--line);
  border-radius: 10px;
  background: var(--card);
  font: .85rem/1.5 monospace;
  white-space: pre-wrap;
  overflow-wrap: anywhere;
}
@media print { #entries { max-height: none; overflow: visible; } }
</style></noscript>
</head>
<body>
<main id="player" hidden>
<header>
<h1>"#;

/// What stands between the heading and the data.
pub(crate) const REST: &str = r#"</h1>
<p id="facts"></p>
<button id="theme" type="button" aria-label="Dark or light" title="Dark or light"><svg viewBox="0 0 24 24" aria-hidden="true"><path d="M20 14.5A8.5 8.5 0 0 1 9.5 4a8.5 8.5 0 1 0 10.5 10.5z"/></svg></button>
</header>
<figure id="figure">
<div id="screen"></div>
<canvas id="sketch" aria-hidden="true"></canvas>
<button id="poster" type="button" aria-label="Play the recording"><svg viewBox="0 0 96 96" aria-hidden="true"><circle cx="48" cy="48" r="47"/><path d="M39 33v30l25-15z"/></svg><span id="length"></span></button>
</figure>
<section id="card" aria-label="Player">
<div id="strip">
<svg class="rail" aria-hidden="true" viewBox="0 0 1000 32" preserveAspectRatio="none"><path id="busy"/><path id="idles"/></svg>
<svg id="done" class="rail" aria-hidden="true" viewBox="0 0 1000 32" preserveAspectRatio="none"><path id="busyDone"/><path id="idlesDone"/></svg>
<svg class="rail" aria-hidden="true" viewBox="0 0 1000 32" preserveAspectRatio="none"><path id="marks"/></svg>
<input id="time" type="range" min="0" value="0" step="any" aria-label="Moment" aria-describedby="now">
<span id="under" aria-hidden="true" hidden></span>
</div>
<div id="bar">
<button id="play" type="button" aria-label="Play" title="Play (space)"><svg viewBox="0 0 24 24" aria-hidden="true"><path id="playIcon" d="M8 5v14l11-7z"/></svg></button>
<button id="back" type="button" aria-label="Chunk back" title="Chunk back (,)"><svg viewBox="0 0 24 24" aria-hidden="true"><path d="M6 6h2v12H6zm12 0v12l-8.5-6z"/></svg></button>
<button id="on" type="button" aria-label="Chunk on" title="Chunk on (.)"><svg viewBox="0 0 24 24" aria-hidden="true"><path d="M6 6v12l8.5-6zm10 0h2v12h-2z"/></svg></button>
<p id="now"><span id="clock"></span> <span id="count"></span></p>
<span class="space"></span>
<output id="answer"></output>
<select id="speed" aria-label="Speed" title="Speed (&lt; &gt;)">
<option value="0.5">0.5x</option><option value="1" selected>1x</option><option value="2">2x</option><option value="4">4x</option><option value="8">8x</option><option value="16">16x</option>
</select>
<select id="idle" aria-label="Idle at most" title="The longest wait while playing">
<option value="0.5">idle at most 0.5 s</option><option value="1">idle at most 1 s</option><option value="2" selected>idle at most 2 s</option><option value="5">idle at most 5 s</option><option value="Infinity">idle as recorded</option>
</select>
<button id="copy" type="button" aria-label="Copy text" title="Copy the text of the screen (c)"><svg viewBox="0 0 24 24" aria-hidden="true"><path fill-rule="evenodd" d="M5 7H3v14h12v-2H5zm3-4h13v14H8zm2 2v10h9V5z"/></svg></button>
<button id="link" type="button" aria-label="Copy link" title="Copy a link to this moment (l)"><svg viewBox="0 0 24 24" aria-hidden="true"><path d="M10.6 13.4a1 1 0 0 0 1.4 1.4l5.3-5.3a3.5 3.5 0 1 0-5-5L10 6.8l1.4 1.4 2.3-2.3a1.5 1.5 0 1 1 2.1 2.1l-5.2 5.4zm2.8-2.8a1 1 0 0 0-1.4-1.4l-5.3 5.3a3.5 3.5 0 1 0 5 5l2.3-2.3-1.4-1.4-2.3 2.3a1.5 1.5 0 1 1-2.1-2.1z"/></svg></button>
<button id="save" type="button" aria-label="Save picture" title="Save the picture of this moment (s)"><svg viewBox="0 0 24 24" aria-hidden="true"><path fill-rule="evenodd" d="M9 4L7.2 6H3v14h18V6h-4.2L15 4zm3 4.5a4.5 4.5 0 1 1 0 9 4.5 4.5 0 0 1 0-9zm0 2a2.5 2.5 0 1 0 0 5 2.5 2.5 0 0 0 0-5z"/></svg></button>
<button id="fill" type="button" aria-label="Fill the window" title="Fill the window (f)"><svg viewBox="0 0 24 24" aria-hidden="true"><path d="M4 4h6v2H6v4H4zm10 0h6v6h-2V6h-4zM4 14h2v4h4v2H4zm14 0h2v6h-6v-2h4z"/></svg></button>
</div>
<form id="finder" role="search">
<input id="text" type="search" autocomplete="off" spellcheck="false" aria-label="Text on the screen" placeholder="Find on the screens, as / does">
<output id="found"></output>
<button id="previous" type="button" aria-label="Found moment before" title="Found moment before (N)"><svg viewBox="0 0 24 24" aria-hidden="true"><path d="M6 15l6-6 6 6z"/></svg></button>
<button id="next" type="button" aria-label="Next found moment" title="Next found moment (n)"><svg viewBox="0 0 24 24" aria-hidden="true"><path d="M6 9l6 6 6-6z"/></svg></button>
</form>
<ol id="moments"></ol>
<details>
<summary>Keys</summary>
<dl>
<dt>space, k</dt><dd>play, pause; so does a click on the screen</dd>
<dt>left, right</dt><dd>5 seconds back, on</dd>
<dt>, .</dt><dd>one chunk back, on</dd>
<dt>0 to 9</dt><dd>that many tenths of the recording</dd>
<dt>home, end</dt><dd>the beginning, the end</dd>
<dt>&lt; &gt;</dt><dd>slower, faster</dd>
<dt>/</dt><dd>find; n, N: the next found moment, the one before</dd>
<dt>f</dt><dd>fill the window, and leave it; so does a double click</dd>
<dt>c, l, s</dt><dd>copy the text, copy a link, save the picture</dd>
</dl>
<p>The address shows the moment: <code>#t=12.5</code> is 12.5 seconds, <code>#n=70</code> the screen after 70 chunks,
<code>#chunk=69</code> the one after the chunk that <code>typetool find</code> calls 69. What is found here stood on the
screen between two chunks; <code>typetool find</code> looks at every byte.</p>
</details>
</section>
<p id="told" role="status"></p>
</main>
<noscript><p>This page holds a terminal recording that was written by <code>typetool page</code>, and plays it by a
script; scripts are switched off here. What it plays stands below as text, a line for each piece of output; the first
line with text in quotes is the first screen. Each begins with the seconds, two flags as a number, and line and column
of the cursor. Then comes, for each row of the screen that changed, its number and its text between quotes, or the
number of the row that it was before. <code>typetool screen --at SECONDS</code> writes any of these screens plainly,
from the recording that the page was made of.</p></noscript>
<script type="application/json" id="entries">
"#;

/// What stands behind the data.
pub(crate) const TAIL: &str = r#"
</script>
<script>
'use strict';
/* exported OUTLINES */

// The outlines of the characters that are drawn, written by assets/make_outlines.py.
const OUTLINES = {
  '⎺': 'm0 1h10v2h-10z', '⎻': 'm0 5h10v2h-10z', '⎼': 'm0 13h10v2h-10z', '⎽': 'm0 17h10v2h-10z', '─': 'm0 9h10v2h-10z',
  '━': 'm0 8h10v4h-10z', '│': 'm4 0h2v20h-2z', '┃': 'm3 0h4v20h-4z', '┄': 'm1 9h2v2h-2zm3 0h2v2h-2zm3 0h2v2h-2z',
  '┅': 'm1 8h2v4h-2zm3 0h2v4h-2zm3 0h2v4h-2z', '┆': 'm4 1h2v4h-2zm0 7h2v4h-2zm0 7h2v4h-2z',
  '┇': 'm3 1h4v4h-4zm0 7h4v4h-4zm0 7h4v4h-4z',
  '┈': 'm.5 9h1.5v2h-1.5zm2.5 0h1.5v2h-1.5zm2.5 0h1.5v2h-1.5zm2.5 0h1.5v2h-1.5z',
  '┉': 'm.5 8h1.5v4h-1.5zm2.5 0h1.5v4h-1.5zm2.5 0h1.5v4h-1.5zm2.5 0h1.5v4h-1.5z',
  '┊': 'm4 1h2v3h-2zm0 5h2v3h-2zm0 5h2v3h-2zm0 5h2v3h-2z', '┋': 'm3 1h4v3h-4zm0 5h4v3h-4zm0 5h4v3h-4zm0 5h4v3h-4z',
  '┌': 'm4 9h6v2h-4v9h-2z', '┍': 'm4 8h6v4h-4v8h-2z', '┎': 'm3 9h7v2h-3v9h-4z', '┏': 'm3 8h7v4h-3v8h-4z',
  '┐': 'm0 9h6v11h-2v-9h-4z', '┑': 'm0 8h6v12h-2v-8h-4z', '┒': 'm0 9h7v11h-4v-9h-3z', '┓': 'm0 8h7v12h-4v-8h-3z',
  '└': 'm4 0h2v9h4v2h-6z', '┕': 'm4 0h2v8h4v4h-6z', '┖': 'm3 0h4v9h3v2h-7z', '┗': 'm3 0h4v8h3v4h-7z',
  '┘': 'm0 9h4v-9h2v11h-6z', '┙': 'm4 0h2v12h-6v-4h4z', '┚': 'm3 0h4v11h-7v-2h3z', '┛': 'm3 0h4v12h-7v-4h3z',
  '├': 'm4 0h2v9h4v2h-4v9h-2z', '┝': 'm4 0h2v8h4v4h-4v8h-2z', '┞': 'm3 0h4v9h3v2h-4v9h-2v-9h-1z',
  '┟': 'm4 0h2v9h4v2h-3v9h-4v-11h1z', '┠': 'm3 0h4v9h3v2h-3v9h-4z', '┡': 'm3 0h4v8h3v4h-4v8h-2v-8h-1z',
  '┢': 'm4 0h2v8h4v4h-3v8h-4v-12h1z', '┣': 'm3 0h4v8h3v4h-3v8h-4z', '┤': 'm4 0h2v20h-2v-9h-4v-2h4z',
  '┥': 'm4 0h2v20h-2v-8h-4v-4h4z', '┦': 'm3 0h4v11h-1v9h-2v-9h-4v-2h3z', '┧': 'm4 0h2v9h1v11h-4v-9h-3v-2h4z',
  '┨': 'm3 0h4v20h-4v-9h-3v-2h3z', '┩': 'm3 0h4v12h-1v8h-2v-8h-4v-4h3z', '┪': 'm4 0h2v8h1v12h-4v-8h-3v-4h4z',
  '┫': 'm3 0h4v20h-4v-8h-3v-4h3z', '┬': 'm0 9h10v2h-4v9h-2v-9h-4z', '┭': 'm0 8h6v1h4v2h-4v9h-2v-8h-4z',
  '┮': 'm4 8h6v4h-4v8h-2v-9h-4v-2h4z', '┯': 'm0 8h10v4h-4v8h-2v-8h-4z', '┰': 'm0 9h10v2h-3v9h-4v-9h-3z',
  '┱': 'm0 8h7v1h3v2h-3v9h-4v-8h-3z', '┲': 'm3 8h7v4h-3v8h-4v-9h-3v-2h3z', '┳': 'm0 8h10v4h-3v8h-4v-8h-3z',
  '┴': 'm4 0h2v9h4v2h-10v-2h4z', '┵': 'm4 0h2v9h4v2h-4v1h-6v-4h4z', '┶': 'm4 0h2v8h4v4h-6v-1h-4v-2h4z',
  '┷': 'm4 0h2v8h4v4h-10v-4h4z', '┸': 'm3 0h4v9h3v2h-10v-2h3z', '┹': 'm3 0h4v9h3v2h-3v1h-7v-4h3z',
  '┺': 'm3 0h4v8h3v4h-7v-1h-3v-2h3z', '┻': 'm3 0h4v8h3v4h-10v-4h3z', '┼': 'm4 0h2v9h4v2h-4v9h-2v-9h-4v-2h4z',
  '┽': 'm4 0h2v9h4v2h-4v9h-2v-8h-4v-4h4z', '┾': 'm4 0h2v8h4v4h-4v8h-2v-9h-4v-2h4z',
  '┿': 'm4 0h2v8h4v4h-4v8h-2v-8h-4v-4h4z', '╀': 'm3 0h4v9h3v2h-4v9h-2v-9h-4v-2h3z',
  '╁': 'm4 0h2v9h4v2h-3v9h-4v-9h-3v-2h4z', '╂': 'm3 0h4v9h3v2h-3v9h-4v-9h-3v-2h3z',
  '╃': 'm3 0h4v9h3v2h-3v1h-1v8h-2v-8h-4v-4h3z', '╄': 'm3 0h4v8h3v4h-4v8h-2v-8h-1v-1h-3v-2h3z',
  '╅': 'm4 0h2v8h1v1h3v2h-3v9h-4v-8h-3v-4h4z', '╆': 'm4 0h2v8h4v4h-3v8h-4v-9h-3v-2h3v-1h1z',
  '╇': 'm3 0h4v8h3v4h-4v8h-2v-8h-4v-4h3z', '╈': 'm4 0h2v8h4v4h-3v8h-4v-8h-3v-4h4z',
  '╉': 'm3 0h4v9h3v2h-3v9h-4v-8h-3v-4h3z', '╊': 'm3 0h4v8h3v4h-3v8h-4v-9h-3v-2h3z',
  '╋': 'm3 0h4v8h3v4h-3v8h-4v-8h-3v-4h3z', '╌': 'm1 9h3v2h-3zm5 0h3v2h-3z', '╍': 'm1 8h3v4h-3zm5 0h3v4h-3z',
  '╎': 'm4 2h2v6h-2zm0 10h2v6h-2z', '╏': 'm3 2h4v6h-4zm0 10h4v6h-4z', '═': 'm0 7h10v2h-10zm0 4h10v2h-10z',
  '║': 'm2 0h2v20h-2zm4 0h2v20h-2z', '╒': 'm4 7h6v2h-4v2h4v2h-4v7h-2z', '╓': 'm2 9h8v2h-2v9h-2v-9h-2v9h-2z',
  '╔': 'm2 7h8v2h-6v11h-2zm4 4h4v2h-2v7h-2z', '╕': 'm0 7h6v13h-2v-7h-4v-2h4v-2h-4z',
  '╖': 'm0 9h8v11h-2v-9h-2v9h-2v-9h-2z', '╗': 'm0 7h8v13h-2v-11h-6zm0 4h4v9h-2v-7h-2z',
  '╘': 'm4 0h2v7h4v2h-4v2h4v2h-6z', '╙': 'm2 0h2v9h2v-9h2v9h2v2h-8z', '╚': 'm2 0h2v11h6v2h-8zm4 0h2v7h2v2h-4z',
  '╛': 'm4 0h2v13h-6v-2h4v-2h-4v-2h4z', '╜': 'm2 0h2v9h2v-9h2v11h-8v-2h2z', '╝': 'm2 0h2v9h-4v-2h2zm4 0h2v13h-8v-2h6z',
  '╞': 'm4 0h2v7h4v2h-4v2h4v2h-4v7h-2z', '╟': 'm2 0h2v20h-2zm4 0h2v9h2v2h-2v9h-2z',
  '╠': 'm2 0h2v20h-2zm4 0h2v7h2v2h-4zm0 11h4v2h-2v7h-2z', '╡': 'm4 0h2v20h-2v-7h-4v-2h4v-2h-4v-2h4z',
  '╢': 'm2 0h2v20h-2v-9h-2v-2h2zm4 0h2v20h-2z', '╣': 'm2 0h2v9h-4v-2h2zm4 0h2v20h-2zm-6 11h4v9h-2v-7h-2z',
  '╤': 'm0 7h10v2h-10zm0 4h10v2h-4v7h-2v-7h-4z', '╥': 'm0 9h10v2h-2v9h-2v-9h-2v9h-2v-9h-2z',
  '╦': 'm0 7h10v2h-10zm0 4h4v9h-2v-7h-2zm6 0h4v2h-2v7h-2z', '╧': 'm4 0h2v7h4v2h-10v-2h4zm-4 11h10v2h-10z',
  '╨': 'm2 0h2v9h2v-9h2v9h2v2h-10v-2h2z', '╩': 'm2 0h2v9h-4v-2h2zm4 0h2v7h2v2h-4zm-6 11h10v2h-10z',
  '╪': 'm4 0h2v7h4v2h-4v2h4v2h-4v7h-2v-7h-4v-2h4v-2h-4v-2h4z',
  '╫': 'm2 0h2v9h2v-9h2v9h2v2h-2v9h-2v-9h-2v9h-2v-9h-2v-2h2z',
  '╬': 'm2 0h2v9h-4v-2h2zm4 0h2v7h2v2h-4zm-6 11h4v9h-2v-7h-2zm6 0h4v2h-2v7h-2z', '╭': 'm4 20v-5q0-6 6-6v2q-4 0-4 4v5z',
  '╮': 'm0 9q6 0 6 6v5h-2v-5q0-4-4-4z', '╯': 'm0 9q4 0 4-4v-5h2v5q0 6-6 6z', '╰': 'm4 0h2v5q0 4 4 4v2q-6 0-6-6z',
  '╱': 'm9 0h2l-10 20h-2z', '╲': 'm-1 0h2l10 20h-2z', '╳': 'm9 0h2l-10 20h-2zm-10 0h2l10 20h-2z', '╴': 'm0 9h5v2h-5z',
  '╵': 'm4 0h2v10h-2z', '╶': 'm5 9h5v2h-5z', '╷': 'm4 10h2v10h-2z', '╸': 'm0 8h5v4h-5z', '╹': 'm3 0h4v10h-4z',
  '╺': 'm5 8h5v4h-5z', '╻': 'm3 10h4v10h-4z', '╼': 'm5 8h5v4h-5v-1h-5v-2h5z', '╽': 'm4 0h2v10h1v10h-4v-10h1z',
  '╾': 'm0 8h5v1h5v2h-5v1h-5z', '╿': 'm3 0h4v10h-1v10h-2v-10h-1z', '▀': 'm0 0h10v10h-10z', '▁': 'm0 17.5h10v2.5h-10z',
  '▂': 'm0 15h10v5h-10z', '▃': 'm0 12.5h10v7.5h-10z', '▄': 'm0 10h10v10h-10z', '▅': 'm0 7.5h10v12.5h-10z',
  '▆': 'm0 5h10v15h-10z', '▇': 'm0 2.5h10v17.5h-10z', '█': 'm0 0h10v20h-10z', '▉': 'm0 0h8.75v20h-8.75z',
  '▊': 'm0 0h7.5v20h-7.5z', '▋': 'm0 0h6.25v20h-6.25z', '▌': 'm0 0h5v20h-5z', '▍': 'm0 0h3.75v20h-3.75z',
  '▎': 'm0 0h2.5v20h-2.5z', '▏': 'm0 0h1.25v20h-1.25z', '▐': 'm5 0h5v20h-5z', '░': 'm0 0h5v5h-5zm5 10h5v5h-5z',
  '▒': 'm0 0h5v5h-5zm5 5h5v5h-5zm-5 5h5v5h-5zm5 5h5v5h-5z', '▓': 'm0 0h10v5h-5v5h5v10h-5v-5h-5z',
  '▔': 'm0 0h10v2.5h-10z', '▕': 'm8.75 0h1.25v20h-1.25z', '▖': 'm0 10h5v10h-5z', '▗': 'm5 10h5v10h-5z',
  '▘': 'm0 0h5v10h-5z', '▙': 'm0 0h5v10h5v10h-10z', '▚': 'm0 0h5v10h-5zm5 10h5v10h-5z', '▛': 'm0 0h10v10h-5v10h-5z',
  '▜': 'm0 0h10v20h-5v-10h-5z', '▝': 'm5 0h5v10h-5z', '▞': 'm5 0h5v10h-5zm-5 10h5v10h-5z', '▟': 'm5 0h5v20h-10v-10h5z',
  '◆': 'm5 5l4 5-4 5-4-5z', '\ue0b0': 'm0 0l10 10-10 10z', '\ue0b1': 'm0 0h2l8 10-8 10h-2l8-10z',
  '\ue0b2': 'm10 0v20l-10-10z', '\ue0b3': 'm8 0h2l-8 10 8 10h-2l-8-10z',
};

/* global OUTLINES */

// A recording's entries: [seconds, flags, line, column, row, change, row, change, ..], entry 0 before the first chunk
// and then one for each. The terminal's work is done: this folds rows and draws them. Before the entries of a terminal
// of today stands its size; a VT100 has 24 lines of 80 columns, or 132.
const data = document.getElementById('entries').textContent;
const entries = JSON.parse(data);
const TODAY = entries[0].length === 2;
const [COLUMNS, LINES] = TODAY ? entries.shift() : [80, 24];
const last = entries.length - 1;
const end = entries[last][0];
const EVERY = 64;
const SHOWN = 1000;
const WIDE = 1, REVERSED = 2, HIDDEN = 4;
const BOLD = 1, UNDERSCORE = 2, BLINK = 4, REVERSE = 8, DRAWN = 16, FAINT = 32, ITALIC = 64, CONCEALED = 128;
const CROSSED = 256, BROAD = 512, MARKED = 1024;
const SINGLE = 0, DOUBLE = 1;
// What characters and cells are painted with: the screen's ink, its ground, else a colour.
const INK = '', BACK = 'back';
const FIRST_COLOURS = [
  0x000000, 0xd64d4d, 0x3fa33f, 0xe0bc48, 0x3564c8, 0xb565b5, 0x3fb0b0, 0xcccccc,
  0x767676, 0xff8078, 0x7fd97f, 0xffe066, 0x8fb8ff, 0xe8a0e8, 0x7fe0e0, 0xffffff,
];
// Characters written from right to left, and those that turn others around.
const TURNED =
  /[\u0590-\u08ff\u200e\u200f\u202a-\u202e\u2066-\u2069\ufb1d-\ufdff\ufe70-\ufeff\ud802\ud803\ud83a\ud83b]/;
const LEVELS = [0x00, 0x5f, 0x87, 0xaf, 0xd7, 0xff];
const at = Object.fromEntries([...document.querySelectorAll('[id]')].map(element => [element.id, element]));

// ---- rows: [size, kind, text, kind, text, ..], today [0, kind, ink, ground, text, ..] without noughts before a text

// The rows after an entry, of those before it: a change is a row, or the number of the row that it was before.
function folded(rows, entry) {
  if (entry.length === 4) return rows;
  const after = rows.slice();
  for (let i = 4; i < entry.length; i += 2) {
    const change = entry[i + 1];
    after[entry[i] - 1] = typeof change === 'number' ? rows[change - 1] : change;
  }
  return after;
}

// The rows at every 64th entry, from which a seek folds on.
const kept = [];
{
  let rows = Array(LINES).fill([SINGLE]);
  entries.forEach((entry, n) => {
    rows = folded(rows, entry);
    if (n % EVERY === 0) kept.push(rows);
  });
}

function rowsAt(count) {
  let rows = kept[Math.floor(count / EVERY)];
  for (let n = count - count % EVERY + 1; n <= count; n++) rows = folded(rows, entries[n]);
  return rows;
}

// How many chunks are due by a moment.
function dueBy(moment) {
  let low = 0, high = last;
  while (low < high) {
    const middle = Math.ceil((low + high) / 2);
    if (entries[middle][0] <= moment) low = middle;
    else high = middle - 1;
  }
  return low;
}

// How many columns the screen has.
function columnsOf(flags) {
  return flags & WIDE ? 132 : COLUMNS;
}

function textOf(row) {
  return row.filter(part => typeof part === 'string').join('');
}

// A text without the spaces at its end, and no other characters.
function trimmed(text) {
  let length = text.length;
  while (text[length - 1] === ' ') length--;
  return text.slice(0, length);
}

function plainText(rows) {
  return rows.map(row => trimmed(textOf(row)) + '\n').join('');
}

// The runs of a row: their kind and colours, their characters, each with its marks, of so many columns, and the columns
// before them and in them.
function runsOf(row) {
  const runs = [];
  let before = 0, numbers = [];
  for (const part of row.slice(1)) {
    if (typeof part === 'number') {
      numbers.push(part);
      continue;
    }
    const [kind = 0, ink = 0, ground = 0] = numbers;
    const characters = kind & MARKED ? [part] : [...part], step = kind & BROAD ? 2 : 1;
    const width = step * characters.length;
    runs.push({ kind, ink, ground, characters, step, before, width });
    [before, numbers] = [before + width, []];
  }
  return runs;
}

// ---- drawing

function draw(name, attributes, ...children) {
  const element = document.createElementNS('http://www.w3.org/2000/svg', name);
  for (const [key, value] of Object.entries(attributes)) if (value !== '') element.setAttribute(key, value);
  element.append(...children);
  return element;
}

// The palette: 16 colours, 216 of six levels of red, green and blue, and 24 greys.
function palette(n) {
  if (n < 16) return FIRST_COLOURS[n];
  if (n > 231) return 0x010101 * (8 + 10 * (n - 232));
  return [36, 6, 1].reduce((colour, unit) => 256 * colour + LEVELS[Math.floor((n - 16) / unit) % 6], 0);
}

// A colour by its number: 0 is the default, then come those of the palette, then red, green and blue.
function painted(number, usual) {
  if (number === 0) return usual;
  return '#' + (number > 256 ? number - 257 : palette(number - 1)).toString(16).padStart(6, '0');
}

// What a run is painted with, and what it stands on: the first eight colours are bright where they are bold.
function paintsOf({ kind, ink, ground }) {
  const bright = kind & BOLD && ink > 0 && ink < 9 ? 8 : 0;
  const paints = [painted(ink + bright, INK), painted(ground, BACK)];
  return kind & REVERSE ? paints.reverse() : paints;
}

// The attributes that these classes and a run's colour make.
function coloured(run, names, paper) {
  const [paint] = paintsOf(run);
  const classes = [...names, paint === BACK && paper].filter(Boolean).join(' ');
  return { class: classes, fill: paint === BACK ? '' : paint, 'fill-opacity': run.kind & FAINT ? '.7' : '' };
}

// A list of places serves only characters of one column and one UTF-16 unit that don't end a line.
function isAlone(character, kind) {
  return kind & BROAD || character.length > 1 || '\u00ad\u2028\u2029'.includes(character);
}

// No XML may have these two.
function allowed(text) {
  return text.replace(/[\ufffe\uffff]/g, '\ufffd');
}

// The characters of a run, in pieces that a list of places serves.
function piecesOf({ kind, characters, step, before }) {
  const pieces = [];
  characters.forEach((character, i) => {
    const alone = isAlone(character, kind), place = 10 * (before + step * i);
    if (i === 0 || alone || pieces.at(-1).alone) pieces.push({ alone, text: character, places: [place] });
    else {
      pieces.at(-1).text += character;
      pieces.at(-1).places.push(place);
    }
  });
  return pieces;
}

function letters(run, paper) {
  const { kind } = run;
  if (kind & CONCEALED) return [];
  const names = [kind & BOLD && 'b', kind & ITALIC && 't', kind & BLINK && 'k'];
  const drawn = { class: [...names, 'n'].filter(Boolean).join(' ') };
  const attributes = kind & DRAWN ? drawn : coloured(run, names, paper);
  return piecesOf(run).map(({ text, places }) => draw('tspan', { ...attributes, x: places.join(' ') }, allowed(text)));
}

// The dots of a Braille pattern, each told from the one before it.
function dots(pattern) {
  let told = '', left = 0, top = 0;
  for (let bit = 0; bit < 8; bit++) {
    if (!(pattern >> bit & 1)) continue;
    const x = [3, 4, 5, 7].includes(bit) ? 6 : 1, y = bit > 5 ? 16 : 1 + 5 * (bit % 3);
    told += `m${x - left}${y < top ? '' : ' '}${y - top}h3v3h-3z`;
    [left, top] = [x, y];
  }
  return told;
}

function outline(character) {
  return OUTLINES[character] || dots(character.charCodeAt(0) - 0x2800);
}

// The outlines of a run and its lines.
function strokes(run, paper) {
  const { kind, characters, before, width } = run;
  if (kind & CONCEALED || !(kind & (DRAWN | UNDERSCORE | CROSSED))) return [];
  const line = (y, high) => `M${10 * before} ${y}h${10 * width}v${high}h-${10 * width}z`;
  const outlines = characters.map((character, i) => `M${10 * (before + i)} 0${outline(character)}`);
  const drawn = kind & DRAWN ? outlines.join('') : '';
  const under = kind & UNDERSCORE ? line(17, TODAY ? 2 : 1) : '', through = kind & CROSSED ? line(9, 2) : '';
  return [draw('path', { ...coloured(run, [kind & BLINK && 'k'], paper), d: drawn + under + through })];
}

function framed(size, line, children) {
  const y = 20 * line;
  if (size === SINGLE) return draw('g', { transform: `translate(0 ${y})` }, ...children);
  if (size === DOUBLE) return draw('g', { transform: `matrix(2 0 0 1 0 ${y})` }, ...children);
  const box = `0 ${size === 2 ? 0 : 10} 660 10`;
  return draw('svg', { y, width: 1320, height: 20, viewBox: box }, ...children);
}

function drawnRow(size, runs, line, paper) {
  const spans = runs.flatMap(run => letters(run, paper));
  const text = runs.length ? [draw('text', { y: 15 }, ...spans)] : [];
  return framed(size, line, [...text, ...runs.flatMap(run => strokes(run, paper))]);
}

function square(line, before, width) {
  return `M${before} ${20 * line}h${width}v20h-${width}z`;
}

// The grounds of a VT100's row are part of one path: its reversed runs.
function pathOf(size, runs, line) {
  const step = size === SINGLE ? 10 : 20;
  return runs.filter(run => run.kind & REVERSE).map(run => square(line, step * run.before, step * run.width)).join('');
}

// Those of a row today are a path for each group of neighbours on one ground, but for the screen's.
function groundsOf(runs, line) {
  const groups = [];
  for (const run of runs) {
    const [, paint] = paintsOf(run), group = groups.at(-1);
    if (group && group.paint === paint) group.width += run.width;
    else groups.push({ paint, before: run.before, width: run.width });
  }
  return groups.filter(({ paint }) => paint !== BACK).map(({ paint, before, width }) =>
    draw('path', { fill: paint, d: square(line, 10 * before, 10 * width) }));
}

// Two rings on the cursor's cell, or round both of a character's.
function drawnCursor(row, flags, line, column, paper) {
  if (flags & HIDDEN) return framed(row[0], line - 1, []);
  const broad = runsOf(row).find(({ kind, before, width }) =>
    kind & BROAD && before < column && column <= before + width);
  const x = 10 * (broad ? column - 1 - (column - 1 - broad.before) % 2 : column - 1), wide = broad ? 20 : 10;
  const ring = (x, y, wide, high) => `M${x} ${y}h${wide}v${high}h-${wide}zm1 1v${high - 2}h${wide - 2}v-${high - 2}z`;
  const outer = draw('path', { class: paper, d: ring(x, 0, wide, 20) });
  const inner = draw('path', { d: ring(x + 1, 1, wide - 2, 18) });
  return framed(row[0], line - 1, [outer, inner]);
}

// What stands there: the rows that were drawn, their runs, elements and grounds, and the flags.
const shown = { count: -1, flags: null, rows: [], runs: [], elements: [], grounds: [], svg: null };

function drawFrame(flags) {
  const width = 10 * columnsOf(flags) + 20, height = 20 * LINES + 20;
  const [ink, paper] = flags & REVERSED ? ['p', 'i'] : ['i', 'p'];
  const box = `-10 -10 ${width} ${height}`;
  const back = draw('path', { class: paper, d: `M-10 -10h${width}v${height}h-${width}z` });
  shown.ground = draw(TODAY ? 'g' : 'path', {});
  shown.elements = Array.from({ length: LINES }, (_, line) => framed(SINGLE, line, []));
  shown.cursor = draw('g', {});
  shown.svg = draw('svg', { class: ink, viewBox: box, width, height, role: 'group', 'aria-label': 'Screen' },
    back, shown.ground, ...shown.elements, shown.cursor);
  shown.svg.setAttributeNS('http://www.w3.org/XML/1998/namespace', 'xml:space', 'preserve');
  shown.rows = Array(LINES).fill([SINGLE]);
  shown.runs = Array(LINES).fill([]);
  shown.grounds = Array(LINES).fill(TODAY ? [] : '');
  shown.flags = flags;
  at.screen.replaceChildren(shown.svg);
}

// A row as one text: rows that say the same are drawn the same.
const written = new WeakMap();

function writtenRow(row) {
  if (!written.has(row)) written.set(row, JSON.stringify(row));
  return written.get(row);
}

// By how many lines most rows moved: 0 and the three that serve most, rows that stand in many places left out.
function shifts(before, after) {
  const places = new Map(), tally = new Map([[0, 0]]);
  before.forEach((text, j) => {
    if (!places.has(text)) places.set(text, []);
    places.get(text).push(j);
  });
  after.forEach((text, i) => {
    const there = places.get(text) || [];
    if (there.length > 4) return;
    for (const j of there) tally.set(j - i, (tally.get(j - i) || 0) + 1);
  });
  return [...tally].sort((one, other) => other[1] - one[1]).slice(0, 4).map(([shift]) => shift).concat(0);
}

// The most numbers of a list, -1 aside, that rise: the places where they stand.
function rising(list) {
  const tails = [], from = [];
  list.forEach((number, i) => {
    if (number < 0) return;
    let k = tails.length;
    while (k > 0 && list[tails[k - 1]] >= number) k--;
    from[i] = k > 0 ? tails[k - 1] : -1;
    tails[k] = i;
  });
  const places = new Set();
  for (let i = tails.length ? tails.at(-1) : -1; i >= 0; i = from[i]) places.add(i);
  return places;
}

// For each row the place where it stood before, in an order that their elements keep, or -1 where it is drawn anew.
function standingRows(rows) {
  if (rows.every((row, i) => row === shown.rows[i])) return rows.map((_, i) => i);
  const before = shown.rows.map(writtenRow), after = rows.map(writtenRow), best = shifts(before, after);
  const wanted = after.map((text, i) => {
    const shift = best.find(shift => before[i + shift] === text);
    return shift === undefined ? -1 : i + shift;
  });
  const kept = rising(wanted);
  return wanted.map((place, i) => kept.has(i) ? place : -1);
}

// A row's element stands on another line.
function moveRow(element, size, line) {
  const y = 20 * line;
  if (size === SINGLE) element.setAttribute('transform', `translate(0 ${y})`);
  else if (size === DOUBLE) element.setAttribute('transform', `matrix(2 0 0 1 0 ${y})`);
  else element.setAttribute('y', y);
}

// Draws rows, anew those that stood nowhere; the others keep their elements. How many characters were drawn.
function drawRows(rows, paper) {
  const places = standingRows(rows), { runs, elements, grounds } = shown, stays = new Set(places);
  elements.forEach((element, j) => { if (!stays.has(j)) element.remove(); });
  if (TODAY) grounds.forEach((paths, j) => { if (places[j] !== j) for (const path of paths) path.remove(); });
  shown.rows = rows;
  [shown.runs, shown.elements, shown.grounds] = [[], [], []];
  let next = shown.cursor, ground = null, fresh = 0;
  for (let i = LINES - 1; i >= 0; i--) {
    const [size] = rows[i], place = places[i], now = place < 0 ? runsOf(rows[i]) : runs[place];
    shown.runs[i] = now;
    shown.elements[i] = place < 0 ? drawnRow(size, now, i, paper) : elements[place];
    if (place < 0) {
      shown.svg.insertBefore(shown.elements[i], next);
      fresh += now.reduce((sum, run) => sum + run.characters.length, 0);
    } else if (place !== i) moveRow(elements[place], size, i);
    if (place === i) shown.grounds[i] = grounds[i];
    else {
      shown.grounds[i] = TODAY ? groundsOf(now, i) : pathOf(size, now, i);
      if (TODAY) for (const path of shown.grounds[i]) shown.ground.insertBefore(path, ground);
    }
    next = shown.elements[i];
    if (TODAY && shown.grounds[i].length) [ground] = shown.grounds[i];
  }
  if (!TODAY) shown.ground.setAttribute('d', shown.grounds.join(''));
  return fresh;
}

// Draws the screen of an entry; of its rows only those that don't stand there already.
function drawScreen(count) {
  if (count === shown.count) return;
  const [, flags, line, column] = entries[count];
  const rows = rowsAt(count);
  const paper = flags & REVERSED ? 'i' : 'p';
  if ((flags & ~HIDDEN) !== shown.flags) drawFrame(flags & ~HIDDEN);
  const fresh = drawRows(rows, paper);
  shown.count = count;
  const cursor = drawnCursor(rows[line - 1], flags, line, column, paper);
  shown.cursor.replaceWith(cursor);
  shown.cursor = cursor;
  sketchScreen(fresh);
}

// ---- a sketch while the screen moves

// A browser takes long for letters that have a place each. Where many are new all are hidden, and drawn on a canvas in
// their places, until no more screens come, or none with many for a second.
const MANY = 250, REST = 200;
const STYLE = (TODAY ? at.today : at.drawing).textContent;
const FONT = /font:([^;]*)/.exec(STYLE)[1];
const PAINTS = { i: /\.i{fill:(#\w+)/.exec(STYLE)[1], p: /\.p{fill:(#\w+)/.exec(STYLE)[1] };
const sketch = { pen: at.sketch.getContext('2d'), waiting: 0, box: { width: 0, height: 0 } };

function isSketched() {
  return at.figure.classList.contains('sketched');
}

// The letters themselves are shown again.
function rest() {
  clearTimeout(sketch.waiting);
  at.figure.classList.remove('sketched');
}

function sketchRun(pen, run, ink, back) {
  const { kind } = run, [paint] = paintsOf(run);
  if (kind & (CONCEALED | DRAWN)) return;
  pen.font = `${kind & ITALIC ? 'italic ' : ''}${kind & BOLD ? 'bold ' : ''}${FONT}`;
  pen.fillStyle = paint === INK ? ink : paint === BACK ? back : paint;
  pen.globalAlpha = kind & FAINT ? 0.7 : 1;
  for (const { text, places } of piecesOf(run)) {
    const whole = places.length === 1 || sketch.spacing !== undefined && /^[ -~]*$/.test(text);
    if (whole) pen.fillText(text, places[0], 15);
    else [...text].forEach((character, i) => pen.fillText(character, places[i], 15));
  }
}

// A row's letters; of letters of double height a half.
function sketchRow(pen, size, runs, line, scale, ink, back) {
  const wide = size === SINGLE ? 1 : 2, high = size > DOUBLE ? 2 : 1, up = size > 2 ? 20 : 0;
  pen.save();
  pen.translate(10 * scale, (10 + 20 * line) * scale);
  pen.scale(scale, scale);
  if (high > 1) {
    pen.beginPath();
    pen.rect(0, 0, 1320, 20);
    pen.clip();
  }
  pen.translate(0, -up);
  pen.scale(wide, high);
  for (const run of runs) sketchRun(pen, run, ink, back);
  pen.restore();
}

// The canvas has a pixel for each of the device's, of which it tells how many make one of the page.
function fitSketch() {
  const { box, pen, spacing } = sketch, dense = devicePixelRatio;
  const [width, height] = [box.width, box.height].map(length => Math.round(length * dense));
  if (at.sketch.width !== width) at.sketch.width = width;
  if (at.sketch.height !== height) at.sketch.height = height;
  if (spacing !== undefined) pen.letterSpacing = spacing;
  return dense;
}

function sketchScreen(fresh) {
  if (!isSketched() && (fresh < MANY || !at.figure.classList.contains('begun'))) return;
  const { pen, box: { width, height } } = sketch, dense = fitSketch();
  const wide = 10 * columnsOf(shown.flags) + 20, high = 20 * LINES + 20;
  const scale = Math.min(width / wide, height / high);
  const [ink, back] = shown.flags & REVERSED ? [PAINTS.p, PAINTS.i] : [PAINTS.i, PAINTS.p];
  pen.setTransform(1, 0, 0, 1, 0, 0);
  pen.clearRect(0, 0, at.sketch.width, at.sketch.height);
  pen.setTransform(dense, 0, 0, dense, dense * (width - wide * scale) / 2, dense * (height - high * scale) / 2);
  shown.rows.forEach(([size], i) => sketchRow(pen, size, shown.runs[i], i, scale, ink, back));
  at.figure.classList.add('sketched');
  if (fresh >= MANY) sketch.moved = performance.now();
  clearTimeout(sketch.waiting);
  sketch.waiting = setTimeout(rest, Math.min(REST, Math.max(0, sketch.moved + 5 * REST - performance.now())));
}

// What stands between letters so that they have 10 units each, where a canvas knows of that.
function readSketch() {
  const { pen } = sketch;
  pen.font = FONT;
  if (pen.letterSpacing !== undefined) sketch.spacing = `${10 - pen.measureText('m'.repeat(100)).width / 100}px`;
  new ResizeObserver(([{ contentRect }]) => {
    sketch.box = contentRect;
    sketchScreen(0);
  }).observe(at.screen);
}

// ---- the moment

// Where the player stands: a moment, and how many chunks are shown, which at one moment may be fewer than are due.
const place = { moment: 0, count: 0 };
const PLAY = 'M8 5v14l11-7z', PAUSE = 'M7 5h4v14H7zm6 0h4v14h-4z';

function clock(seconds) {
  const whole = Math.floor(seconds), two = number => String(number % 60).padStart(2, '0');
  const minutes = Math.floor(whole / 60);
  return whole < 3600 ? `${minutes}:${two(whole)}` : `${Math.floor(minutes / 60)}:${two(minutes)}:${two(whole)}`;
}

// A fraction of the recording, on rails that are 1,000 wide.
function railed(moment) {
  return end ? Math.round(10000 * moment / end) / 10 : 0;
}

// A screen reader is told where the player stands while it rests, at most once a second.
const speech = { told: -Infinity, waiting: 0 };

function speak() {
  clearTimeout(speech.waiting);
  if (playing !== null) return;
  speech.waiting = setTimeout(() => {
    speech.told = performance.now();
    at.told.textContent = `${clock(place.moment)}, chunk ${place.count} of ${last}`;
  }, Math.max(0, speech.told + 1000 - performance.now()));
}

function tell() {
  const seconds = `${place.moment.toFixed(3)} seconds`;
  at.clock.textContent = `${clock(place.moment)} / ${clock(end)}`;
  at.clock.title = `${seconds} of ${end.toFixed(3)}`;
  at.count.textContent = `chunk ${place.count} of ${last}`;
  at.time.value = place.moment;
  at.time.setAttribute('aria-valuetext', `${seconds}, chunk ${place.count}`);
  at.done.style.clipPath = `inset(0 ${100 - railed(place.moment) / 10}% 0 0)`;
  speak();
}

function stand(moment, count) {
  place.moment = moment;
  place.count = count;
  drawScreen(count);
  tell();
}

// The poster goes as soon as anything is asked for.
function begin() {
  at.figure.classList.add('begun');
}

// Some places let no page write the address: nothing depends on it.
function address(text) {
  try {
    if (location.hash !== text) history.replaceState(null, '', text);
  } catch {
    place.unwritten = text;
  }
}

function momentAddress() {
  return `#t=${Number(place.moment.toFixed(6))}`;
}

function seek(moment) {
  begin();
  const within = Math.min(Math.max(moment, 0), end);
  stand(within, dueBy(within));
  address(momentAddress());
}

function standAt(count) {
  const within = Math.min(Math.max(count, 0), last);
  stand(entries[within][0], within);
}

function seekCount(count) {
  begin();
  standAt(count);
  address(`#n=${place.count}`);
}

// Goes where the address says, a moment, a count of chunks or the number of a chunk, and tells whether it says so.
function readAddress() {
  const [, name, value] = /^#(t|n|chunk)=([0-9]+(?:\.[0-9]*)?)$/.exec(location.hash) || [];
  if (name === 't') {
    const moment = Math.min(Number(value), end);
    stand(moment, dueBy(moment));
  } else if (name) {
    standAt(Math.floor(Number(value)) + (name === 'chunk' ? 1 : 0));
  }
  return Boolean(name);
}

// ---- playing

let playing = null;

function tellPlaying(name, icon) {
  at.play.setAttribute('aria-label', name);
  at.play.title = `${name} (space)`;
  at.playIcon.setAttribute('d', icon);
}

function pause() {
  if (playing === null) return;
  cancelAnimationFrame(playing.frame);
  playing = null;
  tellPlaying('Play', PLAY);
  address(momentAddress());
  speak();
}

// Goes on by what has passed since the last frame; a wait beyond the greatest idle time is cut to that.
function step(time) {
  let moment = place.moment + (time - playing.time) / 1000 * Number(at.speed.value);
  playing.time = time;
  const next = entries[Math.min(place.count + 1, last)][0];
  if (next - moment > Number(at.idle.value)) moment = next - Number(at.idle.value);
  stand(Math.min(moment, end), dueBy(moment));
  if (place.moment >= end) return pause();
  playing.frame = requestAnimationFrame(step);
}

function play() {
  begin();
  playing = { time: performance.now() };
  if (place.moment >= end) stand(0, dueBy(0));
  tellPlaying('Pause', PAUSE);
  playing.frame = requestAnimationFrame(step);
}

function toggle() {
  if (playing === null) play();
  else pause();
}

function stepChunk(by) {
  pause();
  seekCount(place.count + by);
}

function changeSpeed(by) {
  const index = at.speed.selectedIndex + by;
  at.speed.selectedIndex = Math.min(Math.max(index, 0), at.speed.options.length - 1);
}

// ---- finding

// A row whose last cell isn't a space runs on into the next one. So does one whose last cell alone is, where the next
// row begins with a character of two columns, which may not have fit: that cell is left out.
function runsOn(text, next) {
  if (!text.endsWith(' ')) return true;
  return typeof next[1] === 'number' && Boolean(next[1] & BROAD) && text.at(-2) !== ' ';
}

// The places of a text on a screen: what stands left of its end, and its rows.
function* standing(rows, texts, wanted) {
  for (let first = 0, next = 1; first < LINES; first = next++) {
    while (next < LINES && runsOn(texts[next - 1], rows[next])) next++;
    const cut = texts.slice(first, next - 1).map(text => text.endsWith(' ') ? text.slice(0, -1) : text);
    yield* placesIn([...cut, texts[next - 1]], wanted);
  }
}

// Those in one line: each begins in the row of its first character, and its rows end where its last one stands.
function* placesIn(rows, wanted) {
  const line = rows.join(''), ends = [];
  for (const row of rows) ends.push((ends.at(-1) || 0) + row.length);
  let begin = 0, row = 0;
  for (let i = line.indexOf(wanted); i >= 0; i = line.indexOf(wanted, i + 1)) {
    while (ends[row] <= i) begin = ends[row++];
    const behind = i + wanted.length;
    let stop = row;
    while (ends[stop] < behind) stop++;
    yield { left: line.slice(begin, behind), rows: trimmed(line.slice(begin, ends[stop])) };
  }
}

// The places that are new: those before which as many have the same left part as had it before in all.
function added(before, after) {
  const old = new Map(), seen = new Map();
  for (const { left } of before) old.set(left, (old.get(left) || 0) + 1);
  return after.filter(({ left }) => {
    const count = seen.get(left) || 0;
    seen.set(left, count + 1);
    return count >= (old.get(left) || 0);
  });
}

function rowText(row, flags) {
  const width = runsOf(row).reduce((sum, run) => sum + run.width, 0);
  return textOf(row) + ' '.repeat(columnsOf(flags) / (row[0] === SINGLE ? 1 : 2) - width);
}

// After which chunks the text came to stand on the screen: what stands left of its end, and its rows.
function* foundAt(wanted) {
  let rows = kept[0], texts = rows.map(row => rowText(row, 0)), places = [];
  for (let n = 1; n <= last; n++) {
    const after = folded(rows, entries[n]);
    const all = (entries[n][1] ^ entries[n - 1][1]) & WIDE;
    if (after === rows && !all) continue;
    texts = after.map((row, i) => row === rows[i] && !all ? texts[i] : rowText(row, entries[n][1]));
    const now = [...standing(after, texts, wanted)];
    for (const found of added(places, now)) yield { count: n, ...found };
    [rows, places] = [after, now];
  }
}

// What was found, and which of it is shown.
const finds = { list: [], lit: -1 };

function element(name, className, ...children) {
  const made = document.createElement(name);
  if (className) made.className = className;
  made.append(...children);
  return made;
}

// A found moment: its time, and its rows from at most 30 characters before the found part on.
function listed({ count, left, rows }, index, wanted) {
  const from = left.length - wanted.length, first = rows.search(/[^ ]/);
  const near = Math.max(from - 30, first), start = /[\udc00-\udfff]/.test(rows[near]) ? near + 1 : near;
  const before = (start > first ? '…' : '') + rows.slice(start, from);
  const row = element('span', 'row', before, element('mark', '', wanted), rows.slice(left.length));
  const button = element('button', '', element('span', 'moment', clock(entries[count][0])), row);
  button.type = 'button';
  button.title = entries[count][0].toFixed(6);
  button.addEventListener('click', () => showFind(index));
  return element('li', '', button);
}

function tellFinds() {
  const { list, lit } = finds;
  const which = lit < 0 ? '' : `${lit + 1} of `;
  const more = list.length > SHOWN ? `, the first ${SHOWN} are listed` : '';
  at.found.textContent = `${which}${list.length} ${list.length === 1 ? 'moment' : 'moments'}${more}`;
  [...at.moments.children].forEach((item, i) => item.firstChild.toggleAttribute('aria-current', i === lit));
}

function listMoments() {
  const wanted = at.text.value;
  finds.list = trimmed(wanted) === '' ? [] : [...foundAt(wanted)];
  finds.lit = -1;
  at.moments.replaceChildren(...finds.list.slice(0, SHOWN).map((found, index) => listed(found, index, wanted)));
  const places = new Set(finds.list.map(({ count }) => railed(entries[count][0])));
  at.marks.setAttribute('d', [...places].map(x => `M${x} 7v18`).join(''));
  tellFinds();
}

function showFind(index) {
  pause();
  finds.lit = index;
  seekCount(finds.list[index].count);
  tellFinds();
  at.moments.children[index]?.scrollIntoView({ block: 'nearest' });
}

// The next found moment, or the one before: from the one that is shown, else from where the player stands.
function stepFind(by) {
  const { list, lit } = finds;
  if (list.length === 0) return;
  const here = lit >= 0 && list[lit].count === place.count;
  const later = list.findIndex(({ count }) => count > place.count);
  const next = later < 0 ? list.length : later;
  const index = here ? lit + by : by > 0 ? next : next - 1;
  showFind((index + list.length) % list.length);
}

// ---- the rest of the page

let answered = 0;

function answer(word) {
  at.answer.textContent = word;
  clearTimeout(answered);
  answered = setTimeout(() => { at.answer.textContent = ''; }, 2000);
}

async function copied(text, word) {
  try {
    await navigator.clipboard.writeText(text);
  } catch {
    const area = element('textarea', '');
    area.value = text;
    document.body.append(area);
    area.select();
    document.execCommand('copy');
    area.remove();
  }
  answer(word);
}

function copyText() {
  return copied(plainText(rowsAt(place.count)), 'text copied');
}

function copyLink() {
  return copied(location.href.split('#')[0] + momentAddress(), 'link copied');
}

// The file that `typetool picture` writes of this screen.
function pictureFile() {
  const picture = shown.svg.cloneNode(true);
  const title = draw('title', {}, `Screen at ${place.moment.toFixed(6)} s`);
  const text = draw('desc', {}, allowed(plainText(rowsAt(place.count))));
  picture.prepend(title, text, draw('style', {}, STYLE));
  return new XMLSerializer().serializeToString(picture);
}

function savePicture() {
  const link = element('a', '');
  link.href = URL.createObjectURL(new Blob([pictureFile()], { type: 'image/svg+xml' }));
  link.download = `screen-${place.count}.svg`;
  link.click();
  setTimeout(() => URL.revokeObjectURL(link.href), 60000);
  answer('picture saved');
}

function fillWindow(filled) {
  at.player.classList.toggle('filled', filled);
}

let dark = matchMedia('(prefers-color-scheme: dark)').matches;

function turnTheme() {
  dark = !dark;
  document.documentElement.style.colorScheme = dark ? 'dark' : 'light';
}

// The rails: waits of a second and more are paler; those behind one another are one stretch.
function drawRails() {
  const stretches = [];
  for (let n = 1; n <= last; n++) {
    const [from, to] = [entries[n - 1][0], entries[n][0]];
    if (to - from < 1) continue;
    if (stretches.length && stretches.at(-1).to === from) stretches.at(-1).to = to;
    else stretches.push({ from, to });
  }
  let busy = '', idles = '', behind = 0;
  for (const { from, to } of stretches) {
    if (railed(to) === railed(from)) continue;
    busy += `M${behind} 16H${railed(from)}`;
    idles += `M${railed(from)} 16H${railed(to)}`;
    behind = railed(to);
  }
  busy += `M${behind} 16H1000`;
  for (const path of [at.busy, at.busyDone]) path.setAttribute('d', busy);
  for (const path of [at.idles, at.idlesDone]) path.setAttribute('d', idles);
}

// The time under the pointer; the slider's thumb is 16 pixels wide.
function tellUnder(event) {
  const { left, width } = at.time.getBoundingClientRect();
  const part = Math.min(Math.max((event.clientX - left - 8) / (width - 16), 0), 1);
  at.under.textContent = clock(part * end);
  at.under.style.left = `${8 + part * (width - 16)}px`;
  at.under.hidden = false;
}

const KEYS = {
  ' ': toggle, k: toggle, K: toggle, ',': () => stepChunk(-1), '.': () => stepChunk(1),
  '<': () => changeSpeed(-1), '>': () => changeSpeed(1),
  ArrowLeft: () => seek(place.moment - 5), ArrowRight: () => seek(place.moment + 5),
  Home: () => seek(0), End: () => seek(end), '/': () => at.text.focus(),
  n: () => stepFind(1), N: () => stepFind(-1),
  f: () => fillWindow(), F: () => fillWindow(), Escape: () => fillWindow(false),
  c: copyText, l: copyLink, s: savePicture,
};
for (let tenth = 0; tenth < 10; tenth++) KEYS[tenth] = () => seek(end * tenth / 10);

// A key that the focused control takes itself stays its own.
function isTaken(event) {
  const name = event.target.tagName;
  if (name === 'INPUT') return event.target.type === 'search';
  if (name === 'SELECT') return event.key.length > 1 || event.key === ' ';
  return event.key === ' ' && (name === 'BUTTON' || name === 'SUMMARY');
}

function pressed(event) {
  const act = KEYS[event.key];
  if (!act || event.ctrlKey || event.altKey || event.metaKey || isTaken(event)) return;
  event.preventDefault();
  act();
}

// A row may be drawn anew while the button is down, and then no click comes: it is told by both of its ends. One that
// ends a selection of text is none, and the second of two fills the window besides.
let held = false;

function heldDown(event) {
  held = event.button === 0;
  if (event.detail > 1) event.preventDefault();
}

function letGo(event) {
  if (!held || event.button !== 0 || !getSelection().isCollapsed) return;
  toggle();
  if (event.detail === 2) fillWindow();
}

const CLICKS = {
  theme: turnTheme, poster: play, play: toggle, back: () => stepChunk(-1), on: () => stepChunk(1),
  copy: copyText, link: copyLink, save: savePicture, fill: () => fillWindow(),
  previous: () => stepFind(-1), next: () => stepFind(1),
};
for (const [name, act] of Object.entries(CLICKS)) at[name].addEventListener('click', act);

(TODAY ? at.drawing : at.today).disabled = true;
at.screen.classList.toggle('turned', TURNED.test(data));
readSketch();
at.player.hidden = false;
at.time.max = end;
at.length.textContent = clock(end);
at.facts.textContent = `${entries.some(entry => entry[1] & WIDE) ? 132 : COLUMNS} x ${LINES}, ${last} chunks`;
at.time.addEventListener('input', () => seek(Number(at.time.value)));
at.time.addEventListener('pointermove', tellUnder);
at.time.addEventListener('pointerleave', () => { at.under.hidden = true; });
at.screen.addEventListener('mousedown', heldDown);
at.screen.addEventListener('mouseup', letGo);
addEventListener('mouseup', () => { held = false; });
at.finder.addEventListener('submit', event => { event.preventDefault(); listMoments(); });
addEventListener('keydown', pressed);
addEventListener('hashchange', () => { if (readAddress()) begin(); });
drawRails();
if (!readAddress()) {
  stand(0, dueBy(0));
  drawScreen(dueBy(end / 2));
}
</script>
</body>
</html>
"#;
