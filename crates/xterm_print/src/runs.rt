//! Bytes that write characters of one column over plain cells, with sequences between them that select renditions.

ghost use Rattle.std.specs.Int.{bit_at};
ghost use Rattle.std.specs.Prelude.{◌≡◌, ◌+◌, ◌*◌, ◌-◌, ◌%◌, ◌<◌, ◌≤◌, ◌++◌, ◌∷◌, List, ℕ, Some, length, slice_index_or, take, true, false};
ghost use Rattle.vt_parser.specs.Syntax.{is_graphic};
ghost use Rattle.xterm_rows.specs.Runs.{cell_behind};
ghost use Rattle.xterm_term.specs.Ahead.{Letters, WritesStyled, letters_from, styling_behind};
ghost use Rattle.xterm_term.specs.Seen.{Shows};
ghost use Rattle.xterm_term.specs.Term.{Term};
ghost use Rattle.xterm_print.specs.Pieces.{AreApart, AreFollowers, EndsLeft, GoOver, IsPlain, StaysOn, WritesOver};

use characters::laws::widths_are_small;
use sheet::Cell;
use text_find::{LETTERS, LetterRun};
use xterm_term::{CharacterSet, Terminal, letter_at, styling_at};

/// How many marks there are.
const MARKS: u32 = 64;

/// How many pairs of neighbours are looked at at once.
const TOGETHER: usize = 8;

/// Marks of the characters that a text has behind its first one, and of its pairs of neighbours: most characters of a row
/// have none, and most pairs of the others. They are made for a second letter, since that takes a walk through the text.
#[derive(Drop)]
struct Followers {
    made: bool,
    marks: u64,
    pairs: u64,
}

/// How many of the bytes write letters over plain cells of the cursor's row, left of its last two, so that no two
/// neighbours of the text come to stand on both sides of a border between new characters and old ones: the letters
/// become these.
pub(crate) fn run_over(
    terminal: &Terminal,
    set: CharacterSet,
    text: &[char],
    bytes: &[u8],
    letters: &mut LetterRun,
) -> usize
    requires { (x : Term) → Shows terminal.now x → WritesStyled set x }
    ensures within { result ≤ length bytes.now }
    ensures stays { (x : Term) → Shows terminal.now x → 0 < length text.now → EndsLeft text.now x
        → StaysOn text.now x bytes.now result }
    ensures written { 0 < result → (x : Term) → Shows terminal.now x
        → WritesOver x bytes.now letters.new.items result }
{
    let screen = terminal.screen();
    let (line, column) = screen.cursor();
    let cells = screen.row(line);
    let (from, end) = (column as usize - 1, cells.len() - 2);
    if end < from {
        return 0;
    }
    let room = end.min(from + LETTERS);
    run_on(&cells[from..room], set, text, bytes, letters)
}

/// How many of the bytes are letters to be put over these cells, and whole sequences, as far as they may be.
fn run_on(
    cells: &[Cell],
    set: CharacterSet,
    text: &[char],
    bytes: &[u8],
    letters: &mut LetterRun,
) -> usize
    requires { length cells.now ≤ LETTERS }
    ensures within { result ≤ length bytes.now }
    ensures styled { styling_behind set Letters (take result bytes.now) ≡ Some Letters }
    ensures letters { letters.new.items ≡ letters_from set Letters (take result bytes.now) }
    ensures over { GoOver text.now cells.now letters.new.items }
{
    letters.clear();
    let mut followers = Followers {
        made: false,
        marks: 0,
        pairs: 0,
    };
    let mut taken = 0;
    while taken < bytes.len() {
        let more = step(letters, set, cells, text, &mut followers, &bytes[taken..]);
        if more == 0 {
            break;
        }
        taken += more;
    }
    taken
}

/// Goes on over a sequence, or over a character, which comes behind the others, if it may be played. Says how many
/// bytes that took; 0 where they are neither.
#[inline]
fn step(
    letters: &mut LetterRun,
    set: CharacterSet,
    cells: &[Cell],
    text: &[char],
    followers: &mut Followers,
    bytes: &[u8],
) -> usize
    requires some { 0 < length bytes.now }
    requires few { length cells.now ≤ LETTERS }
    requires made { followers.old.made ≡ true → AreFollowers text.now followers.old.marks followers.old.pairs }
    requires over { GoOver text.now cells.now letters.old.items }
    ensures over { GoOver text.now cells.now letters.new.items }
    ensures within { result ≤ length bytes.now }
    ensures styled { styling_behind set Letters (take result bytes.now) ≡ Some Letters }
    ensures more { letters.new.items
        ≡ letters.old.items ++ letters_from set Letters (take result bytes.now) }
    ensures made { followers.new.made ≡ true → AreFollowers text.now followers.new.marks followers.new.pairs }
{
    let graphic = graphics_on(letters, set, cells, text, followers, bytes);
    if graphic > 0 {
        return graphic;
    }
    let styled = styling_at(bytes);
    if styled > 0 {
        return styled;
    }
    let Some(letter) = letter_at(set, bytes) else {
        return 0;
    };
    if !may_go_on(cells, text, followers, letters.as_slice()) {
        return 0;
    }
    letters.push(letter.character);
    letter.taken
}

/// Goes on over graphic characters of ASCII alone, behind a first letter: most come so. Says how many bytes that took.
#[inline]
fn graphics_on(
    letters: &mut LetterRun,
    set: CharacterSet,
    cells: &[Cell],
    text: &[char],
    followers: &mut Followers,
    bytes: &[u8],
) -> usize
    requires some { 0 < length bytes.now }
    requires few { length cells.now ≤ LETTERS }
    requires made { followers.old.made ≡ true → AreFollowers text.now followers.old.marks followers.old.pairs }
    requires over { GoOver text.now cells.now letters.old.items }
    ensures over { GoOver text.now cells.now letters.new.items }
    ensures within { result ≤ length bytes.now }
    ensures styled { styling_behind set Letters (take result bytes.now) ≡ Some Letters }
    ensures more { letters.new.items
        ≡ letters.old.items ++ letters_from set Letters (take result bytes.now) }
    ensures made { followers.new.made ≡ true → AreFollowers text.now followers.new.marks followers.new.pairs }
{
    let CharacterSet::Ascii = set else {
        return 0;
    };
    let from = letters.len();
    if from == 0 || !is_graphic(bytes[0]) {
        return 0;
    }
    widths_are_small();
    followers.make(text);
    let last = last_of(letters.as_slice());
    put_graphics(letters, last, &cells[from..], followers, bytes)
}

/// Puts as many of the bytes behind the letters as are graphic characters of ASCII that may be put over these cells behind
/// the last letter, as the marks tell. Says how many.
#[inline(never)]
fn put_graphics(
    letters: &mut LetterRun,
    last: char,
    cells: &[Cell],
    followers: &Followers,
    bytes: &[u8],
) -> usize
    requires { length letters.old.items + length cells.now ≤ LETTERS }
    ensures put { letters.new.items ≡ letters.old.items ++ take result bytes.now }
    ensures within { result ≤ length bytes.now }
    ensures room { result ≤ length cells.now }
    ensures graphic { (k : ℕ) → k < result → is_graphic (slice_index_or bytes.now k 0) ≡ true }
    ensures plain { (k : ℕ) → k < result → IsPlain (cell_behind cells.now k) }
    ensures apart { (text : List ℕ) → AreFollowers text followers.now.marks followers.now.pairs
        → (k : ℕ) → k < result
        → AreApart text (slice_index_or (last ∷ bytes.now) k 0) (cell_behind cells.now k).character }
{
    let room = cells.len().min(bytes.len());
    let mut one = last;
    for at in 0..room {
        let byte = bytes[at];
        if !may_follow(followers, one, byte, cells[at]) {
            return at;
        }
        one = byte as char;
        letters.push(one);
    }
    room
}

/// Whether a byte is a graphic character of ASCII that may be put over a cell behind a letter, as the marks tell.
#[inline(always)]
fn may_follow(followers: &Followers, one: char, byte: u8, cell: Cell) -> bool
    ensures graphic { result ≡ true → is_graphic byte ≡ true }
    ensures plain { result ≡ true → IsPlain cell }
    ensures apart { result ≡ true → (text : List ℕ) → AreFollowers text followers.now.marks followers.now.pairs
        → AreApart text one cell.character }
{
    is_graphic(byte) && cell.is_plain() && !followers.may_have(one, cell.character())
}

/// A graphic character of ASCII.
#[inline]
fn is_graphic(byte: u8) -> bool
    ensures { result ≡ is_graphic byte }
{
    matches!(byte, 32..=126)
}

/// Whether a character more may be put behind these.
#[inline]
fn may_go_on(cells: &[Cell], text: &[char], followers: &mut Followers, letters: &[char]) -> bool
    requires made { followers.old.made ≡ true → AreFollowers text.now followers.old.marks followers.old.pairs }
    ensures cells { result ≡ true → length letters.now < length cells.now }
    ensures plain { result ≡ true → IsPlain (cell_behind cells.now (length letters.now)) }
    ensures apart { result ≡ true → 0 < length letters.now → AreApart text.now
        (slice_index_or letters.now (length letters.now - 1) 0) (cell_behind cells.now (length letters.now)).character }
    ensures made { followers.new.made ≡ true → AreFollowers text.now followers.new.marks followers.new.pairs }
{
    let at = letters.len();
    at < cells.len()
        && cells[at].is_plain()
        && (at == 0 || are_apart(text, followers, letters, cells[at].character()))
}

/// Whether the last of some letters and a character surely aren't neighbours of the text.
#[inline]
fn are_apart(text: &[char], followers: &mut Followers, letters: &[char], other: char) -> bool
    requires some { 0 < length letters.now }
    requires made { followers.old.made ≡ true → AreFollowers text.now followers.old.marks followers.old.pairs }
    ensures apart { result ≡ true
        → AreApart text.now (slice_index_or letters.now (length letters.now - 1) 0) other }
    ensures made { followers.new.made ≡ true → AreFollowers text.now followers.new.marks followers.new.pairs }
{
    followers.make(text);
    let one = last_of(letters);
    !followers.may_have(one, other) || !are_neighbours(text, one, other)
}

/// The last of some letters.
#[inline]
fn last_of(letters: &[char]) -> char
    requires { 0 < length letters.now }
    ensures { result ≡ slice_index_or letters.now (length letters.now - 1) 0 }
{
    letters[letters.len() - 1]
}

impl Followers {
    /// Makes the marks, if they aren't yet.
    #[inline]
    fn make(&mut self, text: &[char])
        requires { self.old.made ≡ true → AreFollowers text.now self.old.marks self.old.pairs }
        ensures { AreFollowers text.now self.new.marks self.new.pairs }
    {
        if !self.made {
            (self.marks, self.pairs) = marks_of(text);
            self.made = true;
        }
    }

    /// Whether two neighbours of the text may be these, as the marks tell.
    #[inline(always)]
    fn may_have(&self, one: char, other: char) -> bool
        ensures { result ≡ false → (text : List ℕ) → AreFollowers text self.now.marks self.now.pairs
            → AreApart text one other }
    {
        is_marked(self.marks, other as u32) && is_marked(self.pairs, pair(one, other))
    }
}

/// Which marks the characters of a text have that come behind its first one, and which its pairs of neighbours.
fn marks_of(text: &[char]) -> (u64, u64)
    ensures { AreFollowers text.now result.0 result.1 }
{
    let (mut marks, mut pairs) = (0, 0);
    for at in 1..text.len() {
        marks |= mark_of(text[at] as u32);
        pairs |= mark_of(pair(text[at - 1], text[at]));
    }
    (marks, pairs)
}

/// The number of a pair of characters.
#[inline]
fn pair(one: char, other: char) -> u32
    ensures { result ≡ one + 2 * other }
{
    one as u32 + 2 * other as u32
}

/// The mark of a number.
#[inline]
fn mark_of(number: u32) -> u64
    ensures { bit_at result (number % 64) ≡ 1 }
{
    1 << (number % MARKS)
}

/// Whether a number has its mark among these.
#[inline]
fn is_marked(marks: u64, number: u32) -> bool
    ensures { bit_at marks (number % 64) ≡ 1 → result ≡ true }
{
    marks >> (number % MARKS) & 1 == 1
}

/// Whether two neighbours of the text are these.
fn are_neighbours(text: &[char], one: char, other: char) -> bool
    ensures { result ≡ false → AreApart text.now one other }
{
    let mut at = 0;
    while text.len() - at > TOGETHER {
        if are_together(text, at, one, other) {
            return true;
        }
        at += TOGETHER;
    }
    are_behind(text, at, one, other)
}

/// Whether some of so many pairs of neighbours are these. It looks at all of them, which makes it code over vectors.
fn are_together(text: &[char], from: usize, one: char, other: char) -> bool
    requires { from + TOGETHER < length text.now }
    ensures { result ≡ false → (k : ℕ) → from ≤ k → k < from + TOGETHER
        → slice_index_or text.now k 0 ≡ one → slice_index_or text.now (k + 1) 0 ≡ other → ⊥ }
{
    let mut found = false;
    for at in from..from + TOGETHER {
        found |= (text[at] == one) & (text[at + 1] == other);
    }
    found
}

/// Whether two neighbours of the text behind so many characters are these.
fn are_behind(text: &[char], from: usize, one: char, other: char) -> bool
    requires { from ≤ length text.now }
    ensures { result ≡ false → (k : ℕ) → from ≤ k → k + 1 < length text.now
        → slice_index_or text.now k 0 ≡ one → slice_index_or text.now (k + 1) 0 ≡ other → ⊥ }
{
    for at in from + 1..text.len() {
        if text[at - 1] == one && text[at] == other {
            return true;
        }
    }
    false
}
