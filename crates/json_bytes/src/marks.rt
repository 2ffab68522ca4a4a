//! What stands between the values of a text.
ghost use Rattle.std.specs.Prelude.{◌≡◌, ◌≤◌, length, true};
ghost use Rattle.std.specs.List.{prefix_len};
ghost use Rattle.std.specs.Option.{option_map};
ghost use Rattle.json_bytes.specs.Marks.{begins, is_space, past_mark, past_space};

/// Space, tab, CR and LF.
pub fn is_space(b: u8) -> bool
    ensures { result ≡ is_space b }
{
    b == b' ' || b == b'\t' || b == b'\r' || b == b'\n'
}

/// How many of them a text begins with.
fn space_len(text: &[u8]) -> usize
    ensures spaces { result ≡ prefix_len is_space text.now }
    ensures within { result ≤ length text.now }
{
    text.iter().take_while(|b| is_space(**b)).count()
}

/// Whether a byte above all space stands at the front, or none.
#[inline]
#[tactic(auto, using(crate::proofs::MarkLemmas::first_above, crate::proofs::MarkLemmas::none_first))]
fn is_trimmed(text: &[u8]) -> bool
    ensures { result ≡ true → prefix_len is_space text.now ≡ 0 }
{
    match text {
        [first, ..] => *first > b' ',
        [] => true,
    }
}

/// A text without the space at its front, which mostly is one space at most.
#[inline]
#[tactic(auto, using(crate::proofs::MarkLemmas::no_space, crate::proofs::MarkLemmas::one_space))]
pub fn past_space(text: &[u8]) -> &[u8]
    ensures { result.now ≡ past_space text.now }
{
    if is_trimmed(text) {
        return text;
    }
    match text {
        [b' ', rest @ ..] if is_trimmed(rest) => rest,
        _ => text.split_at(space_len(text)).1,
    }
}

/// Whether a byte stands at the front.
#[inline]
pub fn begins(byte: u8, text: &[u8]) -> bool
    ensures { result ≡ begins byte text.now }
{
    text.starts_with(&[byte])
}

/// What stands behind a structural character and the space around it, where it stands at the front.
#[inline]
pub fn past_mark(byte: u8, text: &[u8]) -> Option<&[u8]>
    ensures { option_map (λ r. r.now) result ≡ past_mark byte text.now }
{
    match past_space(text) {
        [first, rest @ ..] if *first == byte => Some(past_space(rest)),
        _ => None,
    }
}
