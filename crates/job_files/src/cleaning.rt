//! What comes from outside, as it is written to standard error.

ghost use Rattle.std.specs.Prelude.{◌≡◌, IfOk, map, string_bytes};
ghost use Rattle.job_files.specs.Cleaning.{cleaned, shown};

use std::alloc::{AllocError, Global};

/// A text from outside, with `?` for each character that could move a cursor, turn a line around or forge one.
pub fn cleaned(alloc: Global, text: &str) -> Result<String, AllocError>
    ensures { IfOk result (λ clean. string_bytes clean ≡ cleaned text.now) }
{
    text.chars().map(shown).collect(alloc)
}

/// The words of a command line, each cleaned.
pub fn cleaned_words(alloc: Global, words: &[String]) -> Result<Vec<String>, AllocError>
    ensures { IfOk result (λ clean. map string_bytes clean.items
        ≡ map (λ word. cleaned (string_bytes word)) words.now) }
{
    let mut clean = Vec::new(alloc);
    for word in words {
        clean.push(cleaned(alloc, word.as_str())?)?;
    }
    Ok(clean)
}

/// A character, or `?` in its place.
fn shown(c: char) -> char
    ensures { result ≡ shown c }
{
    match c {
        '\0'..='\u{1f}' | '\u{7f}'..='\u{9f}' => '?',
        '\u{2028}'..='\u{202e}' | '\u{2066}'..='\u{2069}' => '?',
        _ => c,
    }
}
