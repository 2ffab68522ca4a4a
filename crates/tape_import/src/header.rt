//! The header that tells what a recording tells of itself. script(1).
ghost use Rattle.std.specs.Prelude.{◌≡◌, ◌++◌, IfOk, OnOk};
ghost use Rattle.tape_core.specs.Tape.{IsHeader};
ghost use Rattle.tape_import.specs.Facts.{IsHeaderOf, size_text, term_text, told_text};
ghost use Rattle.tape_import.specs.Kept.{CanBeTold};

use crate::date::date_text;
use crate::facts::{Facts, Size};
use itoa::Buffer;
use std::alloc::{AllocError, Global};
use tape_core::Bytes;

/// Adds the terminal's name.
fn push_term(text: &mut Vec<u8>, term: &[u8]) -> Result<(), AllocError>
    ensures { OnOk result (text.new.items ≡ text.old.items ++ term_text term.now) }
{
    text.extend_from_slice(b"TERM=\"")?;
    text.extend_from_slice(term)?;
    text.extend_from_slice(b"\"")
}

/// Adds the terminal's size.
fn push_size(text: &mut Vec<u8>, size: Size) -> Result<(), AllocError>
    ensures { OnOk result (text.new.items ≡ text.old.items ++ size_text size) }
{
    text.extend_from_slice(b"COLUMNS=\"")?;
    text.extend_from_slice(Buffer::new().format(size.columns).as_bytes())?;
    text.extend_from_slice(b"\" LINES=\"")?;
    text.extend_from_slice(Buffer::new().format(size.lines).as_bytes())?;
    text.extend_from_slice(b"\"")
}

/// Adds what stands behind the date: name and size in brackets, where one of them is told.
fn push_told(text: &mut Vec<u8>, facts: &Facts) -> Result<(), AllocError>
    ensures { OnOk result (text.new.items
        ≡ text.old.items ++ told_text facts.now.term facts.now.size) }
{
    if facts.term.is_none() && facts.size.is_none() {
        return Ok(());
    }
    text.extend_from_slice(b" [")?;
    if let Some(term) = &facts.term {
        push_term(text, term.as_slice())?;
        if facts.size.is_some() {
            text.push(b' ')?;
        }
    }
    if let Some(size) = facts.size {
        push_size(text, size)?;
    }
    text.extend_from_slice(b"]")
}

/// The header, a line.
pub fn header_of(alloc: Global, facts: &Facts) -> Result<Bytes, AllocError>
    requires { CanBeTold facts.now }
    ensures told { IfOk result (λ header. IsHeaderOf facts.now header) }
    ensures line { IfOk result (λ header. IsHeader header) }
{
    let mut text = Vec::new(alloc);
    let date = date_text(alloc, facts.date)?;
    text.extend_from_slice(b"Script started on ")?;
    text.extend_from_slice(&date)?;
    push_told(&mut text, facts)?;
    text.push(b'\n')?;
    Ok(Bytes::from_vec(text))
}
