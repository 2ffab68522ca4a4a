//! Which form a file has.
ghost use Rattle.std.specs.Prelude.{◌≡◌, ◌≤◌, ◌&&◌, IfOk, codes, is_some, length};
ghost use Rattle.json_bytes.specs.Values.{json_of, string_of};
ghost use Rattle.tape_import.specs.Asciicast.{header_of};
ghost use Rattle.tape_import.specs.Form.{form_of, form_of_line, is_compressed, is_ttyrec, mark_len};
ghost use Rattle.tape_import.specs.KeptTlog.{told};

use crate::cast_header::{split_header, version_in};
use crate::ttyrec::{HEAD_LEN, number_at};
use crate::version::Version;
use json_bytes::{Member, named, past_space, whole_members};
use std::alloc::{AllocError, Global};

/// The forms: a ttyrec, an asciicast by its version, messages of tlog, or none that is known.
#[derive(Clone, Copy, Debug, PartialEq, Eq)]
pub enum Form {
    Ttyrec,
    Asciicast(Version),
    Tlog,
    AsciicastOne,
    Unknown,
}

/// Whether a file begins as a compressed one does.
pub fn is_compressed(file: &[u8]) -> bool
    ensures { result ≡ is_compressed file.now }
{
    file.starts_with(b"\x1f\x8b\x08")
        || file.starts_with(b"BZh")
        || file.starts_with(b"\xfd7zXZ\0")
        || file.starts_with(b"\x28\xb5\x2f\xfd")
}

/// How many bytes of a byte order mark stand at the front: 3 or none.
pub fn mark_len(file: &[u8]) -> usize
    ensures len { result ≡ mark_len file.now }
    ensures within { result ≤ length file.now }
{
    if file.starts_with(b"\xef\xbb\xbf") {
        3
    } else {
        0
    }
}

/// Whether a file, without such a mark, is taken for a ttyrec: it begins with a whole head, whose microseconds are less
/// than a second.
pub fn is_ttyrec(file: &[u8]) -> bool
    ensures { result ≡ is_ttyrec file.now }
{
    file.len() >= HEAD_LEN && number_at(file, 4) < 1_000_000
}

/// Whether the member of this name is a string.
fn is_text(alloc: Global, members: &[Member], name: &[u8]) -> Result<bool, AllocError>
    ensures { IfOk result (λ is. is ≡ is_some (string_of (told members.now name.now))) }
{
    match named(members, name) {
        Some(value) => Ok(value.text(alloc)?.is_some()),
        None => Ok(false),
    }
}

/// Whether an object of these members is a message of tlog.
fn is_message(alloc: Global, members: &[Member]) -> Result<bool, AllocError>
    ensures { IfOk result (λ is. is ≡ (is_some (string_of (told members.now (codes "ver")))
        && is_some (string_of (told members.now (codes "timing"))))) }
{
    Ok(is_text(alloc, members, b"ver")? && is_text(alloc, members, b"timing")?)
}

/// The form of a text that begins with a brace, by its first line that isn't space alone.
fn form_of_line(alloc: Global, line: &[u8]) -> Result<Form, AllocError>
    ensures { IfOk result (λ form. form ≡ form_of_line (json_of line.now)) }
{
    let members = whole_members(alloc, line)?;
    if let Some(version) = version_in(&members) {
        return Ok(Form::Asciicast(version));
    }
    if is_message(alloc, &members)? {
        Ok(Form::Tlog)
    } else {
        Ok(Form::AsciicastOne)
    }
}

/// The form of a file that isn't compressed, without such a mark. Refused for want of memory alone.
pub fn form_of(alloc: Global, text: &[u8]) -> Result<Form, AllocError>
    ensures { IfOk result (λ form. form ≡ form_of text.now) }
{
    if is_ttyrec(text) {
        Ok(Form::Ttyrec)
    } else if past_space(text).starts_with(b"{") {
        form_of_line(alloc, split_header(text).0)
    } else {
        Ok(Form::Unknown)
    }
}
