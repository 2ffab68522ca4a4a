//! Request lines: edits and questions, each a word and its fields.
ghost use Rattle.std.specs.Prelude.{◌≡◌, ◌≢◌, [], is_some, IfOk, IsSomeAnd, Some, None, Err};
ghost use Rattle.std.specs.Char.{is_ascii_hexdigit};
ghost use Rattle.std.specs.List.{list_all};
ghost use Rattle.std.specs.Option.{option_map};
ghost use Rattle.tape_core.specs.Text.{fields};
ghost use Rattle.tape_seek.specs.Requests.{alone, asked, BringsBytes, bytes_of, cap_of, changes_of, delete_of, form_of, insert_of, pairs_of, place_of, replace_of, reports_of, request, retime_of, screen_of, from_of, three_fields, two_fields};

use crate::edits::Edit;
use std::alloc::Global;
use tape_core::text::{next_field, only_field, read_number};
use tape_core::{Bytes, read_seconds};

/// What a line asks for. Moments are microseconds (ours).
#[derive(Debug, Drop)]
pub enum Request {
    /// A line of blanks alone.
    Nothing,
    /// A change of the recording.
    Edit(Edit),
    /// The plain print of the screen at a moment.
    Screen(u64),
    /// All reports sent by a moment.
    Reports(u64),
    /// The lines that each chunk changes, of those due after `from` (None: from chunk 0 on) and by `to`.
    Changes { from: Option<u64>, to: u64 },
    /// The recording's numbers.
    Info,
    /// The edits accepted so far.
    Log,
}

/// Why a line isn't read.
#[derive(Clone, Copy, Debug, PartialEq, Eq)]
pub enum LineFault {
    /// A line of no known form.
    BadLine,
    /// Memory was refused.
    OutOfMemory,
}

/// The forms of a line, each named by its first word.
#[derive(Clone, Copy, Debug)]
enum Form {
    Insert,
    Delete,
    Replace,
    Retime,
    Cap,
    Screen,
    Reports,
    Changes,
    Info,
    Log,
}

/// Reads a request line, without its LF. Memory is taken for the bytes of an edit alone, once all of the line
/// is known to be good.
#[tactic(auto, unfolding(crate::specs::Requests::request))]
pub fn read_line(alloc: Global, line: &[u8]) -> Result<Request, LineFault>
    ensures ok { IfOk result (λ asks. request line.now ≡ Some asks) }
    ensures bad { result ≡ Err LineFault.BadLine → request line.now ≡ None }
    ensures want { result ≡ Err LineFault.OutOfMemory → BringsBytes (request line.now) }
{
    let Some((word, rest)) = next_field(line) else {
        return Ok(Request::Nothing);
    };
    let form = form_of(word).ok_or(LineFault::BadLine)?;
    read_fields(alloc, form, rest)
}

/// The form of the lines that begin with this word.
#[tactic(auto, unfolding(crate::specs::Requests::form_of))]
fn form_of(word: &[u8]) -> Option<Form>
    ensures { result ≡ form_of word.now }
{
    match word {
        b"insert" => Some(Form::Insert),
        b"delete" => Some(Form::Delete),
        b"replace" => Some(Form::Replace),
        b"retime" => Some(Form::Retime),
        b"cap" => Some(Form::Cap),
        b"screen" => Some(Form::Screen),
        b"reports" => Some(Form::Reports),
        b"changes" => Some(Form::Changes),
        b"info" => Some(Form::Info),
        b"log" => Some(Form::Log),
        _ => None,
    }
}

/// Reads the fields behind the word.
fn read_fields(alloc: Global, form: Form, rest: &[u8]) -> Result<Request, LineFault>
    ensures ok { IfOk result (λ asks. asked form (fields rest.now) ≡ Some asks) }
    ensures bad { result ≡ Err LineFault.BadLine → asked form (fields rest.now) ≡ None }
    ensures want { result ≡ Err LineFault.OutOfMemory → BringsBytes (asked form (fields rest.now)) }
{
    match form {
        Form::Insert => read_insert(alloc, rest),
        Form::Delete => read_delete(rest).ok_or(LineFault::BadLine),
        Form::Replace => read_replace(alloc, rest),
        Form::Retime => read_retime(rest).ok_or(LineFault::BadLine),
        Form::Cap => read_cap(rest).ok_or(LineFault::BadLine),
        Form::Screen => read_screen(rest).ok_or(LineFault::BadLine),
        Form::Reports => read_reports(rest).ok_or(LineFault::BadLine),
        Form::Changes => read_changes(rest).ok_or(LineFault::BadLine),
        Form::Info => read_alone(Request::Info, rest).ok_or(LineFault::BadLine),
        Form::Log => read_alone(Request::Log, rest).ok_or(LineFault::BadLine),
    }
}

/// `insert AT S HEX`
fn read_insert(alloc: Global, rest: &[u8]) -> Result<Request, LineFault>
    ensures ok { IfOk result (λ asks. insert_of (fields rest.now) ≡ Some asks) }
    ensures bad { result ≡ Err LineFault.BadLine → insert_of (fields rest.now) ≡ None }
    ensures want { result ≡ Err LineFault.OutOfMemory → BringsBytes (insert_of (fields rest.now)) }
{
    let (at, delay, bytes) = three_fields(rest).ok_or(LineFault::BadLine)?;
    let at = read_place(at).ok_or(LineFault::BadLine)?;
    let delay = read_seconds(delay).ok_or(LineFault::BadLine)?;
    let bytes = read_bytes(alloc, bytes)?;
    Ok(Request::Edit(Edit::Insert { at, delay, bytes }))
}

/// `delete FROM TO`
fn read_delete(rest: &[u8]) -> Option<Request>
    ensures { result ≡ delete_of (fields rest.now) }
{
    let (from, to) = two_fields(rest)?;
    let from = read_place(from)?;
    let to = read_place(to)?;
    Some(Request::Edit(Edit::Delete { from, to }))
}

/// `replace AT HEX`
fn read_replace(alloc: Global, rest: &[u8]) -> Result<Request, LineFault>
    ensures ok { IfOk result (λ asks. replace_of (fields rest.now) ≡ Some asks) }
    ensures bad { result ≡ Err LineFault.BadLine → replace_of (fields rest.now) ≡ None }
    ensures want { result ≡ Err LineFault.OutOfMemory → BringsBytes (replace_of (fields rest.now)) }
{
    let (at, bytes) = two_fields(rest).ok_or(LineFault::BadLine)?;
    let at = read_place(at).ok_or(LineFault::BadLine)?;
    let bytes = read_bytes(alloc, bytes)?;
    Ok(Request::Edit(Edit::Replace { at, bytes }))
}

/// `retime AT S`
fn read_retime(rest: &[u8]) -> Option<Request>
    ensures { result ≡ retime_of (fields rest.now) }
{
    let (at, delay) = two_fields(rest)?;
    let at = read_place(at)?;
    let delay = read_seconds(delay)?;
    Some(Request::Edit(Edit::Retime { at, delay }))
}

/// `cap S`
#[tactic(auto, using(crate::proofs::RequestLemmas::not_one))]
fn read_cap(rest: &[u8]) -> Option<Request>
    ensures { result ≡ cap_of (fields rest.now) }
{
    let max = read_seconds(only_field(rest)?)?;
    Some(Request::Edit(Edit::Cap { max }))
}

/// `screen S`
#[tactic(auto, using(crate::proofs::RequestLemmas::not_one))]
fn read_screen(rest: &[u8]) -> Option<Request>
    ensures { result ≡ screen_of (fields rest.now) }
{
    let at = read_seconds(only_field(rest)?)?;
    Some(Request::Screen(at))
}

/// `reports S`
#[tactic(auto, using(crate::proofs::RequestLemmas::not_one))]
fn read_reports(rest: &[u8]) -> Option<Request>
    ensures { result ≡ reports_of (fields rest.now) }
{
    let at = read_seconds(only_field(rest)?)?;
    Some(Request::Reports(at))
}

/// `changes S S`, the first of which may be `-`
fn read_changes(rest: &[u8]) -> Option<Request>
    ensures { result ≡ changes_of (fields rest.now) }
{
    let (from, to) = two_fields(rest)?;
    let from = read_start(from)?;
    let to = read_seconds(to)?;
    Some(Request::Changes { from, to })
}

/// A word that stands alone.
fn read_alone(asks: Request, rest: &[u8]) -> Option<Request>
    ensures { result ≡ alone asks (fields rest.now) }
{
    match next_field(rest) {
        None => Some(asks),
        Some(_) => None,
    }
}

/// The two fields that are left.
#[tactic(auto, using(crate::proofs::RequestLemmas::not_one))]
fn two_fields(rest: &[u8]) -> Option<(&[u8], &[u8])>
    ensures { option_map (λ pair. (pair.0.now, pair.1.now)) result ≡ two_fields (fields rest.now) }
{
    let (first, after) = next_field(rest)?;
    let second = only_field(after)?;
    Some((first, second))
}

/// The three fields that are left.
fn three_fields(rest: &[u8]) -> Option<(&[u8], &[u8], &[u8])>
    ensures { option_map (λ all. (all.0.now, all.1.now, all.2.now)) result
        ≡ three_fields (fields rest.now) }
{
    let (first, after) = next_field(rest)?;
    let (second, third) = two_fields(after)?;
    Some((first, second, third))
}

/// The place that digits write, at most 10^18.
fn read_place(field: &[u8]) -> Option<usize>
    ensures { result ≡ place_of field.now }
{
    let place = read_number(field)?;
    Some(place as usize)
}

/// The moment that seconds write, or None within where it is `-`.
fn read_start(field: &[u8]) -> Option<Option<u64>>
    ensures { result ≡ from_of field.now }
{
    if field == b"-".as_slice() {
        return Some(None);
    }
    read_seconds(field).map(Some)
}

/// The bytes that hexadecimal digits write. Memory is taken for good digits alone.
fn read_bytes(alloc: Global, field: &[u8]) -> Result<Bytes, LineFault>
    ensures ok { IfOk result (λ bytes. bytes_of field.now ≡ Some bytes) }
    ensures bad { result ≡ Err LineFault.BadLine → bytes_of field.now ≡ None }
    ensures want { result ≡ Err LineFault.OutOfMemory
        → IsSomeAnd (bytes_of field.now) (λ bytes. bytes ≢ []) }
{
    if field == b"-".as_slice() {
        return Ok(Bytes::from_vec(Vec::new(alloc)));
    }
    if !are_hex_pairs(field) {
        return Err(LineFault::BadLine);
    }
    match hex::decode(alloc, field) {
        Ok(bytes) => Ok(Bytes::from_vec(bytes)),
        Err(_) => Err(LineFault::OutOfMemory),
    }
}

/// Whether the field is an even number of hexadecimal digits, at least two.
#[tactic(auto, using(crate::proofs::HexLemmas::pairs_test))]
fn are_hex_pairs(field: &[u8]) -> bool
    ensures { result ≡ is_some (pairs_of field.now) }
{
    !field.is_empty() && field.len() % 2 == 0 && are_hex_digits(field)
}

/// Whether each byte is a hexadecimal digit.
fn are_hex_digits(field: &[u8]) -> bool
    ensures { result ≡ list_all is_ascii_hexdigit field.now }
{
    field.iter().all(|b| b.is_ascii_hexdigit())
}
