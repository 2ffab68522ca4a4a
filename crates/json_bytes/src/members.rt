//! The members of an object, each by its name and its value.
ghost use Rattle.std.specs.Prelude.{◌≡◌, ℕ, IfOk, List, None};
ghost use Rattle.std.specs.Option.{option_map};
ghost use Rattle.json_bytes.specs.Listed.{listed, valued};
ghost use Rattle.json_bytes.specs.Strings.{meant};
ghost use Rattle.json_bytes.specs.Values.{json_of, last_named, member_of, named_value, object_at, value};

use crate::marks::{begins, past_mark, past_space};
use crate::strings::{StringBytes, read_string};
use crate::values::{DEEPEST, ReadValue, read_value};
use std::alloc::{AllocError, Global};

/// For how many members room is made at first.
const FIRST_ROOM: usize = 8;

/// A member: its name, by the bytes that it means, and its value.
#[derive(Drop)]
pub struct Member<'a> {
    pub name: StringBytes<'a>,
    pub value: ReadValue<'a>,
}

/// The member at the front, whose value has arrays and objects at most so deep, and what stands behind it.
fn read_member<'a>(
    alloc: Global,
    text: &'a [u8],
    depth: u32,
) -> Result<Option<(Member<'a>, &'a [u8])>, AllocError>
    ensures { IfOk result (λ read.
        option_map (λ r. ((meant r.0.name, valued depth r.0.value), r.1.now)) read
        ≡ named_value (value depth) text.now) }
{
    let Some((name, rest)) = read_string(alloc, text)? else {
        return Ok(None);
    };
    let Some(place) = past_mark(b':', rest) else {
        return Ok(None);
    };
    match read_value(alloc, place, depth)? {
        Some((value, rest)) => Ok(Some((Member { name, value }, rest))),
        None => Ok(None),
    }
}

/// The members of the object at the front, whose values have arrays and objects at most so deep, and what stands
/// behind it.
fn read_object<'a>(
    alloc: Global,
    text: &'a [u8],
    depth: u32,
) -> Result<Option<(Vec<Member<'a>>, &'a [u8])>, AllocError>
    ensures { IfOk result (λ read.
        option_map (λ r. (listed depth r.0.items, r.1.now)) read
        ≡ object_at (value depth) text.now) }
{
    let mut members = Vec::with_capacity(alloc, FIRST_ROOM)?;
    let Some(inner) = past_mark(b'{', text) else {
        return Ok(None);
    };
    if let Some(rest) = past_mark(b'}', inner) {
        return Ok(Some((members, rest)));
    }
    let mut at = inner;
    for _ in 0..inner.len() {
        let Some((member, rest)) = read_member(alloc, at, depth)? else {
            return Ok(None);
        };
        members.push(member)?;
        if let Some(rest) = past_mark(b'}', rest) {
            return Ok(Some((members, rest)));
        }
        let Some(next) = past_mark(b',', rest) else {
            return Ok(None);
        };
        at = next;
    }
    Ok(None)
}

/// The members of the object that a whole text is, as they stand; none where it is no object.
pub fn whole_members<'a>(alloc: Global, text: &'a [u8]) -> Result<Vec<Member<'a>>, AllocError>
    ensures { IfOk result (λ members. (name : List ℕ) →
        member_of name (json_of text.now) ≡ last_named name None (listed 63 members.items)) }
{
    let object = past_space(text);
    if !begins(b'{', object) {
        return Ok(Vec::new(alloc));
    }
    let Some((members, rest)) = read_object(alloc, object, DEEPEST - 1)? else {
        return Ok(Vec::new(alloc));
    };
    if past_space(rest).is_empty() {
        Ok(members)
    } else {
        Ok(Vec::new(alloc))
    }
}

/// The value of the last member of this name.
pub fn named<'m, 'a>(members: &'m [Member<'a>], name: &[u8]) -> Option<&'m ReadValue<'a>>
    ensures { (depth : ℕ) → last_named name.now None (listed depth members.now)
        ≡ option_map (λ v. valued depth v.now) result }
{
    let mut value = None;
    for member in members {
        if member.name.as_slice() == name {
            value = Some(&member.value);
        }
    }
    value
}
