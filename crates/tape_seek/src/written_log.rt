//! Edits written as request lines.
ghost use Rattle.std.specs.Prelude.{◌≡◌, ◌∷◌, true, false, map, OnOk};
ghost use Rattle.std.specs.List.{flat_map, join_with_byte};
ghost use Rattle.tape_core.specs.Devices.{Gave, Puts, has_failed, is_flushed};
ghost use Rattle.tape_seek.specs.Fields.{field_text, spaced};
ghost use Rattle.tape_seek.specs.WrittenLog.{edit_line, log_line, log_text};

use crate::edits::Edit;
use crate::hex_text::give_hex;
use itoa::Buffer;
use std::io::Write;
use tape_core::laws::gives_join;
use tape_core::{Fault, Watched, seconds_text};

/// What may stand behind the word of an edit's line.
#[derive(Clone, Copy, Debug)]
enum Field<'a> {
    /// The place of a chunk.
    Place(usize),
    /// Microseconds, written as seconds.
    Seconds(u64),
    /// Bytes, written in hexadecimal.
    Bytes(&'a [u8]),
}

/// Writes the edits, a request line for each. Takes no memory. After a write fault a beginning of it has gone out.
#[tactic(auto, unfolding(crate::specs::WrittenLog::log_text))]
pub fn write_log<W: Write>(edits: &[Edit], writer: &mut Watched<W>) -> Result<(), Fault>
    requires { has_failed writer.old ≡ false }
    ensures puts { Puts W.contents writer.old writer.new (log_text edits.now) result }
    ensures flushed { OnOk result (is_flushed writer.new ≡ true) }
{
    gives_join::<W>();
    for edit in edits {
        put_line(edit, writer);
    }
    writer.settle()
}

/// Writes an edit's line with its LF.
fn put_line<W: Write>(edit: &Edit, writer: &mut Watched<W>)
    ensures { Gave W.contents writer.old writer.new (log_line edit.now) }
{
    gives_join::<W>();
    put_edit(edit, writer);
    writer.give(b"\n");
}

/// Writes an edit's line without its LF.
#[tactic(auto, unfolding(crate::specs::WrittenLog::edit_line))]
fn put_edit<W: Write>(edit: &Edit, writer: &mut Watched<W>)
    ensures { Gave W.contents writer.old writer.new (edit_line edit.now) }
{
    match edit {
        Edit::Insert { at, delay, bytes } => {
            let bytes = Field::Bytes(bytes.as_slice());
            put_words(
                b"insert",
                &[Field::Place(*at), Field::Seconds(*delay), bytes],
                writer,
            )
        }
        Edit::Delete { from, to } => put_words(
            b"delete",
            &[Field::Place(*from), Field::Place(*to)],
            writer,
        ),
        Edit::Replace { at, bytes } => {
            let bytes = Field::Bytes(bytes.as_slice());
            put_words(b"replace", &[Field::Place(*at), bytes], writer)
        }
        Edit::Retime { at, delay } => put_words(
            b"retime",
            &[Field::Place(*at), Field::Seconds(*delay)],
            writer,
        ),
        Edit::Cap { max } => put_words(b"cap", &[Field::Seconds(*max)], writer),
    }
}

/// Writes a word and the fields behind it, with one space between.
fn put_words<W: Write>(word: &[u8], fields: &[Field<'_>], writer: &mut Watched<W>)
    ensures { Gave W.contents writer.old writer.new
        (join_with_byte 32 (word.now ∷ map field_text fields.now)) }
{
    gives_join::<W>();
    writer.give(word);
    put_fields(fields, writer);
}

/// Writes the fields, a space before each.
fn put_fields<W: Write>(fields: &[Field<'_>], writer: &mut Watched<W>)
    ensures { Gave W.contents writer.old writer.new (flat_map spaced fields.now) }
{
    gives_join::<W>();
    for field in fields {
        put_field(*field, writer);
    }
}

/// Writes a space and a field.
fn put_field<W: Write>(field: Field<'_>, writer: &mut Watched<W>)
    ensures { Gave W.contents writer.old writer.new (spaced field.entry) }
{
    gives_join::<W>();
    match field {
        Field::Place(place) => writer.give_all(&[b" ", Buffer::new().format(place).as_bytes()]),
        Field::Seconds(us) => writer.give_all(&[b" ", seconds_text(us).as_bytes()]),
        Field::Bytes([]) => writer.give(b" -"),
        Field::Bytes(bytes) => {
            writer.give(b" ");
            give_hex(bytes, writer);
        }
    }
}
