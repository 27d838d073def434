// A row's strings: their spans, what is wrong with them, and how many bytes a value takes.
ghost use Rattle.std.specs.Prelude.{◌≡◌, ◌+◌, ◌≤◌, ◌<◌, length, get_or};
ghost use Rattle.event.specs.Span.{part, span, value_in};
ghost use Rattle.event.specs.Row.{shape, row_at};
ghost use Rattle.writer_spec.specs.Encode.{value_bytes};
ghost use Rattle.writer_spec.specs.Faults.{string_fault, blob_fault, value_fault};
ghost use Rattle.writer.specs.Answers.{fault_of, size_of, measured};

use event::Shape;
use wire::{Refusal, limits};

// The span of a row's name.
pub(crate) fn name_in<'a>(first: &'a [u8], second: &'a [u8], w: &[u32; 8]) -> &'a [u8]
    ensures bytes { result.now ≡ span first.now second.now (get_or w.now 1 0) (get_or w.now 2 0) (get_or w.now 3 0) }
    ensures short { length result.now < 4294967296 }
{
    event::span(first, second, w[1], w[2], w[3])
}

// The span of its value.
pub(crate) fn value_in<'a>(first: &'a [u8], second: &'a [u8], w: &[u32; 8]) -> &'a [u8]
    ensures bytes { result.now ≡ span first.now second.now (get_or w.now 5 0) (get_or w.now 6 0) (get_or w.now 7 0) }
    ensures short { length result.now < 4294967296 }
{
    event::span(first, second, w[5], w[6], w[7])
}

// Of a blob only its length can be wrong.
fn blob_fault(s: &[u8]) -> Result<(), Refusal>
    requires { length s.now < 4294967296 }
    ensures { fault_of result ≡ blob_fault s.now }
{
    if limits::MAX_UNSIGNED_SHORT < s.len() {
        return Err(Refusal::ValueTooLong(s.len() as u32));
    }
    Ok(())
}

pub(crate) fn string_fault(s: &[u8]) -> Result<(), Refusal>
    requires { length s.now < 4294967296 }
    ensures { fault_of result ≡ string_fault s.now }
{
    blob_fault(s)?;
    if utf8::is_utf8(s) {
        Ok(())
    } else {
        Err(Refusal::InvalidUtf8)
    }
}

// A part of a store, as a string. It is checked where it stands, which is quicker than a slice of its own.
fn part_size(store: &[u8], start: usize, len: usize) -> Result<usize, Refusal>
    requires { (start < 4294967296) × (len < 4294967296) }
    ensures { size_of result ≡ measured (string_fault (part store.now start len)) (2 + length (part store.now start len)) }
{
    if store.len() < start + len {
        return Ok(2);
    }
    if limits::MAX_UNSIGNED_SHORT < len {
        return Err(Refusal::ValueTooLong(len as u32));
    }
    if utf8_part::is_utf8_part(store, start, len) {
        return Ok(2 + len);
    }
    Err(Refusal::InvalidUtf8)
}

// The value's span, as a string.
fn string_size<'a>(first: &'a [u8], second: &'a [u8], w: &[u32; 8]) -> Result<usize, Refusal>
    ensures { size_of result ≡ measured (string_fault (value_in first.now second.now w.now)) (2 + length (value_in first.now second.now w.now)) }
{
    if w[5] == 0 {
        return part_size(first, w[6] as usize, w[7] as usize);
    }
    if w[5] == 1 {
        return part_size(second, w[6] as usize, w[7] as usize);
    }
    Ok(2)
}

// The value of the row that eight words say.
pub(crate) fn value_size<'a>(
    first: &'a [u8],
    second: &'a [u8],
    w: &[u32; 8],
) -> Result<usize, Refusal>
    ensures { size_of result ≡ measured (value_fault (shape (row_at first.now second.now w.now).type) (row_at first.now second.now w.now).value) (length (value_bytes (row_at first.now second.now w.now).value)) }
{
    match event::shape_of(w[4]) {
        Shape::Nothing | Shape::Interned | Shape::Unknown => Ok(0),
        Shape::String => string_size(first, second, w),
        Shape::Blob => {
            let s = value_in(first, second, w);
            blob_fault(s)?;
            Ok(2 + s.len())
        }
        Shape::Word => Ok(4),
        Shape::Pair => Ok(8),
    }
}
