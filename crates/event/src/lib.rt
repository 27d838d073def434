// Rows of eight words: the bytes that their spans name, and what a row has by its kind and type.
#![tactic(auto)]

pub mod stores;

ghost use Rattle.std.specs.Prelude.{[], ◌≡◌};
ghost use Rattle.event.specs.Span.{part, span, text, part_at, span_at, text_at};
ghost use Rattle.event.specs.Row.{shape, has_name};

use wire::{Command, Type};

// ---- spans

// The bytes of a store from a start on; `empty` where they end outside.
#[tactic(auto, unfolding(crate::specs::Span::part, crate::specs::Span::part_at))]
fn part<'a>(store: &'a [u8], empty: &'a [u8], start: u32, len: u32) -> &'a [u8]
    requires { empty.now ≡ [] }
    ensures bytes { result.now ≡ part store.now start len }
    ensures place { result.ref_ptr ≡ part_at store.now store.entry.ref_ptr empty.entry.ref_ptr start len }
{
    let at = start as usize;
    let end = at + len as usize;
    if end <= store.len() {
        &store[at..end]
    } else {
        empty
    }
}

// The part of whichever of two stores the source names. A span that names no bytes gives the empty part at the first
// store's start.
#[tactic(auto, unfolding(crate::specs::Span::span, crate::specs::Span::span_at))]
pub fn span<'a>(first: &'a [u8], second: &'a [u8], source: u32, start: u32, len: u32) -> &'a [u8]
    ensures bytes { result.now ≡ span first.now second.now source start len }
    ensures place { result.ref_ptr ≡ span_at first.now first.entry.ref_ptr second.now second.entry.ref_ptr source start len }
{
    let empty = &first[..0];
    match source {
        0 => part(first, empty, start, len),
        1 => part(second, empty, start, len),
        _ => empty,
    }
}

// The part of a document alone; the empty part at its start where the span names no bytes.
#[tactic(auto, unfolding(crate::specs::Span::text, crate::specs::Span::text_at))]
pub fn text<'a>(document: &'a [u8], source: u32, start: u32, len: u32) -> &'a [u8]
    ensures bytes { result.now ≡ text document.now source start len }
    ensures place { result.ref_ptr ≡ text_at document.now document.entry.ref_ptr source start len }
{
    let empty = &document[..0];
    match source {
        0 => part(document, empty, start, len),
        _ => empty,
    }
}

// ---- what a row has, by its type and kind: as numbers, which is quicker for each row that is written

// How the value of a type is carried.
#[derive(Clone, Copy, Debug, PartialEq, Eq)]
pub enum Shape {
    Nothing,
    String,
    Interned,
    Blob,
    Word,
    Pair,
    Unknown,
}

#[tactic(auto, unfolding(crate::specs::Row::shape, crate::specs::Row::shapes))]
pub fn shape_of(type_: u32) -> Shape
    ensures { result ≡ shape type_ }
{
    match type_ {
        Type::NULL | Type::BOOLEAN_TRUE | Type::BOOLEAN_FALSE => Shape::Nothing,
        Type::STRING => Shape::String,
        Type::STRING_INTERNED => Shape::Interned,
        Type::BYTES_HEX | Type::BYTES_BASE64 => Shape::Blob,
        Type::INT | Type::INT_HEX | Type::FLOAT => Shape::Word,
        Type::LONG | Type::LONG_HEX | Type::DOUBLE => Shape::Pair,
        _ => Shape::Unknown,
    }
}

// Whether rows of this kind have a name.
#[tactic(auto, unfolding(crate::specs::Row::has_name))]
pub fn has_name(kind: u32) -> bool
    ensures { result ≡ has_name kind }
{
    matches!(
        kind,
        Command::START_TAG | Command::END_TAG | Command::ATTRIBUTE
    )
}
