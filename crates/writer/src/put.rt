// The second pass, over rows that were measured: their bytes and their names.
ghost use Rattle.std.specs.Prelude.{cond, Ok, true, false, ◌≡◌, ◌+◌, ◌*◌, ◌/◌, ◌%◌, ◌≤◌, ◌<◌, length};
ghost use Rattle.std.proofs.lemmas.List.Edits.{sets};
ghost use Rattle.wire.specs.Header.{be16, be32};
ghost use Rattle.wire.specs.Limits.{max_store};
ghost use Rattle.event.specs.Row.{row_at};
ghost use Rattle.event.specs.Words.{rows_form};
ghost use Rattle.writer_spec.specs.Encode.{sized, value_bytes};
ghost use Rattle.writer_spec.specs.Writer.{rows_in, append};
ghost use Rattle.writer.specs.Answers.{lent_of, state_of, left_of, known_of};
ghost use Rattle.writer.specs.Notes.{Linked};
ghost use Rattle.writer.specs.Passes.{Slots, Ready, KnownSays, named_by, row_by, token_in, joins_by, pairs_by};

use crate::{Writer, notes, sizes};
use event::Shape;
use wire::{Command, Type};

// Where a row's name stands in the pool while that has so many names: the notes speak of the pool after all rows.
fn known_name<'a>(
    first: &'a [u8],
    second: &'a [u8],
    w: &[u32; 8],
    names: usize,
    notes: &[u32],
    heads: &[u16],
) -> Option<u32>
    requires slots { Slots (length heads.now) }
    requires linked { Linked first.now second.now notes.now heads.now }
    ensures { KnownSays first.now second.now notes.now heads.now names (row_at first.now second.now w.now) result }
{
    if event::has_name(w[0]) {
        let name = sizes::name_in(first, second, w);
        let slot = slots::slot_of(name, heads.len() as u16);
        if let Some(i) = notes::look_up(first, second, w, name, notes, heads, slot) {
            if (i as usize) < names {
                return Some(i);
            }
        }
    }
    None
}

// The same, by a guess where there is one.
fn quick_known_name<'a>(
    first: &'a [u8],
    second: &'a [u8],
    w: &[u32; 8],
    names: usize,
    notes: &[u32],
    heads: &[u16],
    seen: &[u16],
) -> Option<u32>
    requires slots { Slots (length heads.now) × Slots (length seen.now) }
    requires linked { Linked first.now second.now notes.now heads.now }
    ensures { KnownSays first.now second.now notes.now heads.now names (row_at first.now second.now w.now) result }
{
    if event::has_name(w[0]) {
        if let Some(i) = notes::recall(w, notes, seen) {
            if (i as usize) < names {
                return Some(i);
            }
            return None;
        }
    }
    known_name(first, second, w, names, notes, heads)
}

fn put_u16(output: &mut [u8], at: usize, n: usize)
    requires { at + 2 ≤ length output.old }
    ensures { output.new ≡ sets output.old at (be16 n) }
{
    output[at..at + 2].copy_from_slice(&((n % 65_536) as u16).to_be_bytes());
}

fn put_u32(output: &mut [u8], at: usize, n: u32)
    requires { at + 4 ≤ length output.old }
    ensures { output.new ≡ sets output.old at (be32 n) }
{
    output[at..at + 4].copy_from_slice(&n.to_be_bytes());
}

// A length and the bytes; the place after them.
fn put_sized(output: &mut [u8], at: usize, s: &[u8]) -> usize
    requires { at + (2 + length s.now) ≤ length output.old }
    ensures bytes { output.new ≡ sets output.old at (sized s.now) }
    ensures place { result ≡ at + length (sized s.now) }
{
    put_u16(output, at, s.len());
    let start = at + 2;
    byte_copy::copy(s, output, start);
    start + s.len()
}

// The name of a row that has one.
fn put_name<'a>(
    first: &'a [u8],
    second: &'a [u8],
    w: &[u32; 8],
    output: &mut [u8],
    at: usize,
    known: Option<u32>,
) -> usize
    requires w_in_bounds { at + length (named_by (known_of known) (row_at first.now second.now w.now)) ≤ length output.old }
    ensures bytes { output.new ≡ sets output.old at (named_by (known_of known) (row_at first.now second.now w.now)) }
    ensures place { result ≡ at + length (named_by (known_of known) (row_at first.now second.now w.now)) }
{
    if event::has_name(w[0]) {
        return match known {
            Some(i) => {
                put_u16(output, at, i as usize);
                at + 2
            }
            None => {
                put_u16(output, at, wire::INTERNED_NEW as usize);
                put_sized(output, at + 2, sizes::name_in(first, second, w))
            }
        };
    }
    at
}

// The value of a row.
fn put_value<'a>(
    first: &'a [u8],
    second: &'a [u8],
    w: &[u32; 8],
    output: &mut [u8],
    at: usize,
) -> usize
    requires w_in_bounds { at + length (value_bytes (row_at first.now second.now w.now).value) ≤ length output.old }
    ensures bytes { output.new ≡ sets output.old at (value_bytes (row_at first.now second.now w.now).value) }
    ensures place { result ≡ at + length (value_bytes (row_at first.now second.now w.now).value) }
{
    match event::shape_of(w[4]) {
        Shape::Nothing | Shape::Interned | Shape::Unknown => at,
        Shape::String | Shape::Blob => put_sized(output, at, sizes::value_in(first, second, w)),
        Shape::Word => {
            put_u32(output, at, w[7]);
            at + 4
        }
        Shape::Pair => {
            put_u32(output, at, w[6]);
            put_u32(output, at + 4, w[7]);
            at + 8
        }
    }
}

// A row's token. A bare kind has the type null on the wire, a tag that of an interned string.
#[tactic(auto, unfolding(crate::specs::Passes::token_in))]
fn token_of(w: &[u32; 8]) -> u8
    requires w_bound { token_in w.now < 256 }
    ensures { result ≡ token_in w.now }
{
    // By the order of the numbers: a match on Command jumps by a table for each row.
    let kind = w[0];
    if kind < Command::StartTag.number() {
        return (Type::Null.number() * 16 + kind) as u8;
    }
    if kind < Command::Text.number() {
        return (Type::StringInterned.number() * 16 + kind) as u8;
    }
    (w[4] * 16 + kind) as u8
}

// The row that eight words say; the place after it.
fn write_row<'a>(
    first: &'a [u8],
    second: &'a [u8],
    w: &[u32; 8],
    output: &mut [u8],
    at: usize,
    known: Option<u32>,
) -> usize
    requires w_bound { token_in w.now < 256 }
    requires w_in_bounds { at + length (row_by (known_of known) (row_at first.now second.now w.now)) ≤ length output.old }
    ensures bytes { output.new ≡ sets output.old at (row_by (known_of known) (row_at first.now second.now w.now)) }
    ensures place { result ≡ at + length (row_by (known_of known) (row_at first.now second.now w.now)) }
{
    output[at] = token_of(w);
    let after = put_name(first, second, w, output, at + 1, known);
    put_value(first, second, w, output, after)
}

// The pair of a name that joins the pool, from the row's place in the output; how many names there are then.
fn keep_name<'a>(
    first: &'a [u8],
    second: &'a [u8],
    w: &[u32; 8],
    pool: &mut [u32],
    names: usize,
    at: usize,
    known: Option<u32>,
) -> usize
    requires at_le_max_store { at ≤ max_store }
    requires at_in_bounds { 2 * names + length (pairs_by (known_of known) (row_at first.now second.now w.now) names at) ≤ length pool.old }
    ensures pairs { pool.new ≡ sets pool.old (2 * names) (pairs_by (known_of known) (row_at first.now second.now w.now) names at) }
    ensures count { result ≡ cond (joins_by (known_of known) (row_at first.now second.now w.now) names) (names + 1) names }
{
    if event::has_name(w[0]) {
        if let None = known {
            if names < wire::INTERNED_NEW as usize {
                let name = sizes::name_in(first, second, w);
                pool[2 * names] = (at + 5) as u32;
                pool[2 * names + 1] = name.len() as u32;
                return names + 1;
            }
        }
    }
    names
}

// The second pass, when nothing is refused. It looks names up among the notes alone, and not in the output, where it writes.
pub(crate) fn write_rows<'a>(
    first: &'a [u8],
    second: &'a [u8],
    rows: &[u32],
    output: &mut [u8],
    pool: &mut [u32],
    writer: Writer,
    notes: &[u32],
    heads: &[u16],
    seen: &[u16],
) -> Writer
    requires rows_len { length rows.now % 8 ≡ 0 }
    requires rows_value { rows_form first.now second.now false (length rows.now / 8) rows.now ≡ true }
    requires output_len_bound { length output.old ≤ max_store }
    requires slots { Slots (length heads.now) × Slots (length seen.now) }
    requires ready { Ready first.now second.now output.old pool.old writer.names writer.written (rows_in first.now second.now rows.now) notes.now heads.now }
    ensures { left_of (Ok result) output.new pool.new ≡ append (state_of writer) (lent_of output.old pool.old) (rows_in first.now second.now rows.now) }
{
    let mut at = writer.written;
    let mut names = writer.names;
    let (whole, _) = rows.as_chunks::<8>();
    for w in whole {
        let known = quick_known_name(first, second, w, names, notes, heads, seen);
        let next = write_row(first, second, w, output, at, known);
        names = keep_name(first, second, w, pool, names, at, known);
        at = next;
    }
    Writer { written: at, names }
}
