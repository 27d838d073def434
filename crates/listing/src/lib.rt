// The listing: a row as a line of text, and a listing's last line.
#![tactic(auto)]

ghost use Rattle.std.specs.Prelude.{[], ◌∷◌, ◌++◌, ◌≡◌, ◌≤◌, ◌<◌, length, get_or};
ghost use Rattle.text.specs.Numerals.{digit};
ghost use Rattle.text.specs.Put.{Put};
ghost use Rattle.wire.specs.Answers.{number_of, detail_of};
ghost use Rattle.wire.specs.Header.{be32};
ghost use Rattle.event.specs.Span.{span};
ghost use Rattle.event.specs.Row.{row_at, has_name};
ghost use Rattle.listing.specs.Text.{space, decimal, field};
ghost use Rattle.listing.specs.Line.{type_text, end_line, refused_line, line, put, put_row};
ghost use Rattle.listing.specs.Columns.{shown, IsShort, columns_shown};
ghost use Rattle.listing.specs.Answers.{lined_of};

use event::Shape;
use wire::{Command, Refusal};

// ---- columns

// How many digits a number has.
fn decimal_len(n: u64) -> usize
    ensures { (result ≡ length (decimal n)) × (result ≤ 20) }
{
    20 - text::decimal(n).start
}

fn put_digit(d: u64, out: &mut [u8], at: usize) -> usize
    requires { d < 10 }
    ensures { Put out.old at (digit d ∷ []) out.new result }
{
    text::put_byte(b'0' + d as u8, out, at)
}

// A number's digits. Kinds and types have one or two.
fn put_decimal(n: u64, out: &mut [u8], at: usize) -> usize
    ensures { Put out.old at (decimal n) out.new result }
{
    if n < 10 {
        return put_digit(n, out, at);
    }
    if n < 100 {
        let place = put_digit(n / 10, out, at);
        return put_digit(n % 10, out, place);
    }
    let numeral = text::decimal(n);
    let bytes = numeral.bytes;
    let start = numeral.start;
    text::put(&bytes[start..], out, at)
}

// The length of a name or value in the listing. Its bytes come from a span, so that twice their number fits.
fn field_len(field: Option<&[u8]>) -> usize
    requires { IsShort field }
    ensures { result ≡ length (shown field.entry) }
{
    match field {
        None => 1,
        Some(s) => {
            if s.is_empty() {
                return 1;
            }
            s.len() * 2
        }
    }
}

// A space and a name or value.
fn put_field(field: Option<&[u8]>, out: &mut [u8], at: usize) -> usize
    ensures { Put out.old at (space ∷ shown field.entry) out.new result }
{
    let place = text::put_byte(b' ', out, at);
    match field {
        None => text::put_byte(b'-', out, place),
        Some(s) => {
            if s.is_empty() {
                return text::put_byte(b'=', out, place);
            }
            text::put_hex(s, out, place)
        }
    }
}

#[tactic(auto, unfolding(crate::specs::Line::type_text))]
fn type_len(kind: u32, type_: u32) -> usize
    ensures { (result ≡ length (type_text kind type_)) × (result ≤ 20) }
{
    if kind == Command::Attribute.number() {
        return decimal_len(type_ as u64);
    }
    1
}

// A space and a type.
fn put_type(kind: u32, type_: u32, out: &mut [u8], at: usize) -> usize
    ensures { Put out.old at (space ∷ type_text kind type_) out.new result }
{
    let place = text::put_byte(b' ', out, at);
    if kind == Command::Attribute.number() {
        return put_decimal(type_ as u64, out, place);
    }
    text::put_byte(b'-', out, place)
}

// ---- lines

// The four columns and the line's end.
fn put_columns(
    kind: u32,
    name: Option<&[u8]>,
    type_: u32,
    value: Option<&[u8]>,
    out: &mut [u8],
) -> usize
    ensures { Put out.old 0 (columns_shown kind (shown name.entry) type_ (shown value.entry)) out.new result }
{
    let after_kind = put_decimal(kind as u64, out, 0);
    let after_name = put_field(name, out, after_kind);
    let after_type = put_type(kind, type_, out, after_name);
    let after_value = put_field(value, out, after_type);
    text::put_byte(b'\n', out, after_value)
}

fn columns_len(kind: u32, name: Option<&[u8]>, type_: u32, value: Option<&[u8]>) -> usize
    requires { IsShort name × IsShort value }
    ensures { result ≡ length (columns_shown kind (shown name.entry) type_ (shown value.entry)) }
{
    let kinds = decimal_len(kind as u64);
    let names = field_len(name);
    let types = type_len(kind, type_);
    let values = field_len(value);
    kinds + names + types + values + 4
}

// The line of these columns, where it fits.
fn put_line(
    kind: u32,
    name: Option<&[u8]>,
    type_: u32,
    value: Option<&[u8]>,
    out: &mut [u8],
) -> Result<usize, Refusal>
    requires { IsShort name × IsShort value }
    ensures { lined_of out.new result ≡ put (columns_shown kind (shown name.entry) type_ (shown value.entry)) out.old }
{
    if out.len() < columns_len(kind, name, type_, value) {
        return Err(Refusal::OutputFull);
    }
    Ok(put_columns(kind, name, type_, value, out))
}

// The bytes of two numbers on the wire.
fn pair(a: u32, b: u32) -> [u8; 8]
    ensures { result ≡ be32 a ++ be32 b }
{
    let mut bytes = [0u8; 8];
    bytes[..4].copy_from_slice(&text::word(a));
    bytes[4..].copy_from_slice(&text::word(b));
    bytes
}

// A row's name, where rows of its kind have one.
fn name_of<'a>(first: &'a [u8], second: &'a [u8], w: &[u32; 8]) -> Option<&'a [u8]>
    ensures shown { shown result ≡ field (has_name (get_or w.now 0 0)) (span first.now second.now (get_or w.now 1 0) (get_or w.now 2 0) (get_or w.now 3 0)) }
    ensures short { IsShort result }
{
    if event::has_name(w[0]) {
        return Some(event::span(first, second, w[1], w[2], w[3]));
    }
    None
}

// The line of a row.
fn put_row<'a>(
    first: &'a [u8],
    second: &'a [u8],
    w: &[u32; 8],
    out: &mut [u8],
) -> Result<usize, Refusal>
    ensures { lined_of out.new result ≡ put (line (row_at first.now second.now w.now)) out.old }
{
    let kind = w[0];
    let type_ = w[4];
    let name = name_of(first, second, w);
    match event::shape_of(type_) {
        Shape::String | Shape::Blob => {
            let value = event::span(first, second, w[5], w[6], w[7]);
            put_line(kind, name, type_, Some(value), out)
        }
        Shape::Word => put_line(kind, name, type_, Some(&text::word(w[7])), out),
        Shape::Pair => put_line(kind, name, type_, Some(&pair(w[6], w[7])), out),
        Shape::Nothing | Shape::Interned | Shape::Unknown => {
            put_line(kind, name, type_, None, out)
        }
    }
}

// Writes the line of a row to the output's first bytes; its spans lie in two stores. The bytes after the line stay, and all where
// it does not fit or the rows have no such row.
#[tactic(auto, unfolding(crate::specs::Line::put_row))]
pub fn line<'a>(
    first: &'a [u8],
    second: &'a [u8],
    rows: &[u32],
    row: usize,
    out: &mut [u8],
) -> Result<usize, Refusal>
    ensures { lined_of out.new result ≡ put_row first.now second.now rows.now row out.old }
{
    let (whole, _) = rows.as_chunks::<8>();
    let w = whole.get(row).ok_or(Refusal::NotRows)?;
    put_row(first, second, w, out)
}

// The last line of a listing that came to the end of its document, after so many events.
pub fn end_line(events: usize, out: &mut [u8]) -> Result<usize, Refusal>
    ensures { lined_of out.new result ≡ put (end_line events) out.old }
{
    let len = decimal_len(events as u64) + 5;
    if out.len() < len {
        return Err(Refusal::OutputFull);
    }
    let after_word = text::put(b"end ", out, 0);
    let after_number = put_decimal(events as u64, out, after_word);
    Ok(text::put_byte(b'\n', out, after_number))
}

// The last line of a listing that was refused an event.
pub fn refused_line(refusal: Refusal, out: &mut [u8]) -> Result<usize, Refusal>
    ensures { lined_of out.new result ≡ put (refused_line (number_of refusal) (detail_of refusal)) out.old }
{
    let number = refusal.number() as u64;
    let detail = refusal.detail() as u64;
    let len = decimal_len(number) + decimal_len(detail) + 10;
    if out.len() < len {
        return Err(Refusal::OutputFull);
    }
    let after_word = text::put(b"refused ", out, 0);
    let after_number = put_decimal(number, out, after_word);
    let after_space = text::put_byte(b' ', out, after_number);
    let after_detail = put_decimal(detail, out, after_space);
    Ok(text::put_byte(b'\n', out, after_detail))
}
