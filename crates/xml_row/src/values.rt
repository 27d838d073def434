// A value as text, by its type.
ghost use Rattle.std.specs.Prelude.{cond, ◌≡◌, ℕ, ◌+◌, ◌*◌, ◌/◌, ◌<◌, length, drop, get_or};
ghost use Rattle.event.specs.Span.{value_in};
ghost use Rattle.event.specs.Row as Row;
ghost use Rattle.event.specs.Row.{row_at};
ghost use Rattle.text.specs.Numerals.{numeral};
ghost use Rattle.text.specs.Put.{after, Put};
ghost use Rattle.xml_spec.specs.Xml.{signed, value_xml};
ghost use Rattle.xml_row.specs.Numbers.{signed_by};

use event::Shape;
use text::Numeral;
use wire::Type;

// ---- numbers

// A signed number: its sign, and its size.
#[derive(Clone, Copy)]
pub struct Signed {
    pub negative: bool,
    pub size: u64,
}

fn signed_word(b: u32) -> Signed
    ensures { (base : ℕ) → signed_by base result.negative result.size ≡ signed base 2_147_483_648 b }
{
    if b < 0x8000_0000 {
        return Signed {
            negative: false,
            size: b as u64,
        };
    }
    Signed {
        negative: true,
        size: 0x1_0000_0000 - b as u64,
    }
}

fn signed_pair(a: u32, b: u32) -> Signed
    ensures { (base : ℕ) → signed_by base result.negative result.size ≡ signed base 9_223_372_036_854_775_808 (a * 4_294_967_296 + b) }
{
    let n = a as u64 * 0x1_0000_0000 + b as u64;
    if n < 0x8000_0000_0000_0000 {
        return Signed {
            negative: false,
            size: n,
        };
    }
    Signed {
        negative: true,
        size: 0xFFFF_FFFF_FFFF_FFFF - n + 1,
    }
}

// The digits of a number's size.
fn digits(hexadecimal: bool, size: u64) -> Numeral
    ensures { (drop result.start result.bytes ≡ numeral (cond hexadecimal 16 10) size) × (result.start < 20) × (length result.bytes ≡ 20) }
{
    if hexadecimal {
        return text::hexadecimal(size);
    }
    text::decimal(size)
}

fn signed_end(hexadecimal: bool, n: Signed, limit: usize, at: usize) -> usize
    ensures { result ≡ after limit at (length (signed_by (cond hexadecimal 16 10) n.negative n.size)) }
{
    let numeral = digits(hexadecimal, n.size);
    let len = 20 - numeral.start;
    if n.negative {
        return text::after(limit, at, len + 1);
    }
    text::after(limit, at, len)
}

fn put_signed(hexadecimal: bool, n: Signed, out: &mut [u8], at: usize) -> usize
    ensures { Put out.old at (signed_by (cond hexadecimal 16 10) n.negative n.size) out.new result }
{
    let numeral = digits(hexadecimal, n.size);
    let bytes = numeral.bytes;
    let start = numeral.start;
    if n.negative {
        let sign = text::put_byte(b'-', out, at);
        return text::put(&bytes[start..], out, sign);
    }
    text::put(&bytes[start..], out, at)
}

// ---- booleans and null

#[tactic(auto, unfolding(xml_spec::specs::Xml::value_xml))]
fn mark_end(type_: u32, limit: usize, at: usize) -> usize
    ensures { result ≡ after limit at (length (value_xml type_ Row.nothing)) }
{
    let len = match Type::from(type_) {
        Type::BooleanTrue => 4,
        Type::BooleanFalse => 5,
        _ => 0,
    };
    text::after(limit, at, len)
}

#[tactic(auto, unfolding(xml_spec::specs::Xml::value_xml))]
fn put_mark(type_: u32, out: &mut [u8], at: usize) -> usize
    ensures { Put out.old at (value_xml type_ Row.nothing) out.new result }
{
    match Type::from(type_) {
        Type::BooleanTrue => text::put(b"true", out, at),
        Type::BooleanFalse => text::put(b"false", out, at),
        _ => text::after(out.len(), at, 0),
    }
}

// ---- strings and blobs

// Four letters for every three bytes that are begun.
fn base64_end(n: usize, limit: usize, at: usize) -> usize
    ensures { result ≡ after limit at ((n + 2) / 3 * 4) }
{
    let whole = n / 3;
    let groups = if n % 3 == 0 { whole } else { whole + 1 };
    let half = text::after(limit, text::after(limit, at, groups), groups);
    text::after(limit, text::after(limit, half, groups), groups)
}

#[tactic(auto, unfolding(xml_spec::specs::Xml::value_xml))]
fn bytes_end(type_: u32, s: &[u8], limit: usize, at: usize) -> usize
    ensures { result ≡ after limit at (length (value_xml type_ (Row.bytes s.now))) }
{
    match Type::from(type_) {
        Type::BytesHex => text::after(limit, text::after(limit, at, s.len()), s.len()),
        Type::BytesBase64 => base64_end(s.len(), limit, at),
        _ => xml_escape::escaped_end(s, limit, at),
    }
}

#[tactic(auto, unfolding(xml_spec::specs::Xml::value_xml))]
fn put_bytes(type_: u32, s: &[u8], out: &mut [u8], at: usize) -> usize
    ensures { Put out.old at (value_xml type_ (Row.bytes s.now)) out.new result }
{
    match Type::from(type_) {
        Type::BytesHex => text::put_hex(s, out, at),
        Type::BytesBase64 => text::put_base64(s, out, at),
        _ => xml_escape::put_escaped(s, out, at),
    }
}

// ---- 32 and 64 bits

#[tactic(auto, unfolding(xml_spec::specs::Xml::value_xml))]
fn word_end(type_: u32, b: u32, limit: usize, at: usize) -> usize
    ensures { result ≡ after limit at (length (value_xml type_ (Row.word b))) }
{
    match Type::from(type_) {
        Type::Int => signed_end(false, signed_word(b), limit, at),
        Type::IntHex => signed_end(true, signed_word(b), limit, at),
        _ => text::after(limit, at, 8),
    }
}

#[tactic(auto, unfolding(xml_spec::specs::Xml::value_xml))]
fn put_word(type_: u32, b: u32, out: &mut [u8], at: usize) -> usize
    ensures { Put out.old at (value_xml type_ (Row.word b)) out.new result }
{
    match Type::from(type_) {
        Type::Int => put_signed(false, signed_word(b), out, at),
        Type::IntHex => put_signed(true, signed_word(b), out, at),
        _ => text::put_hex(&text::word(b), out, at),
    }
}

#[tactic(auto, unfolding(xml_spec::specs::Xml::value_xml))]
fn pair_end(type_: u32, a: u32, b: u32, limit: usize, at: usize) -> usize
    ensures { result ≡ after limit at (length (value_xml type_ (Row.pair a b))) }
{
    match Type::from(type_) {
        Type::Long => signed_end(false, signed_pair(a, b), limit, at),
        Type::LongHex => signed_end(true, signed_pair(a, b), limit, at),
        _ => text::after(limit, at, 16),
    }
}

#[tactic(auto, unfolding(xml_spec::specs::Xml::value_xml))]
fn put_pair(type_: u32, a: u32, b: u32, out: &mut [u8], at: usize) -> usize
    ensures { Put out.old at (value_xml type_ (Row.pair a b)) out.new result }
{
    match Type::from(type_) {
        Type::Long => put_signed(false, signed_pair(a, b), out, at),
        Type::LongHex => put_signed(true, signed_pair(a, b), out, at),
        _ => {
            let half = text::put_hex(&text::word(a), out, at);
            text::put_hex(&text::word(b), out, half)
        }
    }
}

// ---- values

// The span of a value.
pub(crate) fn value_in<'a>(first: &'a [u8], second: &'a [u8], w: &[u32; 8]) -> &'a [u8]
    ensures { result.now ≡ value_in first.now second.now w.now }
{
    event::span(first, second, w[5], w[6], w[7])
}

// The place after a value's text, or the limit where that is past it.
pub(crate) fn value_end<'a>(
    first: &'a [u8],
    second: &'a [u8],
    w: &[u32; 8],
    limit: usize,
    at: usize,
) -> usize
    ensures { result ≡ after limit at (length (value_xml (get_or w.now 4 0) (row_at first.now second.now w.now).value)) }
{
    let type_ = w[4];
    match event::shape_of(type_) {
        Shape::Nothing | Shape::Interned | Shape::Unknown => mark_end(type_, limit, at),
        Shape::String | Shape::Blob => bytes_end(type_, value_in(first, second, w), limit, at),
        Shape::Word => word_end(type_, w[7], limit, at),
        Shape::Pair => pair_end(type_, w[6], w[7], limit, at),
    }
}

pub(crate) fn put_value<'a>(
    first: &'a [u8],
    second: &'a [u8],
    w: &[u32; 8],
    out: &mut [u8],
    at: usize,
) -> usize
    ensures { Put out.old at (value_xml (get_or w.now 4 0) (row_at first.now second.now w.now).value) out.new result }
{
    let type_ = w[4];
    match event::shape_of(type_) {
        Shape::Nothing | Shape::Interned | Shape::Unknown => put_mark(type_, out, at),
        Shape::String | Shape::Blob => put_bytes(type_, value_in(first, second, w), out, at),
        Shape::Word => put_word(type_, w[7], out, at),
        Shape::Pair => put_pair(type_, w[6], w[7], out, at),
    }
}
