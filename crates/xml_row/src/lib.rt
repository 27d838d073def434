// A row's part of its event's text: what is wrong with its strings, where it ends, and the text itself. Module values has the text
// of values.
#![tactic(auto)]

mod values;

ghost use Rattle.std.specs.Prelude.{true, [], ◌∷◌, ◌++◌, ◌≡◌, ◌⊎◌, length, get_or, IfErr};
ghost use Rattle.wire.specs.declared.Refusal.TheVariants.{InvalidUtf8, IllegalChar};
ghost use Rattle.event.specs.Span.{span};
ghost use Rattle.event.specs.Row.{row_at, has_name};
ghost use Rattle.text.specs.Put.{after, Put};
ghost use Rattle.xml_spec.specs.Xml.{text_of, text_xml, attribute_xml};
ghost use Rattle.xml_spec.specs.Rows.{closing, row_fault, row_xml};
ghost use Rattle.xml_chars.specs.Answers.{fault_of};
ghost use Rattle.xml_row.specs.Faults.{name_fault, value_fault};
ghost use Rattle.xml_row.specs.Texts.{marks};

use event::Shape;
use wire::{Command, Refusal};

// The span of a name.
fn name_in<'a>(first: &'a [u8], second: &'a [u8], w: &[u32; 8]) -> &'a [u8]
    ensures { result.now ≡ span first.now second.now (get_or w.now 1 0) (get_or w.now 2 0) (get_or w.now 3 0) }
{
    event::span(first, second, w[1], w[2], w[3])
}

// ---- what is wrong with strings

fn name_fault<'a>(first: &'a [u8], second: &'a [u8], w: &[u32; 8]) -> Result<(), Refusal>
    ensures fault { fault_of result ≡ name_fault (row_at first.now second.now w.now) }
    ensures refusal { IfErr result (λ r. (r ≡ InvalidUtf8) ⊎ (r ≡ IllegalChar)) }
{
    if event::has_name(w[0]) {
        return xml_chars::fault(name_in(first, second, w));
    }
    Ok(())
}

// Blobs are no strings.
fn value_fault<'a>(first: &'a [u8], second: &'a [u8], w: &[u32; 8]) -> Result<(), Refusal>
    ensures fault { fault_of result ≡ value_fault (row_at first.now second.now w.now) }
    ensures refusal { IfErr result (λ r. (r ≡ InvalidUtf8) ⊎ (r ≡ IllegalChar)) }
{
    match event::shape_of(w[4]) {
        Shape::String => xml_chars::fault(values::value_in(first, second, w)),
        _ => Ok(()),
    }
}

// What is wrong with a row's strings: refusal 7 for any of them, or 20 for any.
pub fn fault<'a>(first: &'a [u8], second: &'a [u8], w: &[u32; 8]) -> Result<(), Refusal>
    ensures fault { fault_of result ≡ row_fault (row_at first.now second.now w.now) }
    ensures refusal { IfErr result (λ r. (r ≡ InvalidUtf8) ⊎ (r ≡ IllegalChar)) }
{
    match name_fault(first, second, w) {
        Ok(()) => value_fault(first, second, w),
        Err(fault) => match fault {
            Refusal::InvalidUtf8 => Err(fault),
            _ => value_fault(first, second, w).and(Err(fault)),
        },
    }
}

// ---- texts

// The string of a text.
fn text_in<'a>(first: &'a [u8], second: &'a [u8], w: &[u32; 8]) -> &'a [u8]
    ensures { result.now ≡ text_of (row_at first.now second.now w.now).value }
{
    match event::shape_of(w[4]) {
        Shape::String | Shape::Blob => values::value_in(first, second, w),
        Shape::Nothing | Shape::Interned | Shape::Word | Shape::Pair | Shape::Unknown => {
            &first[..0]
        }
    }
}

// How many bytes stand around the string of a text.
#[tactic(auto, unfolding(crate::specs::Texts::marks))]
fn marks(kind: u32) -> usize
    ensures { result ≡ marks kind }
{
    match Command::from(kind) {
        Command::Text | Command::IgnorableWhitespace => 0,
        Command::Cdata => 12,
        Command::EntityRef => 2,
        Command::ProcessingInstruction => 4,
        Command::Comment => 7,
        _ => 11,
    }
}

#[tactic(auto, unfolding(xml_spec::specs::Xml::text_xml))]
fn text_end(kind: u32, s: &[u8], limit: usize, at: usize) -> usize
    ensures { result ≡ after limit at (length (text_xml kind s.now)) }
{
    match Command::from(kind) {
        Command::Text => xml_escape::escaped_end(s, limit, at),
        _ => text::after(limit, text::after(limit, at, s.len()), marks(kind)),
    }
}

fn put_between(before: &[u8], s: &[u8], after: &[u8], out: &mut [u8], at: usize) -> usize
    ensures { Put out.old at (before.now ++ s.now ++ after.now) out.new result }
{
    let start = text::put(before, out, at);
    let end = text::put(s, out, start);
    text::put(after, out, end)
}

#[tactic(auto, unfolding(xml_spec::specs::Xml::text_xml))]
fn put_text(kind: u32, s: &[u8], out: &mut [u8], at: usize) -> usize
    ensures { Put out.old at (text_xml kind s.now) out.new result }
{
    match Command::from(kind) {
        Command::Text => xml_escape::put_escaped(s, out, at),
        Command::Cdata => put_between(b"<![CDATA[", s, b"]]>", out, at),
        Command::EntityRef => put_between(b"&", s, b";", out, at),
        Command::IgnorableWhitespace => text::put(s, out, at),
        Command::ProcessingInstruction => put_between(b"<?", s, b"?>", out, at),
        Command::Comment => put_between(b"<!--", s, b"-->", out, at),
        _ => put_between(b"<!DOCTYPE ", s, b">", out, at),
    }
}

// ---- tags and attributes

// A start tag is closed after its event's last row.
fn closing_end(last: bool, limit: usize, at: usize) -> usize
    ensures { result ≡ after limit at (length (closing last)) }
{
    if last {
        return text::after(limit, at, 1);
    }
    text::after(limit, at, 0)
}

fn put_closing(last: bool, out: &mut [u8], at: usize) -> usize
    ensures { Put out.old at (closing last) out.new result }
{
    if last {
        return text::put_byte(b'>', out, at);
    }
    text::after(out.len(), at, 0)
}

fn put_two(a: u8, b: u8, out: &mut [u8], at: usize) -> usize
    ensures { Put out.old at (a ∷ b ∷ []) out.new result }
{
    let second = text::put_byte(a, out, at);
    text::put_byte(b, out, second)
}

fn attribute_end<'a>(
    first: &'a [u8],
    second: &'a [u8],
    w: &[u32; 8],
    limit: usize,
    at: usize,
) -> usize
    requires { has_name (get_or w.now 0 0) ≡ true }
    ensures { result ≡ after limit at (length (attribute_xml (row_at first.now second.now w.now))) }
{
    let name = text::after(limit, at, name_in(first, second, w).len());
    let quote = text::after(limit, name, 3);
    let value = values::value_end(first, second, w, limit, quote);
    text::after(limit, value, 1)
}

fn put_attribute<'a>(
    first: &'a [u8],
    second: &'a [u8],
    w: &[u32; 8],
    out: &mut [u8],
    at: usize,
) -> usize
    requires { has_name (get_or w.now 0 0) ≡ true }
    ensures { Put out.old at (attribute_xml (row_at first.now second.now w.now)) out.new result }
{
    let space = text::put_byte(b' ', out, at);
    let name = text::put(name_in(first, second, w), out, space);
    let quote = put_two(b'=', b'"', out, name);
    let value = values::put_value(first, second, w, out, quote);
    text::put_byte(b'"', out, value)
}

// ---- rows

// The place after a row's text, or the limit where that is past it; last says that the row is its event's last.
pub fn end<'a>(
    first: &'a [u8],
    second: &'a [u8],
    w: &[u32; 8],
    last: bool,
    limit: usize,
    at: usize,
) -> usize
    ensures { result ≡ after limit at (length (row_xml last (row_at first.now second.now w.now))) }
{
    let kind = w[0];
    match Command::from(kind) {
        Command::StartDocument | Command::EndDocument => text::after(limit, at, 0),
        Command::StartTag => {
            let name = text::after(limit, at, name_in(first, second, w).len());
            closing_end(last, limit, text::after(limit, name, 1))
        }
        Command::EndTag => {
            let name = text::after(limit, at, name_in(first, second, w).len());
            text::after(limit, name, 3)
        }
        Command::Attribute => {
            let attribute = attribute_end(first, second, w, limit, at);
            closing_end(last, limit, attribute)
        }
        _ => text_end(kind, text_in(first, second, w), limit, at),
    }
}

// Puts a row's text; the place after it.
pub fn put<'a>(
    first: &'a [u8],
    second: &'a [u8],
    w: &[u32; 8],
    last: bool,
    out: &mut [u8],
    at: usize,
) -> usize
    ensures { Put out.old at (row_xml last (row_at first.now second.now w.now)) out.new result }
{
    let kind = w[0];
    match Command::from(kind) {
        Command::StartDocument | Command::EndDocument => text::after(out.len(), at, 0),
        Command::StartTag => {
            let start = text::put_byte(b'<', out, at);
            let end = text::put(name_in(first, second, w), out, start);
            put_closing(last, out, end)
        }
        Command::EndTag => {
            let start = put_two(b'<', b'/', out, at);
            let end = text::put(name_in(first, second, w), out, start);
            text::put_byte(b'>', out, end)
        }
        Command::Attribute => {
            let end = put_attribute(first, second, w, out, at);
            put_closing(last, out, end)
        }
        _ => put_text(kind, text_in(first, second, w), out, at),
    }
}
