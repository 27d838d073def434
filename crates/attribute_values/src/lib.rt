// The value of an attribute's row.
#![tactic(auto)]

ghost use Rattle.std.specs.Prelude.{◌≡◌, ◌+◌, ◌*◌, ◌^◌, ltb, get_or};
ghost use Rattle.event.specs.Row.{shape};
ghost use Rattle.event.specs.Words.{value_forms};
ghost use Rattle.attribute_values.specs.Value.{value_by_type, row_value, attribute_value, accessed_of};

use event::Shape;
use event::stores::Span;
use wire::{Command, Refusal, Type};

// An attribute's value. A float is its bits: a number of the language could not hold every NaN.
#[derive(Clone, Copy, Debug, PartialEq, Eq)]
pub enum AttributeValue {
    Null,
    String(Span),
    BytesHex(Span),
    BytesBase64(Span),
    Int(i32),
    IntHex(u32),
    Long(i64),
    LongHex(u64),
    Float(u32),
    Double(u64),
    Boolean(bool),
}

// Two words as one number, the high one first.
fn joined(high: u32, low: u32) -> u64
    ensures { result ≡ high * 2 ^ 32 + low }
{
    (u64::from(high) << 32) + u64::from(low)
}

// A row's value by its type. Type 3 has become 2 in a row.
#[tactic(auto, unfolding(crate::specs::Value::value_by_type, crate::specs::Value::value_by_shape, crate::specs::Value::word, crate::specs::Value::pair, event::specs::Row::shape, event::specs::Row::shapes))]
fn value_by_type(row: &[u32; 8]) -> Result<AttributeValue, Refusal>
    ensures { accessed_of result ≡ value_by_type (get_or row.now 4 0) (get_or row.now 5 0) (get_or row.now 6 0) (get_or row.now 7 0) }
{
    let value = match Type::from(row[4]) {
        Type::Null => AttributeValue::Null,
        Type::String => AttributeValue::String(Span::of_value(row)),
        Type::BytesHex => AttributeValue::BytesHex(Span::of_value(row)),
        Type::BytesBase64 => AttributeValue::BytesBase64(Span::of_value(row)),
        Type::Int => AttributeValue::Int(row[7].cast_signed()),
        Type::IntHex => AttributeValue::IntHex(row[7]),
        Type::Long => AttributeValue::Long(joined(row[6], row[7]).cast_signed()),
        Type::LongHex => AttributeValue::LongHex(joined(row[6], row[7])),
        Type::Float => AttributeValue::Float(row[7]),
        Type::Double => AttributeValue::Double(joined(row[6], row[7])),
        Type::BooleanTrue => AttributeValue::Boolean(true),
        Type::BooleanFalse => AttributeValue::Boolean(false),
        Type::StringInterned | Type::Unknown(_) => return Err(Refusal::NotRows),
    };
    Ok(value)
}

// Whether an attribute's last three words are as its type has them; of a span only the source is looked at.
#[tactic(auto, unfolding(event::specs::Words::value_forms, event::specs::Words::zeros))]
fn value_forms(row: &[u32; 8]) -> bool
    ensures { result ≡ value_forms (ltb (get_or row.now 5 0) 2) row.now (shape (get_or row.now 4 0)) }
{
    match event::shape_of(row[4]) {
        Shape::Nothing => row[5..] == [0, 0, 0],
        Shape::String | Shape::Blob => row[5] < 2,
        Shape::Word => row[5..7] == [0, 0],
        Shape::Pair => row[5] == 0,
        Shape::Interned | Shape::Unknown => false,
    }
}

// The value of the attribute that a row says.
#[tactic(auto, unfolding(crate::specs::Value::row_value, event::specs::Words::attribute_forms))]
fn row_value(row: &[u32; 8]) -> Result<AttributeValue, Refusal>
    ensures { accessed_of result ≡ row_value row.now }
{
    if Command::from(row[0]) == Command::Attribute && row[1] < 2 && value_forms(row) {
        value_by_type(row)
    } else {
        Err(Refusal::NotRows)
    }
}

// The value of the attribute in a row, counted from 0. The row is looked at by itself: a query hands out an attribute's
// row with no start tag before it, and there are no stores here that its spans could end outside of.
#[tactic(auto, unfolding(crate::specs::Value::attribute_value))]
pub fn attribute_value(rows: &[u32], row: usize) -> Result<AttributeValue, Refusal>
    ensures { accessed_of result ≡ attribute_value rows.now row }
{
    let (whole, _) = rows.as_chunks::<8>();
    let words = whole.get(row).ok_or(Refusal::NotRows)?;
    row_value(words)
}
