// Which words form rows, an event and an event list.
#![tactic(auto)]

ghost use Rattle.std.specs.Prelude.{false, cond, ◌≡◌, [], ◌*◌, ◌-◌, ◌/◌, ◌%◌, ◌<◌, eqb, length, get_or};
ghost use Rattle.std.specs.Simd.{first_chunks};
ghost use Rattle.wire.specs.Token.{string};
ghost use Rattle.event.specs.Span.{span_in};
ghost use Rattle.event.specs.Row.{shape};
ghost use Rattle.event.specs.Words.{one_of, zeros, value_forms, attribute_forms, row_forms_in, rows_form, opens, single, list_forms, event_forms};
ghost use Rattle.forms.specs.Placed.{inside_at, row_forms_at};

use event::stores::{Span, Stores};
use wire::{Command, Type};

// Whether a span ends inside the store that its source names. Here and below nothing branches on what an attribute is: attributes
// come in no order of types that a branch could be guessed by.
#[tactic(auto, unfolding(event::specs::Span::span_in))]
fn span_in<'a>(stores: Stores<'a>, span: Span) -> bool
    ensures { result ≡ span_in stores.entry.first.now stores.entry.second.now span.source span.start span.len }
{
    let end = span.start as usize + span.len as usize;
    let in_first = (span.source == 0) & (end <= stores.first.len());
    let in_second = (span.source == 1) & (end <= stores.second.len());
    in_first | in_second
}

// Whether words are unused: 0.
fn unused(words: &[u32]) -> bool
    ensures { result ≡ zeros words.now 0 (length words.now) }
{
    let mut all = true;
    for word in words {
        all &= *word == 0;
    }
    all
}

// One of two answers, without a branch. A `match` on the type's shape takes 2.5 times as long on attributes of types at random.
fn choose(first: bool, yes: bool, no: bool) -> bool
    ensures { result ≡ cond first yes no }
{
    (first & yes) | (!first & no)
}

// Whether a type is one of three.
#[tactic(auto, unfolding(event::specs::Words::one_of))]
fn is_one_of(type_: u32, a: u32, b: u32, c: u32) -> bool
    ensures { result ≡ one_of type_ a b c }
{
    (type_ == a) | (type_ == b) | (type_ == c)
}

// The last three words of an attribute; valued says that they are a span that may stand there.
fn value_forms(valued: bool, row: &[u32; 8]) -> bool
    ensures { result ≡ value_forms valued row.now (shape (get_or row.now 4 0)) }
{
    let type_ = row[4];
    let none = choose(
        is_one_of(type_, Type::NULL, Type::BOOLEAN_TRUE, Type::BOOLEAN_FALSE),
        unused(&row[5..]),
        false,
    );
    let word = choose(
        is_one_of(type_, Type::INT, Type::INT_HEX, Type::FLOAT),
        unused(&row[5..7]),
        none,
    );
    let pair = choose(
        is_one_of(type_, Type::LONG, Type::LONG_HEX, Type::DOUBLE),
        unused(&row[5..6]),
        word,
    );
    choose(
        is_one_of(type_, Type::STRING, Type::BYTES_HEX, Type::BYTES_BASE64),
        valued,
        pair,
    )
}

// A row, its spans in two stores; inside says that an attribute may stand here. Kinds are told apart by branches, since
// rows of a kind come in runs; types are not. Kinds stay numbers: `Command::from` takes 1.4 times as long on tags. A call for each row takes
// half as long again.
#[inline(always)]
#[tactic(auto, using(crate::proofs::Rows::zeros_of_part), unfolding(event::specs::Words::row_forms_in, event::specs::Words::row_forms, event::specs::Words::attribute_forms))]
fn row_forms_in<'a>(stores: Stores<'a>, inside: bool, row: &[u32; 8]) -> bool
    ensures { result ≡ row_forms_in stores.entry.first.now stores.entry.second.now inside row.now }
{
    match row[0] {
        Command::ATTRIBUTE => {
            let named = span_in(stores, Span::of_name(row));
            let valued = span_in(stores, Span::of_value(row));
            inside & named & value_forms(valued, row)
        }
        Command::START_DOCUMENT | Command::END_DOCUMENT => unused(&row[1..]),
        Command::START_TAG | Command::END_TAG => {
            span_in(stores, Span::of_name(row)) & unused(&row[4..])
        }
        Command::TEXT..=Command::DOC_DECL => {
            let valued = span_in(stores, Span::of_value(row));
            (row[4] == Type::STRING) & valued & unused(&row[1..4])
        }
        _ => false,
    }
}

// Whether an attribute may stand after a row of this kind.
#[tactic(auto, unfolding(event::specs::Words::opens))]
fn opens_attributes(kind: u32) -> bool
    ensures { result ≡ opens kind }
{
    matches!(kind, Command::START_TAG | Command::ATTRIBUTE)
}

// Whether words form an event list: whole rows, each formed, with every span inside its store. A loop of its own: as a part of the writer it
// would take registers from the writer's.
#[inline(never)]
pub fn list_forms(first: &[u8], second: &[u8], rows: &[u32]) -> bool
    ensures { result ≡ list_forms first.now second.now rows.now }
{
    let (whole, rest) = rows.as_chunks::<8>();
    if !rest.is_empty() {
        return false;
    }
    let stores = Stores { first, second };
    let mut inside = false;
    for row in whole {
        if !row_forms_in(stores, inside, row) {
            return false;
        }
        inside = opens_attributes(row[0]);
    }
    true
}

// Whether an attribute may stand at this row.
fn inside_at(rows: &[[u32; 8]], row: usize) -> bool
    requires { row < length rows.now }
    ensures { result ≡ cond (eqb row 0) false (opens (get_or (get_or rows.now (row - 1) []) 0 0)) }
{
    row != 0 && opens_attributes(rows[row - 1][0])
}

// Whether there is a row of this number, counted from 0, and it forms where it stands.
pub fn row_forms_at(first: &[u8], second: &[u8], rows: &[u32], row: usize) -> bool
    ensures { result ≡ row_forms_at first.now second.now rows.now row }
{
    let (whole, _) = rows.as_chunks::<8>();
    match whole.get(row) {
        Some(words) => row_forms_in(Stores { first, second }, inside_at(whole, row), words),
        None => false,
    }
}

// Whether whole rows are one event's: a row, and after it attributes alone.
fn is_single(rows: &[u32]) -> bool
    ensures { result ≡ single (length rows.now / 8) rows.now }
{
    match rows.as_chunks::<8>().0 {
        [] => false,
        [_, attributes @ ..] => attributes
            .iter()
            .all(|row| Command::from(row[0]) == Command::Attribute),
    }
}

// Whether words form exactly one event.
#[tactic(auto, unfolding(event::specs::Words::event_forms))]
pub fn event_forms(first: &[u8], second: &[u8], rows: &[u32]) -> bool
    ensures { result ≡ event_forms first.now second.now rows.now }
{
    list_forms(first, second, rows) && is_single(rows)
}
