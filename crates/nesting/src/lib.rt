// The nesting check: an element's contents hold elements, and each element holds contents.
#![tactic(auto)]

ghost use Rattle.std.specs.Prelude.{List, [], ◌≡◌, ℕ, ◌≤◌, length, map, MatchOption};
ghost use Rattle.event.specs.Row.{row_at};
ghost use Rattle.nesting_spec.specs.Nesting.{depth, document, nesting};
ghost use Rattle.nesting_spec.specs.OnePass.{outside, nested, rooted};
ghost use Rattle.nesting.specs.Answers.{nesting_of};
ghost use Rattle.nesting.specs.Reading.{name_of, same_names, tags, Breaks, BreaksOpening, ContentsTo, ElementTo};

use event::stores::{Span, Stores};
use wire::{Command, Refusal};

// How many tags may be open at once.
const DEPTH: usize = 64;

// Whether two tags have the same name. Bytes are compared only where the spans differ: a reader gives a name that it knows the
// span of its first.
fn same_names<'a>(stores: Stores<'a>, a: &[u32; 8], b: &[u32; 8]) -> bool
    ensures { result ≡ same_names stores.entry.first.now stores.entry.second.now a.now b.now }
{
    let (a, b) = (Span::of_name(a), Span::of_name(b));
    a == b || equal_bytes::same_bytes(stores.span(a), stores.span(b))
}

// Reads an element's contents, up to an end tag or the end: elements, and other events between them, of which none is a document
// event. What is left; or None, where the rows cannot nest. Siblings are a loop, so that calls stand no deeper than elements do.
#[cycle(contents_element)]
fn contents<'a, 'r>(
    stores: Stores<'a>,
    rows: &'r [[u32; 8]],
    opened: usize,
) -> Option<&'r [[u32; 8]]>
    requires { (1 ≤ opened) × (opened ≤ depth) }
    ensures { MatchOption result (Breaks stores.entry.first.now stores.entry.second.now rows.now opened) (λ rest. ContentsTo stores.entry.first.now stores.entry.second.now rows.now opened rest.now) }
{
    let mut rest = rows;
    while let Some((row, after)) = rest.split_first() {
        match row[0] {
            Command::END_TAG => return Some(rest),
            Command::START_TAG => rest = element(stores, row, after, opened)?,
            Command::START_DOCUMENT | Command::END_DOCUMENT => return None,
            _ => rest = after,
        }
    }
    Some(rest)
}

// Reads an element from after its start tag on: its contents, and the end tag of its name. What is left; or None.
#[cycle(contents_element)]
fn element<'a, 'r>(
    stores: Stores<'a>,
    start: &[u32; 8],
    rows: &'r [[u32; 8]],
    opened: usize,
) -> Option<&'r [[u32; 8]]>
    requires { opened ≤ depth }
    ensures { MatchOption result (BreaksOpening stores.entry.first.now stores.entry.second.now start.now rows.now opened) (λ rest. ElementTo stores.entry.first.now stores.entry.second.now start.now rows.now opened rest.now) }
{
    if DEPTH <= opened {
        return None;
    }
    let rest = contents(stores, rows, opened + 1)?;
    let (end, after) = rest.split_first()?;
    if same_names(stores, start, end) {
        Some(after)
    } else {
        None
    }
}

// Whether an event of this kind, which is no tag and no document event, may stand outside the outermost element.
fn stands_outside(kind: u32) -> bool
    ensures { result ≡ outside kind }
{
    matches!(kind, Command::IGNORABLE_WHITESPACE..=Command::DOC_DECL)
}

// Whether rows may stand after the outermost element, whatever the stores hold: EndDocument only as the last.
fn closes(rows: &[[u32; 8]]) -> bool
    ensures { (first second : List ℕ) → result ≡ nested (tags first second rows.now) [] }
{
    let mut rest = rows;
    while let Some((row, after)) = rest.split_first() {
        if row[0] == Command::END_DOCUMENT {
            return after.is_empty();
        }
        if !stands_outside(row[0]) {
            return false;
        }
        rest = after;
    }
    true
}

// Whether rows are what may stand outside, the outermost element, and what may stand after it.
fn roots<'a>(stores: Stores<'a>, rows: &[[u32; 8]]) -> bool
    ensures { result ≡ rooted (tags stores.entry.first.now stores.entry.second.now rows.now) }
{
    let mut rest = rows;
    while let Some((row, after)) = rest.split_first() {
        if row[0] == Command::START_TAG {
            return match element(stores, row, after, 0) {
                Some(left) => closes(left),
                None => false,
            };
        }
        if !stands_outside(row[0]) {
            return false;
        }
        rest = after;
    }
    false
}

// Whether all the rows nest, as a document: StartDocument only as the first.
fn document_nests<'a>(stores: Stores<'a>, rows: &[[u32; 8]]) -> bool
    ensures { result ≡ document (map (row_at stores.entry.first.now stores.entry.second.now) rows.now) }
{
    match rows.split_first() {
        Some((row, rest)) if row[0] == Command::START_DOCUMENT => roots(stores, rest),
        Some(_) => roots(stores, rows),
        None => false,
    }
}

// Whether an event list is one nested document: one outermost element, each end tag with the innermost open tag's name, none left open, at
// most 64 open at once; outside it only document events, comments, instructions, DocDecl and ignorable whitespace; StartDocument only first, and
// EndDocument only last. Words that form no event list are refused first.
pub fn nested<'a>(first: &'a [u8], second: &'a [u8], rows: &[u32]) -> Result<bool, Refusal>
    ensures { nesting_of result ≡ nesting first.now second.now rows.now }
{
    if !forms::list_forms(first, second, rows) {
        return Err(Refusal::NotRows);
    }
    let (rows, _) = rows.as_chunks::<8>();
    Ok(document_nests(Stores { first, second }, rows))
}
