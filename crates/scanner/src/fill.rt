// The second pass over an event that was measured: its new names are kept and its rows are written, in one walk. What is read here was read
// before, so that nothing is checked again. A place is counted from the event's first byte, where the slice starts.
ghost use Rattle.std.specs.Prelude.{cond, [], ◌∷◌, ◌++◌, ◌≡◌, ◌+◌, ◌*◌, ◌≤◌, ◌<◌, length, get_or};
ghost use Rattle.std.proofs.lemmas.List.Edits.{sets};
ghost use Rattle.wire.specs.Header.{u32_at};
ghost use Rattle.wire.specs.Limits.{max_store, max_unsigned_short};
ghost use Rattle.wire.specs.Token.{command};
ghost use Rattle.grammar.specs.Reader.{got};
ghost use Rattle.grammar.specs.Grammar.{new, u16, blob, name, value, attribute, first};
ghost use Rattle.grammar.specs.Scan.{adds_ref, adds_value, adds_item, count};
ghost use Rattle.grammar.specs.Attributes.{is_attribute};
ghost use Rattle.grammar.specs.Trusted.{always};
ghost use Rattle.grammar.specs.Turn.{rest};
ghost use Rattle.quick.specs.Quick.{words_of};
ghost use Rattle.scanner.specs.Fill.{Room, Keeps, Has, Once, Within, SpanFilled, RefFilled, ValueFilled, RowFilled, Ready, ReadyAt, FilledRows, BegunRows, OneFilled, rows_from, others_from};

use event::Shape;
use quick::Flat;
use wire::{Command, Type};

// Where new names go: they stay in the input, which stands in its store from base on, or their bytes are copied to the name store.
#[derive(Clone, Copy)]
pub struct Home {
    pub base: usize,
    pub copied: bool,
}

// The pool has so many names, and so many bytes of the name store are used.
#[derive(Clone, Copy)]
pub struct Kept {
    pub names: usize,
    pub used: usize,
}

// ---- words

// The words of a span; the event starts at base.
fn span_words(base: usize, start: usize, len: usize) -> Flat
    requires { base + (start + len) ≤ max_store }
    ensures { words_of result ≡ 0 ∷ (base + start) ∷ len ∷ [] }
{
    Flat {
        source: 0,
        a: (base + start) as u32,
        b: len as u32,
    }
}

// The pair of a pool entry, as a span of its store.
fn pooled_words(copied: bool, table: &[u32], index: usize) -> Flat
    requires { 2 * index + 1 < length table.now }
    ensures { words_of result ≡ cond copied 1 0 ∷ get_or table.now (2 * index) 0 ∷ get_or table.now (2 * index + 1) 0 ∷ [] }
{
    Flat {
        source: copied as u32,
        a: table[2 * index],
        b: table[2 * index + 1],
    }
}

const NO_WORDS: Flat = Flat {
    source: 0,
    a: 0,
    b: 0,
};

// The eight words of a row, from a place on. One by one: by copy_from_slice of an array of eight, the quick way needs 25% more instructions.
fn put_row(rows: &mut [u32], to: usize, kind: u32, name: Flat, type_: u32, value: Flat)
    requires { to + 8 ≤ length rows.old }
    ensures { rows.new ≡ sets rows.old to (kind ∷ (words_of name ++ (type_ ∷ words_of value))) }
{
    rows[to] = kind;
    rows[to + 1] = name.source;
    rows[to + 2] = name.a;
    rows[to + 3] = name.b;
    rows[to + 4] = type_;
    rows[to + 5] = value.source;
    rows[to + 6] = value.a;
    rows[to + 7] = value.b;
}

// ---- names

// A new name joins the pool while there is room.
// The table and the name store stay two parameters: in one struct, every contract would also say what each is still lent from.
fn keep_new(
    s: &[u8],
    start: usize,
    len: usize,
    home: Home,
    table: &mut [u32],
    store: &mut [u8],
    kept: Kept,
) -> Kept
    requires len_in_bounds { (start + len ≤ length s.now) × (home.base + length s.now ≤ max_store) }
    requires room { Room home kept (adds_ref kept.names (new (record { start = start; len = len }))) table.old store.old }
    ensures { Keeps home s.now kept (adds_ref kept.names (new (record { start = start; len = len }))) table.old table.new store.old store.new result }
{
    let Kept { names, used } = kept;
    if wire::INTERNED_NEW as usize <= names {
        return kept;
    }
    if home.copied {
        table[2 * names..2 * names + 2].copy_from_slice(&[used as u32, len as u32]);
        byte_copy::copy(&s[start..start + len], store, used);
        Kept {
            names: names + 1,
            used: used + len,
        }
    } else {
        table[2 * names..2 * names + 2].copy_from_slice(&[(home.base + start) as u32, len as u32]);
        Kept {
            names: names + 1,
            used,
        }
    }
}

// ---- what a row carries

// Three words of a row, the place after what they were read from, and what is kept then.
#[derive(Clone, Copy)]
pub struct Filled {
    pub words: Flat,
    pub next: usize,
    pub kept: Kept,
}

// A name, or an interned string.
fn name(s: &[u8], at: usize, home: Home, table: &mut [u32], store: &mut [u8], kept: Kept) -> Filled
    requires within { Within s.now at home.base }
    requires has { Has (λ r. Room home kept (adds_ref kept.names r) table.old store.old) (name always kept.names s.now at) }
    ensures { Once (RefFilled home s.now kept table.old table.new store.old store.new result) (name always kept.names s.now at) }
{
    let index = u16::from_be_bytes([s[at], s[at + 1]]) as usize;
    if index == wire::INTERNED_NEW as usize {
        let len = u16::from_be_bytes([s[at + 2], s[at + 3]]) as usize;
        let start = at + 4;
        let more = keep_new(s, start, len, home, table, store, kept);
        return Filled {
            words: span_words(home.base, start, len),
            next: start + len,
            kept: more,
        };
    }
    Filled {
        words: pooled_words(home.copied, table, index),
        next: at + 2,
        kept,
    }
}

// The span of a string or a blob.
fn text(s: &[u8], at: usize, base: usize, kept: Kept) -> Filled
    requires within { Within s.now at base }
    requires has { Has (λ t. Unit {0}) (blob s.now at) }
    ensures { Once (SpanFilled base kept result) (blob s.now at) }
{
    let len = u16::from_be_bytes([s[at], s[at + 1]]) as usize;
    let start = at + 2;
    Filled {
        words: span_words(base, start, len),
        next: start + len,
        kept,
    }
}

// The value of an attribute of this type.
fn value(
    s: &[u8],
    at: usize,
    home: Home,
    table: &mut [u32],
    store: &mut [u8],
    kept: Kept,
    type_: u32,
) -> Filled
    requires within { Within s.now at home.base }
    requires type_bound { type_ < 256 }
    requires has { Has (λ v. Room home kept (adds_value kept.names v) table.old store.old) (value always kept.names type_ s.now at) }
    ensures { Once (ValueFilled home s.now kept table.old table.new store.old store.new result) (value always kept.names type_ s.now at) }
{
    match event::shape_of(type_) {
        Shape::String | Shape::Blob => text(s, at, home.base, kept),
        Shape::Interned => name(s, at, home, table, store, kept),
        Shape::Word => Filled {
            words: Flat {
                source: 0,
                a: 0,
                b: wire::be32(s[at], s[at + 1], s[at + 2], s[at + 3]),
            },
            next: at + 4,
            kept,
        },
        Shape::Pair => Filled {
            words: Flat {
                source: 0,
                a: wire::be32(s[at], s[at + 1], s[at + 2], s[at + 3]),
                b: wire::be32(s[at + 4], s[at + 5], s[at + 6], s[at + 7]),
            },
            next: at + 8,
            kept,
        },
        Shape::Nothing | Shape::Unknown => Filled {
            words: NO_WORDS,
            next: at,
            kept,
        },
    }
}

// ---- rows

// The place after rows that were written, and what is kept then.
#[derive(Clone, Copy)]
pub struct Ahead {
    pub next: usize,
    pub kept: Kept,
}

// An attribute, from its token on.
fn attribute(
    s: &[u8],
    at: usize,
    home: Home,
    table: &mut [u32],
    store: &mut [u8],
    kept: Kept,
    rows: &mut [u32],
    to: usize,
) -> Ahead
    requires within { Within s.now (at + 1) home.base }
    requires has { Has (λ i. Room home kept (adds_item kept.names i) table.old store.old) (attribute always kept.names s.now at) }
    requires to_in_bounds { to + 8 ≤ length rows.old }
    ensures { Once (RowFilled home s.now kept table.old table.new store.old store.new rows.old rows.new to result) (attribute always kept.names s.now at) }
{
    let n = name(s, at + 1, home, table, store, kept);
    let type_ = (s[at] / 16) as u32;
    let v = value(s, n.next, home, table, store, n.kept, type_);
    put_row(
        rows,
        to,
        Command::Attribute.number(),
        n.words,
        quick::row_type(type_),
        v.words,
    );
    Ahead {
        next: v.next,
        kept: v.kept,
    }
}

// The event's own row, of this kind.
fn own(
    s: &[u8],
    kind: u32,
    home: Home,
    table: &mut [u32],
    store: &mut [u8],
    kept: Kept,
    rows: &mut [u32],
) -> Ahead
    requires within { Within s.now 1 home.base × (kind ≡ command (get_or s.now 0 0)) }
    requires has { Has (λ i. Room home kept (adds_item kept.names i) table.old store.old) (first always kept.names s.now 0) }
    requires in_bounds { 8 ≤ length rows.old }
    ensures { Once (RowFilled home s.now kept table.old table.new store.old store.new rows.old rows.new 0 result) (first always kept.names s.now 0) }
{
    match Command::from(kind) {
        Command::StartDocument | Command::EndDocument => {
            put_row(rows, 0, kind, NO_WORDS, 0, NO_WORDS);
            Ahead { next: 1, kept }
        }
        Command::StartTag | Command::EndTag => {
            let n = name(s, 1, home, table, store, kept);
            put_row(rows, 0, kind, n.words, 0, NO_WORDS);
            Ahead {
                next: n.next,
                kept: n.kept,
            }
        }
        _ => {
            let string = Type::String.number();
            if (s[0] / 16) as u32 != string {
                put_row(rows, 0, kind, NO_WORDS, string, NO_WORDS);
                return Ahead { next: 1, kept };
            }
            let t = text(s, 1, home.base, kept);
            put_row(rows, 0, kind, NO_WORDS, string, t.words);
            Ahead { next: t.next, kept }
        }
    }
}

// Whether an attribute stands at a place.
#[tactic(auto, using(std::proofs::lemmas::Bool::Decides::nat_tests), unfolding(grammar::specs::Attributes::is_attribute, wire::specs::Token::command))]
pub(crate) fn is_attribute(s: &[u8], at: usize) -> bool
    ensures { result ≡ is_attribute s.now at }
{
    at < s.len() && (s[at] % 16) as u32 == Command::Attribute.number()
}

// The attributes from a place on, as many as have room from the word `first` on.
fn rest(
    s: &[u8],
    from: usize,
    home: Home,
    table: &mut [u32],
    store: &mut [u8],
    start: Kept,
    rows: &mut [u32],
    first: usize,
) -> Ahead
    requires from_in_bounds { (from ≤ length s.now) × (first ≤ length rows.old) }
    requires ready { Ready home s.now start (rest always s.now start.names from) table.old store.old }
    ensures rows { FilledRows home s.now start (rest always s.now start.names from) table.old table.new store.old store.new rows.old rows.new from first (rest always s.now result.kept.names result.next) result }
{
    let mut at = from;
    let mut kept = start;
    let mut to = first;
    // No iterator goes over attributes: each tells by its bytes where the next one starts.
    while is_attribute(s, at) {
        if rows.len() - to < 8 {
            return Ahead { next: at, kept };
        }
        let ahead = attribute(s, at, home, table, store, kept, rows, to);
        kept = ahead.kept;
        at = ahead.next;
        to += 8;
    }
    Ahead { next: at, kept }
}

// What comes after an event's own row: where attributes are read and written, if inside says that some may follow.
#[derive(Clone, Copy)]
pub struct Opening {
    pub next: usize,
    pub kept: Kept,
    pub first: usize,
    pub inside: bool,
}

// Writes the event's own row, where the place is its first byte. Apart, so that `fill` calls `rest` at one place and the compiler makes it a
// part of it: by a call a query on tags of many attributes takes a quarter longer.
fn begin(
    s: &[u8],
    from: usize,
    home: Home,
    table: &mut [u32],
    store: &mut [u8],
    kept: Kept,
    rows: &mut [u32],
) -> Opening
    requires from_in_bounds { (from ≤ length s.now) × (8 ≤ length rows.old) }
    requires ready { Ready home s.now kept (rows_from kept.names s.now from) table.old store.old }
    ensures { BegunRows home s.now kept table.old table.new store.old store.new rows.old rows.new from (record { next = result.next; kept = result.kept; to = result.first; inside = result.inside }) }
{
    if from != 0 {
        return Opening {
            next: from,
            kept,
            first: 0,
            inside: true,
        };
    }
    let kind = (s[0] % 16) as u32;
    let ahead = own(s, kind, home, table, store, kept, rows);
    Opening {
        next: ahead.next,
        kept: ahead.kept,
        first: 8,
        inside: kind == Command::StartTag.number(),
    }
}

// The rows from a place on, as many as have room: those of the event, or attributes of it.
pub(crate) fn fill(
    s: &[u8],
    from: usize,
    home: Home,
    table: &mut [u32],
    store: &mut [u8],
    kept: Kept,
    rows: &mut [u32],
) -> Ahead
    requires from_in_bounds { (from ≤ length s.now) × (8 ≤ length rows.old) }
    requires ready { Ready home s.now kept (rows_from kept.names s.now from) table.old store.old }
    ensures { FilledRows home s.now kept (rows_from kept.names s.now from) table.old table.new store.old store.new rows.old rows.new from 0 (others_from s.now from result) result }
{
    let Opening {
        next,
        kept,
        first,
        inside,
    } = begin(s, from, home, table, store, kept, rows);
    if inside {
        rest(s, next, home, table, store, kept, rows, first)
    } else {
        Ahead { next, kept }
    }
}

// One row from a place on, of an event whose names stay where they are.
pub(crate) fn one(
    s: &[u8],
    from: usize,
    base: usize,
    table: &mut [u32],
    names: usize,
    row: &mut [u32; 8],
) -> Ahead
    requires from_in_bounds { from ≤ length s.now }
    requires ready_at { ReadyAt base s.now names (rows_from names s.now from) table.old }
    requires nonzero { 0 < count (rows_from names s.now from) }
    ensures { OneFilled base s.now names (rows_from names s.now from) table.old table.new row.new from (others_from s.now from result) result }
{
    let mut none = [0u8; 1];
    fill(
        s,
        from,
        Home {
            base,
            copied: false,
        },
        table,
        &mut none,
        Kept { names, used: 0 },
        row,
    )
}
