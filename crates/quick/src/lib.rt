// The quick way: an end tag, or a start tag with up to nine attributes that is not at the input's end, each name and interned
// string known, read in one pass, its rows written where they have room. All else is declined, and the two passes of the scanner read it:
// to decline promises nothing. A token's command and type are taken by the token table's rule, which spares the table.
#![tactic(auto)]

mod pool;

ghost use Rattle.std.specs.Prelude.{cond, ◌∷◌, ◌++◌, ◌≡◌, ◌+◌, ◌-◌, ◌*◌, ◌≤◌, ◌<◌, length, get_or, take, IfSome};
ghost use Rattle.std.proofs.lemmas.List.Edits.{sets};
ghost use Rattle.grammar.specs.Reader.{got};
ghost use Rattle.wire.specs.Token.{command, start_tag, end_tag};
ghost use Rattle.wire.specs.Limits.{max_store, max_unsigned_short};
ghost use Rattle.grammar.specs.Grammar.{u16, blob, string, event};
ghost use Rattle.grammar.specs.Document.{type_of};
ghost use Rattle.grammar.specs.Scan.{sound};
ghost use Rattle.quick.specs.Quick.{sound_of, attributes_of, event_of, word_counts, words_of, KnownName, ReadSpan, ReadNumber, ReadValue, ReadAttribute, ReadRest, ReadEvent, Quickly};

use pool::Pool;
use wire::{Command, Type, limits};

// Three words of a row: what a name or a value says there.
#[derive(Clone, Copy)]
pub struct Flat {
    pub source: u32,
    pub a: u32,
    pub b: u32,
}

// No name, or no value.
const BARE: Flat = Flat {
    source: 0,
    a: 0,
    b: 0,
};

// The rows of an event, and its length.
#[derive(Clone, Copy, Debug, PartialEq, Eq)]
pub struct Taken {
    pub rows: usize,
    pub len: usize,
}

// A name by index.
fn known(s: &[u8], at: usize, pool: &Pool) -> Option<Flat>
    requires at_in_bounds { at + 2 ≤ length s.now }
    ensures { IfSome result (λ f. KnownName (sound_of pool.now) pool.now.names s.now at pool.now.source pool.now.table.now f) }
{
    let index = u16::from_be_bytes([s[at], s[at + 1]]) as usize;
    if index == wire::INTERNED_NEW as usize {
        return None;
    }
    let names = pool.names;
    if names <= index {
        return None;
    }
    let a = pool.table[2 * index];
    let b = pool.table[2 * index + 1];
    if pool.stored < a as usize + b as usize {
        return None;
    }
    Some(Flat {
        source: pool.source,
        a,
        b,
    })
}

// The length of a string or a blob that the input has whole.
#[tactic(auto, using(std::proofs::lemmas::Bool::Decides::nat_tests), unfolding(grammar::specs::Grammar::u16))]
fn whole(s: &[u8], at: usize) -> Option<usize>
    requires { at + 2 ≤ length s.now }
    ensures { IfSome result (λ n. (u16 s.now at ≡ got n (at + 2)) × ((n ≤ length s.now - (at + 2)) × (n ≤ max_unsigned_short))) }
{
    let len = u16::from_be_bytes([s[at], s[at + 1]]) as usize;
    if s.len() - (at + 2) < len {
        return None;
    }
    Some(len)
}

// The span of a blob, and the place after it; the event starts at base.
fn blob(s: &[u8], at: usize, base: usize) -> Option<(Flat, usize)>
    requires { (at + 2 ≤ length s.now) × (base + length s.now ≤ max_store) }
    ensures { IfSome result (λ p. ReadSpan blob s.now at base p.0 p.1) }
{
    let len = whole(s, at)?;
    let start = at + 2;
    let flat = Flat {
        source: 0,
        a: (base + start) as u32,
        b: len as u32,
    };
    Some((flat, start + len))
}

// The span of a string, and the place after it.
fn string(s: &[u8], at: usize, base: usize) -> Option<(Flat, usize)>
    requires { (at + 2 ≤ length s.now) × (base + length s.now ≤ max_store) }
    ensures { IfSome result (λ p. ReadSpan string s.now at base p.0 p.1) }
{
    let len = whole(s, at)?;
    let start = at + 2;
    if !utf8_part::is_utf8_part(s, start, len) {
        return None;
    }
    let flat = Flat {
        source: 0,
        a: (base + start) as u32,
        b: len as u32,
    };
    Some((flat, start + len))
}

// How many words a number of each type has, from type 0 to type 15; a type of 3 is no number. Numbers of all types are read
// alike, so that no branch hangs on which it is.
const COUNTS: [u8; 16] = [3, 0, 3, 3, 3, 3, 1, 1, 2, 2, 1, 2, 0, 0, 3, 3];

// A number of so many words.
fn number(s: &[u8], at: usize, count: usize) -> Flat
    requires { (at + 8 ≤ length s.now) × (count < 3) }
    ensures { ReadNumber count s.now at result }
{
    let words: [u32; 3] = [
        0,
        wire::be32(s[at], s[at + 1], s[at + 2], s[at + 3]),
        wire::be32(s[at + 4], s[at + 5], s[at + 6], s[at + 7]),
    ];
    Flat {
        source: 0,
        a: words[count / 2],
        b: words[count],
    }
}

// The value of an attribute of this type, and the place after it.
fn value(
    s: &[u8],
    at: usize,
    type_: u32,
    counts: &[u8; 16],
    base: usize,
    pool: &Pool,
) -> Option<(Flat, usize)>
    requires at_in_bounds { (at + 8 ≤ length s.now) × (base + length s.now ≤ max_store) }
    requires counts_value { counts.now ≡ word_counts }
    requires type_bound { type_ < 16 }
    ensures { IfSome result (λ p. ReadValue (sound_of pool.now) pool.now.names type_ s.now at pool.now.source base pool.now.table.now p.0 p.1) }
{
    let count = counts[type_ as usize] as usize;
    if count < 3 {
        return Some((number(s, at, count), at + 4 * count));
    }
    match type_ {
        Type::STRING => string(s, at, base),
        Type::STRING_INTERNED => Some((known(s, at, pool)?, at + 2)),
        Type::BYTES_HEX | Type::BYTES_BASE64 => blob(s, at, base),
        _ => None,
    }
}

// An interned string is a string in a row.
#[tactic(auto, using(std::proofs::lemmas::Bool::Decides::nat_tests), unfolding(grammar::specs::Document::type_of))]
pub fn row_type(type_: u32) -> u32
    ensures { result ≡ type_of type_ }
{
    if type_ == Type::STRING_INTERNED {
        return Type::STRING;
    }
    type_
}

// The eight words of a row, from a place on. One by one: by copy_from_slice of an array of eight, `read` needs 25% more instructions.
fn put_row(rows: &mut [u32], to: usize, kind: u32, name: Flat, type_: u32, value: Flat)
    requires { to + 8 ≤ length rows.old }
    ensures { rows.new ≡ sets rows.old to (kind ∷ (words_of name ++ (type_ ∷ words_of value))) }
{
    rows[to] = kind;
    rows[to + 1] = name.source;
    rows[to + 2] = name.a;
    rows[to + 3] = name.b;
    rows[to + 4] = type_;
    rows[to + 5] = value.source;
    rows[to + 6] = value.a;
    rows[to + 7] = value.b;
}

// The attribute at a place, its words stored from `to` on: the place after it. Where eleven bytes are left, no number is cut.
fn attribute(
    s: &[u8],
    at: usize,
    counts: &[u8; 16],
    base: usize,
    pool: &Pool,
    words: &mut [u32],
    to: usize,
) -> Option<usize>
    requires at_in_bounds { (at ≤ length s.now) × (base + length s.now ≤ max_store) }
    requires counts_value { counts.now ≡ word_counts }
    requires to_in_bounds { to + 8 ≤ length words.old }
    ensures { IfSome result (λ next. ReadAttribute (sound_of pool.now) pool.now.names s.now at pool.now.source base pool.now.table.now words.old words.new to next) }
{
    if s.len() - at < 11 {
        return None;
    }
    let name = known(s, at + 1, pool)?;
    let type_ = (s[at] / 16) as u32;
    let (v, next) = value(s, at + 3, type_, counts, base, pool)?;
    put_row(words, to, Command::ATTRIBUTE, name, row_type(type_), v);
    Some(next)
}

// The attributes of a start tag, after its own row, up to a token that is none.
fn rest(s: &[u8], from: usize, base: usize, pool: &Pool, words: &mut [u32]) -> Option<Taken>
    requires from_in_bounds { (0 < from) × (from ≤ length s.now) × (base + length s.now ≤ max_store) }
    requires in_bounds { 80 ≤ length words.old }
    ensures { IfSome result (λ t. ReadRest (attributes_of pool.now s.now from) pool.now.names pool.now.source base pool.now.table.now words.old words.new t) }
{
    let counts = COUNTS;
    let mut at = from;
    let mut rows = 1;
    while at < s.len() {
        let kind = (s[at] % 16) as u32;
        if kind != Command::ATTRIBUTE {
            return Some(Taken { rows, len: at });
        }
        if rows == 10 {
            return None;
        }
        at = attribute(s, at, &counts, base, pool, words, 8 * rows)?;
        rows += 1;
    }
    None // the input ends here, and another attribute may follow
}

// The start tag that stands in s, and its rows' words, where it is one of the commonest: complete, of up to ten rows, and with no
// new name.
fn start_tag(s: &[u8], base: usize, pool: &Pool, words: &mut [u32]) -> Option<Taken>
    requires in_bounds { (3 ≤ length s.now) × (base + length s.now ≤ max_store) }
    requires s_value { command (get_or s.now 0 0) ≡ start_tag }
    requires in_bounds_2 { 80 ≤ length words.old }
    ensures { IfSome result (λ t. ReadEvent (event_of pool.now s.now) pool.now.names pool.now.source base pool.now.table.now words.old words.new t) }
{
    let name = known(s, 1, pool)?;
    put_row(words, 0, Command::START_TAG, name, 0, BARE);
    rest(s, 3, base, pool, words)
}

// An end tag whose name is known: its row needs no array.
fn end_tag(s: &[u8], base: usize, pool: &Pool, rows: &mut [u32]) -> Option<Taken>
    requires in_bounds { 3 ≤ length s.now }
    requires s_value { command (get_or s.now 0 0) ≡ end_tag }
    ensures { Quickly (event_of pool.now s.now) pool.now.names pool.now.source base pool.now.table.now rows.old rows.new result }
{
    if rows.len() < 8 {
        return None;
    }
    let name = known(s, 1, pool)?;
    put_row(rows, 0, Command::END_TAG, name, 0, BARE);
    Some(Taken { rows: 1, len: 3 })
}

// ---- the rows of a start tag

// So many rows, from the front of one slice to the front of another. Row by row, which makes vector moves: one copy_from_slice of them all
// calls memcpy, and `read` is 2% to 12% slower.
fn put_rows(rows: &mut [u32], words: &[u32], count: usize)
    requires { (8 * count ≤ length words.now) × (8 * count ≤ length rows.old) }
    ensures { rows.new ≡ sets rows.old 0 (take (8 * count) words.now) }
{
    for k in 0..count {
        let at = 8 * k;
        rows[at..at + 8].copy_from_slice(&words[at..at + 8]);
    }
}

// The event that stands in s from base on, by its kind.
fn read_tag(s: &[u8], base: usize, pool: &Pool, rows: &mut [u32]) -> Option<Taken>
    requires s_bound { base + length s.now ≤ max_store }
    ensures { Quickly (event_of pool.now s.now) pool.now.names pool.now.source base pool.now.table.now rows.old rows.new result }
{
    if s.len() < 3 {
        return None;
    }
    let kind = (s[0] % 16) as u32;
    if kind == Command::END_TAG {
        return end_tag(s, base, pool, rows);
    }
    if kind != Command::START_TAG {
        return None;
    }
    let mut words = [0u32; 80];
    let taken = start_tag(s, base, pool, &mut words)?;
    if rows.len() / 8 < taken.rows {
        return None;
    }
    put_rows(rows, &words, taken.rows);
    Some(taken)
}

// The event that stands in s, read and written in one pass where it is one of the commonest and there is room for its rows;
// else nothing is written. So many pairs of the table are names, which lie in a store of so many bytes.
pub fn read(
    s: &[u8],
    base: usize,
    copied: bool,
    names: usize,
    stored: usize,
    table: &[u32],
    rows: &mut [u32],
) -> Option<Taken>
    ensures { Quickly (event (sound names table.now stored) names s.now) names (cond copied 1 0) base table.now rows.old rows.new result }
{
    if limits::MAX_STORE < base || limits::MAX_STORE - base < s.len() || table.len() / 2 < names {
        return None;
    }
    let pool = Pool {
        table,
        names,
        stored,
        source: if copied { 1 } else { 0 },
    };
    read_tag(s, base, &pool, rows)
}
