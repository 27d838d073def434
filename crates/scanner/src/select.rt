// One event of a query: it is measured as by a reader, and of its rows only those that the query asks for are written.
ghost use Rattle.std.specs.Prelude.{true, false, ◌||◌, ◌&&◌, cond, [], ◌∷◌, ◌≡◌, ℕ, ◌+◌, ◌*◌, ◌/◌, ◌≤◌, ◌<◌, length, take, drop, ltb};
ghost use Rattle.std.proofs.lemmas.List.Edits.{sets};
ghost use Rattle.grammar.specs.Grammar.{event};
ghost use Rattle.grammar.specs.Scan.{adds};
ghost use Rattle.grammar.specs.Turn.{rest};
ghost use Rattle.grammar.specs.Trusted.{always};
ghost use Rattle.slice_spec.specs.Queries.{named, is_element, kind_of};
ghost use Rattle.slice_spec.specs.Turns.{turn_or_refuse};
ghost use Rattle.scanner.specs.Fill.{ReadyAt};
ghost use Rattle.scanner.specs.Select.{query_of, most_of, takes_all, takes_one, taken, chosen, rows_of, grown, Room, Chose, place_of, asked_at, WholeAt, progress, turn_of, passes, Sees, uncounted_of, surely, uncounted};

use wire::{Command, Refusal};

// What is asked for: attributes of a name, of elements of a name; or such elements with all their attributes.
#[derive(Clone, Copy)]
pub enum Query {
    FindAttribute,
    AttributesOf,
    FindAllAttributes,
    AllAttributesOf,
}

impl Query {
    // Whether it takes the tag's row and all its attributes.
    fn takes_all(self) -> bool
        ensures { result ≡ takes_all self }
    {
        matches!(self, Query::AttributesOf | Query::AllAttributesOf)
    }

    // Whether it takes one row at most.
    fn takes_one(self) -> bool
        ensures { result ≡ takes_one self }
    {
        matches!(self, Query::FindAttribute)
    }

    // No more rows than these are taken of an event of so many.
    fn most_taken(self, count: usize) -> usize
        ensures { result ≡ most_of self count }
    {
        if self.takes_one() { 1 } else { count }
    }
}

// A query, and the element's and the attribute's name that it asks for.
#[derive(Clone, Copy)]
struct Wanted<'a> {
    query: Query,
    element: &'a [u8],
    name: &'a [u8],
}

// Where an event starts: the place in its document, and how many names the pool has before it.
#[derive(Clone, Copy)]
struct Start<'a> {
    document: &'a [u8],
    at: usize,
    names: usize,
}

// An event that was consumed: its kind, its bytes, the names that it adds to the pool, and how many rows of it were written.
#[derive(Clone, Copy, Debug, PartialEq, Eq)]
pub struct Picked {
    pub kind: u32,
    pub len: usize,
    pub added: usize,
    pub rows: usize,
}

// ---- which rows

// Whether a row has this name, which lies in the document.
fn is_named(document: &[u8], row: &[u32; 8], name: &[u8]) -> bool
    ensures { result ≡ named document.now name.now row.now }
{
    if event::has_name(row[0]) {
        equal_bytes::same_bytes(event::text(document, row[1], row[2], row[3]), name)
    } else {
        name.is_empty()
    }
}

// Whether it is the start tag of an element of this name.
#[tactic(auto, using(std::proofs::lemmas::Bool::Decides::nat_tests), unfolding(slice_spec::specs::Queries::is_element))]
fn is_element(document: &[u8], row: &[u32; 8], element: &[u8]) -> bool
    ensures { result ≡ is_element document.now element.now row.now }
{
    row[0] == Command::StartTag.number() && is_named(document, row, element)
}

// ---- rows that are taken are counted, and stored where rows are lent to write to

// Without any words to write to, rows are only counted.
fn put_taken(rows: &mut [u32], to: usize, row: &[u32; 8])
    requires { 0 < length rows.old → to + 8 ≤ length rows.old }
    ensures { rows.new ≡ sets rows.old to row.now }
{
    if !rows.is_empty() {
        rows[to..to + 8].copy_from_slice(row);
    }
}

// Whether an attribute is taken by a query that still looks for one: every one, or those of this name.
fn is_taken(looking: bool, wanted: Wanted, document: &[u8], row: &[u32; 8]) -> bool
    ensures { result ≡ (looking && (takes_all wanted.entry.query || named document.now wanted.entry.name.now row.now)) }
{
    looking && (wanted.query.takes_all() || is_named(document, row, wanted.name))
}

// The attributes from a place on: their new names are kept, and how many are taken. still says that there are no new names.
fn take_rest(
    wanted: Wanted,
    start: Start,
    s: &[u8],
    from: usize,
    table: &mut [u32],
    look: bool,
    still: bool,
    rows: &mut [u32],
    to: usize,
) -> usize
    requires from_nonzero { (0 < from) × (from ≤ length s.now) }
    requires ready_at { ReadyAt start.at s.now start.names (rest always s.now start.names from) table.old }
    requires from_len { still ≡ true → length (adds start.names (rest always s.now start.names from)) ≡ 0 }
    requires room { Room to (length (cond look (taken (takes_all wanted.query) (takes_one wanted.query) start.document.now wanted.name.now (rows_of start.at (grown start.at start.names table.old (rest always s.now start.names from)) (rest always s.now start.names from))) [])) rows.old }
    ensures few { result ≤ length s.now }
    ensures names { table.new ≡ grown start.entry.at start.entry.names table.old (rest always s.now start.entry.names from) }
    ensures rows { Chose to (cond look (taken (takes_all wanted.entry.query) (takes_one wanted.entry.query) start.entry.document.now wanted.entry.name.now (rows_of start.entry.at (grown start.entry.at start.entry.names table.old (rest always s.now start.entry.names from)) (rest always s.now start.entry.names from))) []) rows.old rows.new result }
{
    let one = wanted.query.takes_one();
    let mut at = from;
    let mut names = start.names;
    let mut looking = look;
    let mut count = 0;
    let mut row = [0u32; 8];
    // No iterator goes over attributes: each tells by its bytes where the next one starts.
    while crate::fill::is_attribute(s, at) {
        // no row is looked for, and no name is left to keep
        if !looking && still {
            return count;
        }
        let ahead = crate::fill::one(s, at, start.at, table, names, &mut row);
        names = ahead.kept.names;
        at = ahead.next;
        if is_taken(looking, wanted, start.document, &row) {
            put_taken(rows, to + 8 * count, &row);
            count += 1;
            looking = !one;
        }
    }
    count
}

// The tag's own row, where it is taken.
fn take_first(own: bool, rows: &mut [u32], to: usize, row: &[u32; 8]) -> usize
    requires { own ≡ true → 0 < length rows.old → to + 8 ≤ length rows.old }
    ensures { Chose to (cond own (row.now ∷ []) []) rows.old rows.new result }
{
    if own {
        put_taken(rows, to, row);
        return 1;
    }
    0
}

// An event's kind, and how many of its rows are taken.
#[derive(Clone, Copy)]
pub struct Took {
    pub kind: u32,
    pub rows: usize,
}

// The event's new names are kept, and the rows that are taken. still says that it adds none.
fn take_event(
    wanted: Wanted,
    start: Start,
    s: &[u8],
    table: &mut [u32],
    still: bool,
    rows: &mut [u32],
    to: usize,
) -> Took
    requires ready_at { ReadyAt start.at s.now start.names (event always start.names s.now) table.old }
    requires s_len { still ≡ true → length (adds start.names (event always start.names s.now)) ≡ 0 }
    requires room { Room to (length (chosen wanted.query start.document.now wanted.element.now wanted.name.now (rows_of start.at (grown start.at start.names table.old (event always start.names s.now)) (event always start.names s.now)))) rows.old }
    requires to_value { length rows.old ≡ 0 → to ≡ 0 }
    ensures rows { Chose to (chosen wanted.entry.query start.entry.document.now wanted.entry.element.now wanted.entry.name.now (rows_of start.entry.at (grown start.entry.at start.entry.names table.old (event always start.entry.names s.now)) (event always start.entry.names s.now))) rows.old rows.new result.rows }
    ensures kind { result.kind ≡ kind_of (event always start.entry.names s.now) }
    ensures names { table.new ≡ grown start.entry.at start.entry.names table.old (event always start.entry.names s.now) }
{
    let mut row = [0u32; 8];
    let ahead = crate::fill::one(s, 0, start.at, table, start.names, &mut row);
    let kind = row[0];
    if kind != Command::StartTag.number() {
        return Took { kind, rows: 0 };
    }
    let look = is_element(start.document, &row, wanted.element);
    let all = wanted.query.takes_all();
    let first = take_first(look & all, rows, to, &row);
    let others = Start {
        document: start.document,
        at: start.at,
        names: ahead.kept.names,
    };
    let more = take_rest(
        wanted,
        others,
        s,
        ahead.next,
        table,
        look,
        still,
        rows,
        to + 8 * first,
    );
    Took {
        kind,
        rows: first + more,
    }
}

// ---- an event that was read whole

// What was measured of an event: its rows, its new names and its bytes.
#[derive(Clone, Copy)]
pub struct Extent {
    pub rows: usize,
    pub added: usize,
    pub len: usize,
}

// How many rows are taken, by a table that has room for the event's new names.
fn count_by(wanted: Wanted, start: Start, table: &mut [u32], still: bool) -> usize
    requires at_in_bounds { start.at ≤ length start.document.now }
    requires ready_at { ReadyAt start.at (drop start.at start.document.now) start.names (event always start.names (drop start.at start.document.now)) table.old }
    requires document_len { still ≡ true → length (adds start.names (event always start.names (drop start.at start.document.now))) ≡ 0 }
    ensures rows { result ≡ length (chosen wanted.entry.query start.entry.document.now wanted.entry.element.now wanted.entry.name.now (rows_of start.entry.at (grown start.entry.at start.entry.names table.old (event always start.entry.names (drop start.entry.at start.entry.document.now))) (event always start.entry.names (drop start.entry.at start.entry.document.now)))) }
    ensures names { table.new ≡ grown start.entry.at start.entry.names table.old (event always start.entry.names (drop start.entry.at start.entry.document.now)) }
{
    take_event(
        wanted,
        start,
        &start.document[start.at..],
        table,
        still,
        &mut [],
        0,
    )
    .rows
}

// The same, by a copy of the pool's pairs.
fn count_aside(
    own: &mut [u32],
    wanted: Wanted,
    start: Start,
    table: &[u32],
    extent: Extent,
) -> usize
    requires in_bounds { 131_072 ≤ length own.old }
    requires whole_at { WholeAt start.document.now start.at start.names table.now extent }
    ensures { result ≡ length (asked_at wanted.entry.query wanted.entry.element.now wanted.entry.name.now start.entry.document.now start.entry.at start.entry.names table.now) }
{
    own[..2 * start.names].copy_from_slice(&table[..2 * start.names]);
    count_by(wanted, start, own, false)
}

// How many rows are taken. The table may have no room for the event's new names, and is left as it is.
fn count_taken(wanted: Wanted, start: Start, table: &mut [u32], extent: Extent) -> usize
    requires { WholeAt start.document.now start.at start.names table.old extent }
    ensures rows { result ≡ length (asked_at wanted.entry.query wanted.entry.element.now wanted.entry.name.now start.entry.document.now start.entry.at start.entry.names table.old) }
    ensures names { table.new ≡ table.old }
{
    if extent.added == 0 {
        return count_by(wanted, start, table, true);
    }
    let mut own = [0u32; 131_072];
    count_aside(&mut own, wanted, start, table, extent)
}

// Whether fewer rows are left than these.
fn is_short(room: usize, written: usize, n: usize) -> bool
    ensures { result ≡ ltb room (written + n) }
{
    room < written || room - written < n
}

// The rows that are taken have room: 11, else the event is handed out.
fn pick_fitting(
    wanted: Wanted,
    start: Start,
    table: &mut [u32],
    rows: &mut [u32],
    written: usize,
    extent: Extent,
) -> Result<Option<Picked>, Refusal>
    requires whole_at { WholeAt start.document.now start.at start.names table.old extent }
    requires table_in_bounds { written + length (asked_at wanted.query wanted.element.now wanted.name.now start.document.now start.at start.names table.old) ≤ length rows.old / 8 }
    ensures { (events : ℕ) → turn_of (progress start.entry.at start.entry.names table.old rows.old events written) table.new rows.new result ≡ passes wanted.entry.query wanted.entry.element.now wanted.entry.name.now start.entry.document.now (progress start.entry.at start.entry.names table.old rows.old events written) extent.len }
{
    if table.len() / 2 - start.names < extent.added {
        return Err(Refusal::PoolFull);
    }
    let took = take_event(
        wanted,
        start,
        &start.document[start.at..],
        table,
        extent.added == 0,
        rows,
        8 * written,
    );
    Ok(Some(Picked {
        kind: took.kind,
        len: extent.len,
        added: extent.added,
        rows: took.rows,
    }))
}

// 10, where more rows were written than there are; else the event is handed out where the rows left are enough, whatever is taken.
fn pick_surely(
    wanted: Wanted,
    start: Start,
    table: &mut [u32],
    rows: &mut [u32],
    written: usize,
    extent: Extent,
) -> Option<Result<Option<Picked>, Refusal>>
    requires { WholeAt start.document.now start.at start.names table.old extent }
    ensures { (events : ℕ) → uncounted_of (progress start.entry.at start.entry.names table.old rows.old events written) table.new rows.new result ≡ surely wanted.entry.query wanted.entry.element.now wanted.entry.name.now start.entry.document.now (progress start.entry.at start.entry.names table.old rows.old events written) extent }
{
    let room = rows.len() / 8;
    if room < written {
        return Some(Err(Refusal::RowsFull));
    }
    if is_short(room, written, wanted.query.most_taken(extent.rows)) {
        return None;
    }
    Some(pick_fitting(wanted, start, table, rows, written, extent))
}

// The rows that those left are held against: as many as could be taken, or where these have no room, as many as are taken.
fn count_at_need(
    wanted: Wanted,
    start: Start,
    table: &mut [u32],
    room: usize,
    written: usize,
    extent: Extent,
) -> usize
    requires { WholeAt start.document.now start.at start.names table.old extent }
    ensures rows { ltb room (written + result) ≡ ltb room (written + length (asked_at wanted.entry.query wanted.entry.element.now wanted.entry.name.now start.entry.document.now start.entry.at start.entry.names table.old)) }
    ensures names { table.new ≡ table.old }
{
    let most = wanted.query.most_taken(extent.rows);
    if is_short(room, written, most) {
        return count_taken(wanted, start, table, extent);
    }
    most
}

// What is taken is counted where it matters: 10, then 11, else the event is handed out.
fn pick_counted(
    wanted: Wanted,
    start: Start,
    table: &mut [u32],
    rows: &mut [u32],
    written: usize,
    extent: Extent,
) -> Result<Option<Picked>, Refusal>
    requires { WholeAt start.document.now start.at start.names table.old extent }
    ensures { (events : ℕ) → turn_of (progress start.entry.at start.entry.names table.old rows.old events written) table.new rows.new result ≡ passes wanted.entry.query wanted.entry.element.now wanted.entry.name.now start.entry.document.now (progress start.entry.at start.entry.names table.old rows.old events written) extent.len }
{
    let room = rows.len() / 8;
    let n = count_at_need(wanted, start, table, room, written, extent);
    if is_short(room, written, n) {
        return Err(Refusal::RowsFull);
    }
    pick_fitting(wanted, start, table, rows, written, extent)
}

// ---- the event at a place

fn see(start: Start, table: &[u32]) -> Result<Option<Extent>, Refusal>
    ensures { Sees start.entry.document.now (place_of start.entry.at start.entry.names) table.now result }
{
    if slice_bounds::sizes_bad(start.document, table) {
        return Err(Refusal::BadSize);
    }
    if slice_bounds::place_bad(start.at, start.names, start.document, table) {
        return Err(Refusal::BadState);
    }
    if start.at == start.document.len() {
        return Ok(None);
    }
    let m = extent::measure(
        &start.document[start.at..],
        true,
        start.names,
        start.document.len(),
        table,
    );
    let Some(len) = m.outcome? else {
        return Ok(None);
    };
    Ok(Some(Extent {
        rows: m.rows,
        added: m.added,
        len,
    }))
}

// As pick, but nothing is counted: counting takes a large frame, which costs a short query most of its time.
pub fn pick_uncounted(
    query: Query,
    element: &[u8],
    name: &[u8],
    document: &[u8],
    at: usize,
    names: usize,
    table: &mut [u32],
    rows: &mut [u32],
    written: usize,
) -> Option<Result<Option<Picked>, Refusal>>
    ensures { (events : ℕ) → uncounted_of (progress at names table.old rows.old events written) table.new rows.new result ≡ uncounted query element.now name.now document.now (progress at names table.old rows.old events written) }
{
    let wanted = Wanted {
        query,
        element,
        name,
    };
    let start = Start {
        document,
        at,
        names,
    };
    match see(start, table) {
        Ok(Some(extent)) => pick_surely(wanted, start, table, rows, written, extent),
        Ok(None) => Some(Ok(None)),
        Err(refusal) => Some(Err(refusal)),
    }
}

// The event at a place, for a query that has written so many rows: the rows of it that are asked for come after them.
pub fn pick(
    query: Query,
    element: &[u8],
    name: &[u8],
    document: &[u8],
    at: usize,
    names: usize,
    table: &mut [u32],
    rows: &mut [u32],
    written: usize,
) -> Result<Option<Picked>, Refusal>
    ensures { (events : ℕ) → turn_of (progress at names table.old rows.old events written) table.new rows.new result ≡ turn_or_refuse (query_of query element.now name.now) document.now (progress at names table.old rows.old events written) }
{
    let wanted = Wanted {
        query,
        element,
        name,
    };
    let start = Start {
        document,
        at,
        names,
    };
    let Some(extent) = see(start, table)? else {
        return Ok(None);
    };
    pick_counted(wanted, start, table, rows, written, extent)
}
