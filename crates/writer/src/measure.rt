// The first pass over rows: how many bytes they take, and what they add to the pool; it writes nothing.
ghost use Rattle.std.specs.Prelude.{◌≡◌, ◌+◌, ◌*◌, ◌%◌, ◌≤◌, ◌<◌, length, get_or, take};
ghost use Rattle.wire.specs.Limits.{max_store};
ghost use Rattle.wire.specs.Token.{interned_new};
ghost use Rattle.event.specs.Span.{span};
ghost use Rattle.event.specs.Row.{row_at};
ghost use Rattle.writer_spec.specs.Encode.{find};
ghost use Rattle.writer_spec.specs.Writer.{pool_at, meets_bad, rows_in};
ghost use Rattle.writer.specs.Answers.{fault_of, placed_by, name_found_of};
ghost use Rattle.slots.specs.Slots.{slot_of, Fresh};
ghost use Rattle.pool_index.specs.Index.{MaybeIndexed};
ghost use Rattle.writer.specs.Notes.{Unnoted};
ghost use Rattle.writer.specs.Passes.{name_refusal, room_of, capped, ends_at, Slots, Kept, NameMeasured, RowNameMeasured, RowMeasured, MeasureSays, tally_of};

use crate::{Stop, Writer, notes, sizes};
use pool_search::BadPair;
use wire::{Command, Refusal};

// A name with no note: its own 14 and 7, and then its search.
fn find_name(
    output: &[u8],
    pool: &[u32],
    kept: usize,
    name: &[u8],
    index: &[u16],
) -> Result<Option<usize>, Refusal>
    requires maybe_indexed { MaybeIndexed output.now pool.now kept index.now }
    requires kept_in_bounds { 2 * kept ≤ length pool.now }
    requires name_len_bound { length name.now < 4294967296 }
    ensures { name_found_of result ≡ placed_by (name_refusal (meets_bad output.now kept pool.now) name.now) (find (pool_at output.now kept pool.now) name.now) }
{
    sizes::string_fault(name)?;
    match pool_search::search(output, pool, kept, name, index) {
        Ok(place) => Ok(place),
        Err(BadPair) => Err(Refusal::BadState),
    }
}

// What a name takes, with the names and the words of notes after it.
#[derive(Clone, Copy, Debug, PartialEq, Eq)]
pub struct NameSize {
    pub size: usize,
    pub names: usize,
    pub used: usize,
}

// A name with no note gets one where it is in the pool or joins it; Crowded where there is no room for the note.
fn unnoted_size<'a>(
    first: &'a [u8],
    second: &'a [u8],
    w: &[u32; 8],
    name: &[u8],
    output: &[u8],
    pool: &[u32],
    kept: usize,
    names: usize,
    notes: &mut [u32],
    used: usize,
    heads: &mut [u16],
    slot: usize,
    index: &[u16],
) -> Result<NameSize, Stop>
    requires maybe_indexed { MaybeIndexed output.now pool.now kept index.now }
    requires name_value { name.now ≡ span first.now second.now (get_or w.now 1 0) (get_or w.now 2 0) (get_or w.now 3 0) }
    requires kept_in_bounds { 2 * kept ≤ length pool.now }
    requires used_in_bounds { used ≤ length notes.old }
    requires slot_value { (slot ≡ slot_of (length heads.old) name.now) × (slot < length heads.old) }
    requires kept { Kept first.now second.now output.now pool.now kept names (take used notes.old) heads.old }
    requires name_len_bound { length name.now < 4294967296 }
    requires unnoted { Unnoted first.now second.now (take used notes.old) name.now }
    ensures { NameMeasured first.now second.now output.now pool.now kept names name.now used notes.old heads.old notes.new heads.new result }
{
    match find_name(output, pool, kept, name, index)? {
        Some(i) => {
            if notes.len() - used < 5 {
                return Err(Stop::Crowded);
            }
            notes::note(w, i as u32, notes, used, heads, slot);
            Ok(NameSize {
                size: 2,
                names,
                used: used + 5,
            })
        }
        None => {
            let size = 4 + name.len();
            if names < wire::INTERNED_NEW as usize {
                if notes.len() - used < 5 {
                    return Err(Stop::Crowded);
                }
                notes::note(w, names as u32, notes, used, heads, slot);
                return Ok(NameSize {
                    size,
                    names: names + 1,
                    used: used + 5,
                });
            }
            Ok(NameSize { size, names, used })
        }
    }
}

// The name of the row that eight words say; a row that has none takes nothing.
fn name_size<'a>(
    first: &'a [u8],
    second: &'a [u8],
    w: &[u32; 8],
    output: &[u8],
    pool: &[u32],
    kept: usize,
    names: usize,
    notes: &mut [u32],
    used: usize,
    heads: &mut [u16],
    index: &[u16],
) -> Result<NameSize, Stop>
    requires maybe_indexed { MaybeIndexed output.now pool.now kept index.now }
    requires kept_in_bounds { 2 * kept ≤ length pool.now }
    requires used_in_bounds { used ≤ length notes.old }
    requires slots { Slots (length heads.old) }
    requires kept { Kept first.now second.now output.now pool.now kept names (take used notes.old) heads.old }
    ensures { RowNameMeasured first.now second.now output.now pool.now kept names (row_at first.now second.now w.now) used notes.old heads.old notes.new heads.new result }
{
    if event::has_name(w[0]) {
        let name = sizes::name_in(first, second, w);
        let slot = slots::slot_of(name, heads.len() as u16);
        return match notes::look_up(first, second, w, name, &notes[..used], heads, slot) {
            Some(_) => Ok(NameSize {
                size: 2,
                names,
                used,
            }),
            None => unnoted_size(
                first, second, w, name, output, pool, kept, names, notes, used, heads, slot, index,
            ),
        };
    }
    Ok(NameSize {
        size: 0,
        names,
        used,
    })
}

// The same, by a guess where there is one.
fn quick_name_size<'a>(
    first: &'a [u8],
    second: &'a [u8],
    w: &[u32; 8],
    output: &[u8],
    pool: &[u32],
    kept: usize,
    names: usize,
    notes: &mut [u32],
    used: usize,
    heads: &mut [u16],
    seen: &mut [u16],
    index: &[u16],
) -> Result<NameSize, Stop>
    requires maybe_indexed { MaybeIndexed output.now pool.now kept index.now }
    requires kept_in_bounds { 2 * kept ≤ length pool.now }
    requires used_in_bounds { used ≤ length notes.old }
    requires slots { Slots (length heads.old) × Slots (length seen.old) }
    requires kept { Kept first.now second.now output.now pool.now kept names (take used notes.old) heads.old }
    ensures { RowNameMeasured first.now second.now output.now pool.now kept names (row_at first.now second.now w.now) used notes.old heads.old notes.new heads.new result }
{
    if event::has_name(w[0]) {
        if notes::recall(w, &notes[..used], seen).is_some() {
            return Ok(NameSize {
                size: 2,
                names,
                used,
            });
        }
        notes::remember(w[2], (used / 5) as u16, seen);
        return name_size(
            first, second, w, output, pool, kept, names, notes, used, heads, index,
        );
    }
    Ok(NameSize {
        size: 0,
        names,
        used,
    })
}

// What has been measured: the place in the output, the names in the pool, and the words of notes in use.
#[derive(Clone, Copy, Debug, PartialEq, Eq)]
pub struct Tally {
    pub at: usize,
    pub names: usize,
    pub used: usize,
}

// A place past the end of the output counts as one past it.
fn capped(limit: usize, at: usize) -> usize
    requires { limit ≤ max_store }
    ensures { result ≡ capped limit at }
{
    if limit < at {
        return limit + 1;
    }
    at
}

// The row that eight words say, after what has been measured. The tally is lent and a name's size matched: as answers that `?` takes
// they would be copied in parts that later loads wait for, a tenth more instructions for each row.
fn measure_row<'a>(
    first: &'a [u8],
    second: &'a [u8],
    w: &[u32; 8],
    output: &[u8],
    pool: &[u32],
    kept: usize,
    tally: &mut Tally,
    notes: &mut [u32],
    heads: &mut [u16],
    seen: &mut [u16],
    index: &[u16],
) -> Result<(), Stop>
    requires maybe_indexed { MaybeIndexed output.now pool.now kept index.now }
    requires output_len_bound { (length output.now ≤ max_store) × (tally.old.at ≤ max_store + 1) }
    requires kept_in_bounds { 2 * kept ≤ length pool.now }
    requires used_in_bounds { tally.old.used ≤ length notes.old }
    requires slots { Slots (length heads.old) × Slots (length seen.old) }
    requires kept { Kept first.now second.now output.now pool.now kept tally.old.names (take tally.old.used notes.old) heads.old }
    ensures { RowMeasured first.now second.now output.now pool.now kept (row_at first.now second.now w.now) tally.old notes.old heads.old notes.new heads.new (tally_of result tally.new) }
{
    let name = match quick_name_size(
        first,
        second,
        w,
        output,
        pool,
        kept,
        tally.names,
        notes,
        tally.used,
        heads,
        seen,
        index,
    ) {
        Ok(name) => name,
        Err(stop) => return Err(stop),
    };
    match sizes::value_size(first, second, w) {
        Ok(more) => {
            *tally = Tally {
                at: capped(output.len(), tally.at + 1 + name.size + more),
                names: name.names,
                used: name.used,
            };
            Ok(())
        }
        Err(r) => Err(Stop::Refused(r)),
    }
}

// Whether an event ends before these rows.
#[tactic(auto, unfolding(crate::specs::Passes::ends_at))]
fn is_event_end(rest: &[u32]) -> bool
    ensures { result ≡ ends_at rest.now 0 }
{
    match rest.first() {
        Some(kind) => *kind != Command::ATTRIBUTE,
        None => true,
    }
}

// Where an event ends: 11, and then 15.
fn room_fault(output: &[u8], pool: &[u32], at: usize, names: usize) -> Result<(), Refusal>
    ensures { fault_of result ≡ room_of (length output.now) (length pool.now) at names }
{
    if pool.len() / 2 < names {
        return Err(Refusal::PoolFull);
    }
    if output.len() < at {
        return Err(Refusal::OutputFull);
    }
    Ok(())
}

// The first pass: it writes nothing but notes. How many words of them are in use then.
pub(crate) fn measure<'a>(
    first: &'a [u8],
    second: &'a [u8],
    rows: &[u32],
    output: &[u8],
    pool: &[u32],
    writer: Writer,
    notes: &mut [u32],
    heads: &mut [u16],
    seen: &mut [u16],
    index: &[u16],
) -> Result<usize, Stop>
    requires maybe_indexed { MaybeIndexed output.now pool.now writer.names index.now }
    requires rows_len { length rows.now % 8 ≡ 0 }
    requires output_len_bound { (length output.now ≤ max_store) × (writer.written ≤ length output.now) }
    requires names_in_bounds { (2 * writer.names ≤ length pool.now) × (writer.names ≤ interned_new) }
    requires slots { Slots (length heads.old) × Fresh heads.old }
    requires slots_2 { Slots (length seen.old) }
    ensures { MeasureSays first.now second.now output.now pool.now writer.names writer.written (rows_in first.now second.now rows.now) notes.new heads.new result }
{
    let kept = writer.names;
    let mut tally = Tally {
        at: writer.written,
        names: kept,
        used: 0,
    };
    let (whole, _) = rows.as_chunks::<8>();
    for w in whole {
        if is_event_end(w) {
            room_fault(output, pool, tally.at, tally.names)?;
        }
        measure_row(
            first, second, w, output, pool, kept, &mut tally, notes, heads, seen, index,
        )?;
    }
    room_fault(output, pool, tally.at, tally.names)?;
    Ok(tally.used)
}
