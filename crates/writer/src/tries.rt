// A call with rows: its checks, and tries by how many names they can note.
ghost use Rattle.std.specs.Prelude.{true, false, ◌≡◌, ◌≤◌, length};
ghost use Rattle.event.specs.Words.{list_forms};
ghost use Rattle.writer_spec.specs.Writer.{sizes_bad, state_bad, rows_in};
ghost use Rattle.writer.specs.Answers.{lent_of, state_of, forms_by, fault_of};
ghost use Rattle.slots.specs.Slots.{Fresh};
ghost use Rattle.pool_index.specs.Index.{MaybeIndexed};
ghost use Rattle.writer.specs.Passes.{most-notes, Slots, call_fault, Tried, TriedBy, WrittenBy};

use crate::{Stop, Writer, measure, put};
use wire::Refusal;

// Rows that form: all that is left to refuse them is found by measuring. None: there was no room for the note of another name, and
// nothing has changed.
fn write_noted<'a>(
    writer: Writer,
    first: &'a [u8],
    second: &'a [u8],
    rows: &[u32],
    output: &mut [u8],
    pool: &mut [u32],
    notes: &mut [u32],
    heads: &mut [u16],
    seen: &mut [u16],
    index: &[u16],
) -> Option<Result<Writer, Refusal>>
    requires maybe_indexed { MaybeIndexed output.old pool.old writer.names index.now }
    requires rows_value { list_forms first.now second.now rows.now ≡ true }
    requires pool_value { sizes_bad (lent_of output.old pool.old) ≡ false }
    requires pool_value_2 { state_bad (state_of writer) (lent_of output.old pool.old) ≡ false }
    requires slots { Slots (length heads.old) × Fresh heads.old }
    requires slots_2 { Slots (length seen.old) }
    ensures { Tried true (state_of writer) (lent_of output.old pool.old) (rows_in first.now second.now rows.now) output.new pool.new (length notes.old) result }
{
    match measure::measure(
        first, second, rows, output, pool, writer, notes, heads, seen, index,
    ) {
        Err(Stop::Refused(r)) => Some(Err(r)),
        Err(Stop::Crowded) => None,
        Ok(used) => Some(Ok(put::write_rows(
            first,
            second,
            rows,
            output,
            pool,
            writer,
            &notes[..used],
            heads,
            seen,
        ))),
    }
}

// Whether words form rows that a call takes.
fn forms(single: bool, first: &[u8], second: &[u8], rows: &[u32]) -> bool
    ensures { result ≡ forms_by single first.now second.now rows.now }
{
    if single {
        return forms::event_forms(first, second, rows);
    }
    forms::list_forms(first, second, rows)
}

// What refuses a call before its rows are looked at: 17, 19 and 16. single says that they must be one event's.
fn call_fault(
    single: bool,
    writer: Writer,
    first: &[u8],
    second: &[u8],
    rows: &[u32],
    output: &[u8],
    pool: &[u32],
) -> Result<(), Refusal>
    ensures { fault_of result ≡ call_fault (forms_by single first.now second.now rows.now) (state_of writer) (lent_of output.now pool.now) }
{
    if crate::sizes_bad(output, pool) {
        return Err(Refusal::BadSize);
    }
    if crate::state_bad(writer, output, pool) {
        return Err(Refusal::BadState);
    }
    if forms(single, first, second, rows) {
        return Ok(());
    }
    Err(Refusal::NotRows)
}

// The checks, and then the rows.
fn write_checked<'a>(
    single: bool,
    writer: Writer,
    first: &'a [u8],
    second: &'a [u8],
    rows: &[u32],
    output: &mut [u8],
    pool: &mut [u32],
    notes: &mut [u32],
    heads: &mut [u16],
    seen: &mut [u16],
    index: &mut [u16],
) -> Option<Result<Writer, Refusal>>
    requires fresh { Fresh index.old }
    requires slots { Slots (length heads.old) × Fresh heads.old }
    requires slots_2 { Slots (length seen.old) }
    ensures { TriedBy single writer first.now second.now rows.now output.old pool.old output.new pool.new (length notes.old) result }
{
    match call_fault(single, writer, first, second, rows, output, pool) {
        Err(r) => Some(Err(r)),
        Ok(()) => {
            pool_index::prepare(output, pool, writer.names, index);
            write_noted(
                writer, first, second, rows, output, pool, notes, heads, seen, index,
            )
        }
    }
}

// ---- tries, by how many names they can note
//
// The arrays of a try are the stack of its function. The compiler makes a small function part of its callers, frame and all, and
// leaves one apart that has two tries and two callers. So the tries come in pairs, and a call goes from pair to pair. That is why
// `single` is a bool, too: with a closure for the test of the rows each pair would have one caller, and all tries would lie in its frame.

// A try with so many words of notes, slots of notes, guesses, and words of the pool's index: 81,920, or 1 and no index.
fn write_with<'a, const NOTES: usize, const HEADS: usize, const SEEN: usize, const INDEX: usize>(
    single: bool,
    writer: Writer,
    first: &'a [u8],
    second: &'a [u8],
    rows: &[u32],
    output: &mut [u8],
    pool: &mut [u32],
) -> Option<Result<Writer, Refusal>>
    requires notes { NOTES ≤ most-notes }
    requires heads { Slots HEADS }
    requires seen { Slots SEEN }
    requires index { INDEX ≤ 81920 }
    ensures { TriedBy single writer first.now second.now rows.now output.old pool.old output.new pool.new NOTES result }
{
    let mut notes = [0u32; NOTES];
    let mut heads = [0u16; HEADS];
    let mut seen = [0u16; SEEN];
    let mut index = [0u16; INDEX];
    write_checked(
        single, writer, first, second, rows, output, pool, &mut notes, &mut heads, &mut seen,
        &mut index,
    )
}

// Notes of every name that a pool can hold, and the pool's index: it is never crowded.
fn write_all<'a>(
    single: bool,
    writer: Writer,
    first: &'a [u8],
    second: &'a [u8],
    rows: &[u32],
    output: &mut [u8],
    pool: &mut [u32],
) -> Result<Writer, Refusal>
    ensures { WrittenBy single writer first.now second.now rows.now output.old pool.old output.new pool.new result }
{
    match write_with::<327_675, 16_384, 32_768, 81_920>(
        single, writer, first, second, rows, output, pool,
    ) {
        Some(answer) => answer,
        None => Err(Refusal::PoolFull),
    }
}

// Up to 4,096 rows. A list on a pool of many names is left to a try that has an index of it.
pub(crate) fn write_short<'a>(
    single: bool,
    writer: Writer,
    first: &'a [u8],
    second: &'a [u8],
    rows: &[u32],
    output: &mut [u8],
    pool: &mut [u32],
) -> Option<Result<Writer, Refusal>>
    ensures { TriedBy single writer first.now second.now rows.now output.old pool.old output.new pool.new 5_120 result }
{
    if rows.len() <= 512 {
        // Notes of 64 names.
        return write_with::<320, 64, 64, 1>(single, writer, first, second, rows, output, pool);
    }
    if rows.len() <= 32_768 && (single || writer.names < 256) {
        // Notes of 1,024 names.
        return write_with::<5_120, 1_024, 1_024, 1>(
            single, writer, first, second, rows, output, pool,
        );
    }
    None
}

// Any number of rows.
pub(crate) fn write_long<'a>(
    single: bool,
    writer: Writer,
    first: &'a [u8],
    second: &'a [u8],
    rows: &[u32],
    output: &mut [u8],
    pool: &mut [u32],
) -> Option<Result<Writer, Refusal>>
    ensures { TriedBy single writer first.now second.now rows.now output.old pool.old output.new pool.new 102_400 result }
{
    if writer.names < 256 {
        // Notes of 20,480 names.
        return write_with::<102_400, 8_192, 65_535, 1>(
            single, writer, first, second, rows, output, pool,
        );
    }
    // Notes of 20,480 names, and the pool's index.
    write_with::<102_400, 8_192, 8_192, 81_920>(single, writer, first, second, rows, output, pool)
}

// Any number of rows and names.
pub(crate) fn write_longest<'a>(
    single: bool,
    writer: Writer,
    first: &'a [u8],
    second: &'a [u8],
    rows: &[u32],
    output: &mut [u8],
    pool: &mut [u32],
) -> Result<Writer, Refusal>
    ensures { WrittenBy single writer first.now second.now rows.now output.old pool.old output.new pool.new result }
{
    if 262_144 < rows.len() {
        return write_all(single, writer, first, second, rows, output, pool);
    }
    // Notes of 32,768 names, and the pool's index.
    if let Some(answer) = write_with::<163_840, 16_384, 32_768, 81_920>(
        single, writer, first, second, rows, output, pool,
    ) {
        return answer;
    }
    write_all(single, writer, first, second, rows, output, pool)
}
