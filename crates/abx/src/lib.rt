// What Rust and C call, as thin functions over the other crates; `abx_c` exports them. A slice is passed as a pointer, then a
// length. An answer is four words, and is written where there is room for four: 0 and what was asked for; 1 at the end; 2, a
// refusal's number and its detail; or 3 where a chunk reader needs more. A chunk reader's state is six words that each call is
// lent: start, end, names, bytes, and 0 or 1 for a header passed and for a finish. A call that is not refused leaves the new state there.
#![tactic(auto)]

pub mod queries;

ghost use Rattle.std.specs.Prelude.{[], ◌≡◌};
ghost use Rattle.utf8.specs.Utf8.{well_formed};
ghost use Rattle.nesting_spec.specs.Nesting.{nesting};
ghost use Rattle.slice_spec.specs.Slice as Slice;
ghost use Rattle.stream.specs.Answers.{lend};
ghost use Rattle.stream_spec.specs.Stream as Chunks;
ghost use Rattle.writer_spec.specs.Writer as Spec;
ghost use Rattle.xml_spec.specs.ToXml.{to_xml};
ghost use Rattle.xml_spec.specs.Rows.{row_to_xml};
ghost use Rattle.abx_words.specs.Words.{answered, created_words, NextLeft, stream_in, StreamLeft, opened, OpenLeft, WriteLeft, XmlLeft, nesting_words};

use slice::Place;
use writer::Writer;

// Names, parameters and answers in words are those that C calls (abx_c), so structs, enums and a Result stand only in the crates below.

// Whether s is well-formed UTF-8.
pub fn abx_is_utf8(s: &[u8]) -> bool
    ensures { result ≡ well_formed s.now }
{
    utf8::is_utf8(s)
}

// 0, place and names; or 2, number and detail.
pub fn abx_slice_create(document: &[u8], pool: &[u32], answer: &mut [usize])
    ensures { answer.new ≡ answered answer.old (created_words (Slice.create document.now pool.now)) }
{
    slice_words::tell_created(answer, slice::create(document, pool))
}

// 0, rows, place and names; or 1; or 2, number and detail.
pub fn abx_slice_next(
    at: usize,
    names: usize,
    document: &[u8],
    pool: &mut [u32],
    rows: &mut [u32],
    answer: &mut [usize],
)
    ensures { NextLeft answer.old answer.new pool.new rows.new (Slice.next (record { at = at; names = names }) document.now pool.old rows.old) }
{
    let place = Place { at, names };
    slice_words::tell_next(answer, slice::next_event(place, document, pool, rows))
}

// ---- the chunk reader

// 0; or 2, number and detail.
pub fn abx_stream_create(
    state: &mut [usize],
    window: &[u8],
    pool: &[u32],
    store: &[u8],
    answer: &mut [usize],
)
    ensures { OpenLeft state.old state.new answer.old answer.new (opened state.old (Chunks.create (lend window.now pool.now store.now))) }
{
    let created = stream::create(window, pool, store);
    stream_words::tell_opened(state, answer, created)
}

// 0 and the bytes taken; or 2, number and detail.
pub fn abx_stream_feed(
    state: &mut [usize],
    window: &mut [u8],
    pool: &[u32],
    store: &[u8],
    chunk: &[u8],
    answer: &mut [usize],
)
    ensures { StreamLeft state.old state.new answer.old answer.new window.new pool.now store.now [] (Chunks.feed (stream_in state.old) (lend window.old pool.now store.now) chunk.now) }
{
    let before = stream_words::stream_in(state);
    let fed = stream::feed(before, window, pool, store, chunk);
    stream_words::tell_fed(state, answer, fed)
}

// 0; or 2, number and detail.
pub fn abx_stream_finish(
    state: &mut [usize],
    window: &[u8],
    pool: &[u32],
    store: &[u8],
    answer: &mut [usize],
)
    ensures { StreamLeft state.old state.new answer.old answer.new window.now pool.now store.now [] (Chunks.finish (stream_in state.old) (lend window.now pool.now store.now)) }
{
    let before = stream_words::stream_in(state);
    let closed = stream::finish(before, window, pool, store);
    stream_words::tell_closed(state, answer, closed)
}

// 0 and rows; 1; 3 where more is needed; or 2, number and detail.
pub fn abx_stream_next(
    state: &mut [usize],
    window: &[u8],
    pool: &mut [u32],
    store: &mut [u8],
    rows: &mut [u32],
    answer: &mut [usize],
)
    ensures { StreamLeft state.old state.new answer.old answer.new window.now pool.new store.new rows.new (Chunks.next (stream_in state.old) (lend window.now pool.old store.old) rows.old) }
{
    let before = stream_words::stream_in(state);
    let next = stream_next::next(before, window, pool, store, rows);
    stream_words::tell_answer(state, answer, next)
}

// ---- the writer

// 0, bytes written and names; or 2, number and detail.
pub fn abx_writer_create(output: &mut [u8], pool: &[u32], answer: &mut [usize])
    ensures { WriteLeft answer.old answer.new output.new pool.now (Spec.create (record { output = output.old; table = pool.now })) }
{
    writer_words::tell_written(answer, writer::create(output, pool))
}

pub fn abx_write_event<'a>(
    written: usize,
    names: usize,
    first: &'a [u8],
    second: &'a [u8],
    rows: &[u32],
    output: &mut [u8],
    pool: &mut [u32],
    answer: &mut [usize],
)
    ensures { WriteLeft answer.old answer.new output.new pool.new (Spec.write_event (record { written = written; names = names }) first.now second.now rows.now (record { output = output.old; table = pool.old })) }
{
    let w = Writer { written, names };
    writer_words::tell_written(
        answer,
        writer::write_event(w, first, second, rows, output, pool),
    )
}

pub fn abx_write_events<'a>(
    written: usize,
    names: usize,
    first: &'a [u8],
    second: &'a [u8],
    rows: &[u32],
    output: &mut [u8],
    pool: &mut [u32],
    answer: &mut [usize],
)
    ensures { WriteLeft answer.old answer.new output.new pool.new (Spec.write_events (record { written = written; names = names }) first.now second.now rows.now (record { output = output.old; table = pool.old })) }
{
    let w = Writer { written, names };
    writer_words::tell_written(
        answer,
        writer::write_events(w, first, second, rows, output, pool),
    )
}

// ---- XML text

// 0 and the bytes of text; or 2, number and detail.
pub fn abx_to_xml<'a>(
    first: &'a [u8],
    second: &'a [u8],
    rows: &[u32],
    output: &mut [u8],
    answer: &mut [usize],
)
    ensures { XmlLeft answer.old answer.new output.new (to_xml first.now second.now rows.now output.old) }
{
    xml_words::tell_printed(answer, xml::to_xml(first, second, rows, output))
}

// The same of one row of a list, counted from 0.
pub fn abx_row_to_xml<'a>(
    row: usize,
    first: &'a [u8],
    second: &'a [u8],
    rows: &[u32],
    output: &mut [u8],
    answer: &mut [usize],
)
    ensures { XmlLeft answer.old answer.new output.new (row_to_xml first.now second.now rows.now row output.old) }
{
    xml_words::tell_printed(answer, xml::row_to_xml(first, second, rows, row, output))
}

// ---- nesting

// 0, and 1 where the list is one nested document or 0 where it is not; or 2, number and detail.
pub fn abx_nested<'a>(first: &'a [u8], second: &'a [u8], rows: &[u32], answer: &mut [usize])
    ensures { answer.new ≡ answered answer.old (nesting_words (nesting first.now second.now rows.now)) }
{
    nesting_words::tell_nesting(answer, nesting::nested(first, second, rows))
}
