// The static library for Rust and C: the functions of `abx` under the names that C sees, with the same contracts.
#![tactic(auto)]

ghost use Rattle.std.specs.Prelude.{[], ◌≡◌};
ghost use Rattle.utf8.specs.Utf8.{well_formed};
ghost use Rattle.nesting_spec.specs.Nesting.{nesting};
ghost use Rattle.slice_spec.specs.Slice as Slice;
ghost use Rattle.stream.specs.Answers.{lend};
ghost use Rattle.stream_spec.specs.Stream as Chunks;
ghost use Rattle.writer_spec.specs.Writer as Spec;
ghost use Rattle.xml_spec.specs.ToXml.{to_xml};
ghost use Rattle.xml_spec.specs.Rows.{row_to_xml};
ghost use Rattle.abx_words.specs.Words.{answered, created_words, NextLeft, stream_in, StreamLeft, opened, OpenLeft, WriteLeft, XmlLeft, nesting_words};
ghost use Rattle.slice_spec.specs.Queries.{query, find-attribute, attributes-of, find-all-attributes, all-attributes-of};
ghost use Rattle.abx_words.specs.QueryWords.{QueryLeft};

// Whether s is well-formed UTF-8.
#[unsafe(no_mangle)]
pub extern "C" fn abx_is_utf8(s: &[u8]) -> bool
    ensures { result ≡ well_formed s.now }
{
    abx::abx_is_utf8(s)
}

// 0, place and names; or 2, number and detail.
#[unsafe(no_mangle)]
pub extern "C" fn abx_slice_create(document: &[u8], pool: &[u32], answer: &mut [usize])
    ensures { answer.new ≡ answered answer.old (created_words (Slice.create document.now pool.now)) }
{
    abx::abx_slice_create(document, pool, answer)
}

// 0, rows, place and names; or 1; or 2, number and detail.
#[unsafe(no_mangle)]
pub extern "C" fn abx_slice_next(
    at: usize,
    names: usize,
    document: &[u8],
    pool: &mut [u32],
    rows: &mut [u32],
    answer: &mut [usize],
)
    ensures { NextLeft answer.old answer.new pool.new rows.new (Slice.next (record { at = at; names = names }) document.now pool.old rows.old) }
{
    abx::abx_slice_next(at, names, document, pool, rows, answer)
}

// 0; or 2, number and detail.
#[unsafe(no_mangle)]
pub extern "C" fn abx_stream_create(
    state: &mut [usize],
    window: &[u8],
    pool: &[u32],
    store: &[u8],
    answer: &mut [usize],
)
    ensures { OpenLeft state.old state.new answer.old answer.new (opened state.old (Chunks.create (lend window.now pool.now store.now))) }
{
    abx::abx_stream_create(state, window, pool, store, answer)
}

// 0 and the bytes taken; or 2, number and detail.
#[unsafe(no_mangle)]
pub extern "C" fn abx_stream_feed(
    state: &mut [usize],
    window: &mut [u8],
    pool: &[u32],
    store: &[u8],
    chunk: &[u8],
    answer: &mut [usize],
)
    ensures { StreamLeft state.old state.new answer.old answer.new window.new pool.now store.now [] (Chunks.feed (stream_in state.old) (lend window.old pool.now store.now) chunk.now) }
{
    abx::abx_stream_feed(state, window, pool, store, chunk, answer)
}

// 0; or 2, number and detail.
#[unsafe(no_mangle)]
pub extern "C" fn abx_stream_finish(
    state: &mut [usize],
    window: &[u8],
    pool: &[u32],
    store: &[u8],
    answer: &mut [usize],
)
    ensures { StreamLeft state.old state.new answer.old answer.new window.now pool.now store.now [] (Chunks.finish (stream_in state.old) (lend window.now pool.now store.now)) }
{
    abx::abx_stream_finish(state, window, pool, store, answer)
}

// 0 and rows; 1; 3 where more is needed; or 2, number and detail.
#[unsafe(no_mangle)]
pub extern "C" fn abx_stream_next(
    state: &mut [usize],
    window: &[u8],
    pool: &mut [u32],
    store: &mut [u8],
    rows: &mut [u32],
    answer: &mut [usize],
)
    ensures { StreamLeft state.old state.new answer.old answer.new window.now pool.new store.new rows.new (Chunks.next (stream_in state.old) (lend window.now pool.old store.old) rows.old) }
{
    abx::abx_stream_next(state, window, pool, store, rows, answer)
}

// 0, bytes written and names; or 2, number and detail.
#[unsafe(no_mangle)]
pub extern "C" fn abx_writer_create(output: &mut [u8], pool: &[u32], answer: &mut [usize])
    ensures { WriteLeft answer.old answer.new output.new pool.now (Spec.create (record { output = output.old; table = pool.now })) }
{
    abx::abx_writer_create(output, pool, answer)
}

#[unsafe(no_mangle)]
pub extern "C" fn abx_write_event<'a>(
    written: usize,
    names: usize,
    first: &'a [u8],
    second: &'a [u8],
    rows: &[u32],
    output: &mut [u8],
    pool: &mut [u32],
    answer: &mut [usize],
)
    ensures { WriteLeft answer.old answer.new output.new pool.new (Spec.write_event (record { written = written; names = names }) first.now second.now rows.now (record { output = output.old; table = pool.old })) }
{
    abx::abx_write_event(written, names, first, second, rows, output, pool, answer)
}

#[unsafe(no_mangle)]
pub extern "C" fn abx_write_events<'a>(
    written: usize,
    names: usize,
    first: &'a [u8],
    second: &'a [u8],
    rows: &[u32],
    output: &mut [u8],
    pool: &mut [u32],
    answer: &mut [usize],
)
    ensures { WriteLeft answer.old answer.new output.new pool.new (Spec.write_events (record { written = written; names = names }) first.now second.now rows.now (record { output = output.old; table = pool.old })) }
{
    abx::abx_write_events(written, names, first, second, rows, output, pool, answer)
}

// 0 and the bytes of text; or 2, number and detail.
#[unsafe(no_mangle)]
pub extern "C" fn abx_to_xml<'a>(
    first: &'a [u8],
    second: &'a [u8],
    rows: &[u32],
    output: &mut [u8],
    answer: &mut [usize],
)
    ensures { XmlLeft answer.old answer.new output.new (to_xml first.now second.now rows.now output.old) }
{
    abx::abx_to_xml(first, second, rows, output, answer)
}

// The same of one row of a list, counted from 0.
#[unsafe(no_mangle)]
pub extern "C" fn abx_row_to_xml<'a>(
    row: usize,
    first: &'a [u8],
    second: &'a [u8],
    rows: &[u32],
    output: &mut [u8],
    answer: &mut [usize],
)
    ensures { XmlLeft answer.old answer.new output.new (row_to_xml first.now second.now rows.now row output.old) }
{
    abx::abx_row_to_xml(row, first, second, rows, output, answer)
}

// 0, and 1 where the list is one nested document or 0 where it is not; or 2, number and detail.
#[unsafe(no_mangle)]
pub extern "C" fn abx_nested<'a>(
    first: &'a [u8],
    second: &'a [u8],
    rows: &[u32],
    answer: &mut [usize],
)
    ensures { answer.new ≡ answered answer.old (nesting_words (nesting first.now second.now rows.now)) }
{
    abx::abx_nested(first, second, rows, answer)
}

// The first attribute of this name on the next element of that name that has it.
#[unsafe(no_mangle)]
pub extern "C" fn abx_find_attribute(
    at: usize,
    names: usize,
    document: &[u8],
    pool: &mut [u32],
    rows: &mut [u32],
    element: &[u8],
    name: &[u8],
    answer: &mut [usize],
)
    ensures { QueryLeft answer.old answer.new pool.new rows.new (query (find-attribute element.now name.now) (record { at = at; names = names }) document.now pool.old rows.old) }
{
    abx::queries::abx_find_attribute(at, names, document, pool, rows, element, name, answer)
}

// The next element of this name, with its attributes.
#[unsafe(no_mangle)]
pub extern "C" fn abx_attributes_of(
    at: usize,
    names: usize,
    document: &[u8],
    pool: &mut [u32],
    rows: &mut [u32],
    element: &[u8],
    answer: &mut [usize],
)
    ensures { QueryLeft answer.old answer.new pool.new rows.new (query (attributes-of element.now) (record { at = at; names = names }) document.now pool.old rows.old) }
{
    abx::queries::abx_attributes_of(at, names, document, pool, rows, element, answer)
}

// Every attribute of this name on every element of that name.
#[unsafe(no_mangle)]
pub extern "C" fn abx_find_all_attributes(
    at: usize,
    names: usize,
    document: &[u8],
    pool: &mut [u32],
    rows: &mut [u32],
    element: &[u8],
    name: &[u8],
    answer: &mut [usize],
)
    ensures { QueryLeft answer.old answer.new pool.new rows.new (query (find-all-attributes element.now name.now) (record { at = at; names = names }) document.now pool.old rows.old) }
{
    abx::queries::abx_find_all_attributes(at, names, document, pool, rows, element, name, answer)
}

// Every element of this name, with its attributes.
#[unsafe(no_mangle)]
pub extern "C" fn abx_all_attributes_of(
    at: usize,
    names: usize,
    document: &[u8],
    pool: &mut [u32],
    rows: &mut [u32],
    element: &[u8],
    answer: &mut [usize],
)
    ensures { QueryLeft answer.old answer.new pool.new rows.new (query (all-attributes-of element.now) (record { at = at; names = names }) document.now pool.old rows.old) }
{
    abx::queries::abx_all_attributes_of(at, names, document, pool, rows, element, answer)
}
