// The chunk reader's `next`: the event that stands in the window, if all of it waits.
#![tactic(auto, unfolding(stream::specs::Answers::fault, stream_spec::specs::Stream::sizes_bad, stream_spec::specs::Stream::state_bad, stream_spec::specs::Stream::checked, stream_spec::specs::Stream::next))]

ghost use Rattle.std.specs.Prelude.{◌&&◌, ◌≡◌, ◌≤◌, eqb};
ghost use Rattle.stream_spec.specs.Stream.{passed, next_from, next_header, next};
ghost use Rattle.stream.specs.Answers.{stream_of, lend, Fits, Sums, later, answer_of};

use scanner::Event;
use stream::{Answer, Stream, check};
use wire::Refusal;

// The state with the header passed; what waits begins at from.
fn passed(stream: Stream, from: usize) -> Stream
    ensures { stream_of result ≡ passed (stream_of stream) from }
{
    Stream {
        start: from,
        header: true,
        ..stream
    }
}

// The state after an event at from, with the names that the event adds.
fn advanced(stream: Stream, from: usize, event: Event) -> Stream
    requires { Sums (stream_of stream) from event.len event.added event.bytes }
    ensures { stream_of result ≡ later (stream_of stream) from event.len event.added event.bytes }
{
    Stream {
        start: from + event.len,
        names: stream.names + event.added,
        bytes: stream.bytes + event.bytes,
        header: true,
        ..stream
    }
}

// Whether no more bytes will come and none waits.
fn at_end(stream: Stream, from: usize) -> bool
    ensures { result ≡ (stream.finished && eqb from stream.end) }
{
    stream.finished && from == stream.end
}

// The event that stands in the window from a place past the header on. The buffers stay parameters, as next is lent them: abx calls it so.
fn next_from(
    stream: Stream,
    from: usize,
    window: &[u8],
    table: &mut [u32],
    store: &mut [u8],
    rows: &mut [u32],
) -> Result<Answer, Refusal>
    requires fits { Fits (stream_of stream) (lend window.now table.old store.old) }
    requires from_le_end { from ≤ stream.end }
    ensures { answer_of stream (lend window.now table.new store.new) rows.new result ≡ next_from (stream_of stream) (lend window.now table.old store.old) rows.old from }
{
    if at_end(stream, from) {
        return Ok(Answer::End(passed(stream, from)));
    }
    let waiting = &window[from..stream.end];
    match scanner::step(
        waiting,
        from,
        stream.finished,
        true,
        stream.names,
        stream.bytes,
        table,
        store,
        rows,
    )? {
        Some(event) => Ok(Answer::Event {
            rows: event.rows,
            stream: advanced(stream, from, event),
        }),
        None if waiting.len() == window.len() => Err(Refusal::WindowFull),
        None => Ok(Answer::NeedMore(passed(stream, from))),
    }
}

// The header, and then an event.
fn next_header(
    stream: Stream,
    window: &[u8],
    table: &mut [u32],
    store: &mut [u8],
    rows: &mut [u32],
) -> Result<Answer, Refusal>
    requires { Fits (stream_of stream) (lend window.now table.old store.old) }
    ensures { answer_of stream (lend window.now table.new store.new) rows.new result ≡ next_header (stream_of stream) (lend window.now table.old store.old) rows.old }
{
    let waiting = &window[stream.start..stream.end];
    if waiting.len() < header::MAGIC.len() && !stream.finished {
        return Ok(Answer::NeedMore(stream));
    }
    header::check_magic(waiting)?;
    let from = stream.start + header::MAGIC.len();
    next_from(stream, from, window, table, store, rows)
}

// The next event, if all of it waits.
pub fn next(
    stream: Stream,
    window: &[u8],
    table: &mut [u32],
    store: &mut [u8],
    rows: &mut [u32],
) -> Result<Answer, Refusal>
    ensures { answer_of stream (lend window.now table.new store.new) rows.new result ≡ next (stream_of stream) (lend window.now table.old store.old) rows.old }
{
    check(stream, window, table, store)?;
    if stream.header {
        next_from(stream, stream.start, window, table, store, rows)
    } else {
        next_header(stream, window, table, store, rows)
    }
}
