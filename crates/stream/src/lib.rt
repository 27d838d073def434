// The chunk reader over buffers that every call lends: a window where bytes wait, a pool table, and a store for the names. Its `next` is
// the crate stream_next.
#![tactic(auto, unfolding(crate::specs::Answers::fault, crate::specs::Answers::open_fault, stream_spec::specs::Stream::sizes_bad, stream_spec::specs::Stream::state_bad, stream_spec::specs::Stream::create, stream_spec::specs::Stream::checked, stream_spec::specs::Stream::finish, stream_spec::specs::Stream::feed, stream_spec::specs::Stream::fed))]

ghost use Rattle.std.specs.Prelude.{◌++◌, ◌≡◌, ◌+◌, ◌-◌, ◌≤◌, min, length, take, drop};
ghost use Rattle.std.proofs.Math.Seq.{slice};
ghost use Rattle.stream_spec.specs.Stream.{sizes_bad, state_bad, create, feed, finish};
ghost use Rattle.stream.specs.Answers.{stream_of, lend, fault, open_fault, created_of, fed_of, closed_of};

use wire::{Refusal, limits};

// The bytes of the window from start to end wait. The pool table has so many names, the store so many bytes of them.
#[derive(Clone, Copy, Default, Debug, PartialEq, Eq)]
pub struct Stream {
    pub start: usize,
    pub end: usize,
    pub names: usize,
    pub bytes: usize,
    pub header: bool,
    pub finished: bool,
}

// ---- what every call checks first

// Whether a buffer has a length that no reader takes. The buffers stay three parameters: C lends each by itself, feed changes one of them,
// and a struct would be put together by each public call and taken apart by each clause.
fn sizes_bad(window: &[u8], table: &[u32], store: &[u8]) -> bool
    ensures { result ≡ sizes_bad (lend window.now table.now store.now) }
{
    window.len() < limits::MIN_WINDOW
        || limits::MAX_WINDOW < window.len()
        || table.len() % 2 == 1
        || limits::MAX_TABLE < table.len()
        || limits::MAX_STORE < store.len()
}

// Whether a count or place lies outside its buffer. Twice the names may not fit a usize, half the words do.
fn state_bad(stream: Stream, window: &[u8], table: &[u32], store: &[u8]) -> bool
    ensures { result ≡ state_bad (stream_of stream) (lend window.now table.now store.now) }
{
    stream.end < stream.start
        || window.len() < stream.end
        || table.len() / 2 < stream.names
        || store.len() < stream.bytes
}

// Whether a call may go on.
pub fn check(stream: Stream, window: &[u8], table: &[u32], store: &[u8]) -> Result<(), Refusal>
    ensures { result ≡ fault (stream_of stream) (lend window.now table.now store.now) }
{
    if sizes_bad(window, table, store) {
        return Err(Refusal::BadSize);
    }
    if state_bad(stream, window, table, store) {
        return Err(Refusal::BadState);
    }
    Ok(())
}

// The same for a call that is refused after a finish.
fn check_open(stream: Stream, window: &[u8], table: &[u32], store: &[u8]) -> Result<(), Refusal>
    ensures { result ≡ open_fault (stream_of stream) (lend window.now table.now store.now) }
{
    check(stream, window, table, store)?;
    if stream.finished {
        return Err(Refusal::AlreadyFinished);
    }
    Ok(())
}

// ---- creation

// A reader that nothing was fed to yet.
pub fn create(window: &[u8], table: &[u32], store: &[u8]) -> Result<Stream, Refusal>
    ensures { created_of result ≡ create (lend window.now table.now store.now) }
{
    if sizes_bad(window, table, store) {
        return Err(Refusal::BadSize);
    }
    Ok(Stream::default())
}

// ---- feed

// The waiting bytes, from start to end, move to the window's front, and as many of the chunk's as fit come after them. How many these are.
fn fill(window: &mut [u8], start: usize, end: usize, chunk: &[u8]) -> usize
    requires { (start ≤ end) × (end ≤ length window.old) }
    ensures { (result ≡ min (length chunk.now) (length window.old - (end - start))) × (window.new ≡ slice start end window.old ++ (take result chunk.now ++ drop (end - start + result) window.old)) }
{
    let waiting = end - start;
    let fitting = chunk.len().min(window.len() - waiting);
    if 0 < start {
        window.copy_within(start..end, 0);
    }
    byte_copy::copy(chunk, window, waiting);
    fitting
}

// How many bytes of a chunk were taken, and the state after it.
#[derive(Clone, Copy, Debug, PartialEq, Eq)]
pub struct Fed {
    pub count: usize,
    pub stream: Stream,
}

// Takes as many bytes of the chunk as fit after those that wait.
pub fn feed(
    stream: Stream,
    window: &mut [u8],
    table: &[u32],
    store: &[u8],
    chunk: &[u8],
) -> Result<Fed, Refusal>
    ensures { fed_of stream (lend window.new table.now store.now) result ≡ feed (stream_of stream) (lend window.old table.now store.now) chunk.now }
{
    check_open(stream, window, table, store)?;
    let count = fill(window, stream.start, stream.end, chunk);
    let end = stream.end - stream.start + count;
    Ok(Fed {
        count,
        stream: Stream {
            start: 0,
            end,
            ..stream
        },
    })
}

// ---- finish

// No more bytes will come.
pub fn finish(stream: Stream, window: &[u8], table: &[u32], store: &[u8]) -> Result<Stream, Refusal>
    ensures { closed_of stream (lend window.now table.now store.now) result ≡ finish (stream_of stream) (lend window.now table.now store.now) }
{
    check_open(stream, window, table, store)?;
    Ok(Stream {
        finished: true,
        ..stream
    })
}

// ---- next

// What a next found: an event of so many rows, with the state after it; or that more bytes are needed; or the end.
#[derive(Clone, Copy, Debug, PartialEq, Eq)]
pub enum Answer {
    Event { rows: usize, stream: Stream },
    NeedMore(Stream),
    End(Stream),
}
