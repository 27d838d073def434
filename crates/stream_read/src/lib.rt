// A chunk reader over input that is read as it needs more.
#![tactic(auto)]

ghost use Rattle.std.specs.Prelude.{◌≡◌, ◌-◌, ◌*◌, ◌≤◌, ◌<◌, min, length, IfOk, IfSome};
ghost use Rattle.stream.specs.Answers.{stream_of, lend};
ghost use Rattle.stream_read.specs.Onward.{Onward};
ghost use Rattle.stream_read.specs.Fetched.{Fetches};
ghost use Rattle.stream_read.specs.declared.ReadError.TheVariants.{Refused, Failed};

use std::io;
use std::io::Read;
use stream::{Answer, Stream};
use wire::Refusal;

// Why no event comes: one is refused, or the input can't be read.
#[derive(Clone, Copy, Debug, PartialEq, Eq)]
pub enum ReadError {
    Refused(Refusal),
    Failed,
}

impl From<Refusal> for ReadError {
    ghost from_gives = { λ refusal error. error ≡ Refused refusal };

    fn from(refusal: Refusal) -> ReadError {
        ReadError::Refused(refusal)
    }
}

impl From<io::Error> for ReadError {
    ghost from_gives = { λ _ error. error ≡ Failed };

    fn from(_error: io::Error) -> ReadError {
        ReadError::Failed
    }
}

// How many bytes the window has room for, at most so many.
fn room(reader: Stream, window: usize, most: usize) -> usize
    ensures within { result ≤ most }
    ensures exact { reader.start ≤ reader.end → result ≡ min (window - (reader.end - reader.start)) most }
{
    let waiting = reader.end.checked_sub(reader.start);
    let free = waiting.and_then(|waiting| window.checked_sub(waiting));
    free.unwrap_or(0).min(most)
}

// Reads once, as much as the window has room for, so that a feed takes all of it. Only a read of no bytes is the end.
fn read_by<R: Read>(
    input: &mut R,
    chunk: &mut [u8],
    reader: Stream,
    window: &mut [u8],
    table: &[u32],
    store: &[u8],
) -> Result<Stream, ReadError>
    requires { 0 < length chunk.old }
    ensures { Onward (R.remaining input.old) (R.remaining input.new) reader (lend window.old table.now store.now) (lend window.new table.now store.now) result }
{
    let most = room(reader, window.len(), chunk.len());
    let part = &mut chunk[..most];
    let count = input.read(part)?;
    if count == 0 {
        return Ok(stream::finish(reader, window, table, store)?);
    }
    let fed = stream::feed(reader, window, table, store, &part[..count])?;
    Ok(fed.stream)
}

// More input for a reader that needs it.
pub fn read_on<R: Read>(
    input: &mut R,
    reader: Stream,
    window: &mut [u8],
    table: &[u32],
    store: &[u8],
) -> Result<Stream, ReadError>
    ensures { Onward (R.remaining input.old) (R.remaining input.new) reader (lend window.old table.now store.now) (lend window.new table.now store.now) result }
{
    let mut chunk = [0u8; 65536];
    read_by(input, &mut chunk, reader, window, table, store)
}

// An event of so many rows, and the reader after it.
#[derive(Clone, Copy, Debug, PartialEq, Eq)]
pub struct Event {
    pub rows: usize,
    pub reader: Stream,
}

// The next event; none at the input's end. The reads are counted, so that the turns end: each but the last takes a byte, and no input has so
// many.
pub fn next_event<R: Read>(
    input: &mut R,
    start: Stream,
    window: &mut [u8],
    table: &mut [u32],
    store: &mut [u8],
    rows: &mut [u32],
) -> Result<Option<Event>, ReadError>
    ensures fetches { Fetches (R.remaining input.old) (R.remaining input.new) start (lend window.old table.old store.old) (lend window.new table.new store.new) rows.old rows.new result }
    ensures within { IfOk result (λ found. IfSome found (λ event. 8 * event.rows ≤ length rows.old)) }
{
    let mut reader = start;
    let mut reads: u64 = 0;
    loop {
        match stream_next::next(reader, window, table, store, rows)? {
            Answer::Event {
                rows: count,
                stream,
            } => {
                return Ok(Some(Event {
                    rows: count,
                    reader: stream,
                }));
            }
            Answer::NeedMore(stream) => {
                if reads == u64::MAX {
                    return Err(ReadError::Failed);
                }
                reads += 1;
                reader = read_on(input, stream, window, table, store)?;
            }
            Answer::End(_) => {
                return Ok(None);
            }
        }
    }
}
