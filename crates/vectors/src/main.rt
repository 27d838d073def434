// Replays the Rust's stored answers. Standard input has a document a line, in hex, `=` for the empty one. Its listing is printed
// twice: from the slice reader, and from a chunk reader, which is fed the document in small chunks.
#![tactic(auto)]

ghost use Rattle.std.specs.Prelude.{◌≤◌, ◌<◌, length};

use slice::Place;
use std::io::{Print, Read, Stdin, Stdout};
use stream::{Answer, Fed, Stream};
use wire::Refusal;

// ---- lines

// A line of the listing; `?` where it had no room.
fn show(stdout: Stdout, line: &[u8], written: Result<usize, Refusal>) {
    let shown = written.ok().and_then(|len| line.get(..len));
    // a write that fails is passed over: the lines that come are compared with those wanted
    let _ = stdout.write_all(shown.unwrap_or(b"?\n"));
}

// A stored document has under 3,000 bytes, so that a row's line has room.
fn show_rows<'a>(stdout: Stdout, first: &'a [u8], second: &'a [u8], rows: &[u32], count: usize) {
    for row in 0..count {
        let mut line = [0u8; 8_192];
        let written = listing::line(first, second, rows, row, &mut line);
        show(stdout, &line, written);
    }
}

fn show_end(stdout: Stdout, events: usize) {
    let mut line = [0u8; 64];
    let written = listing::end_line(events, &mut line);
    show(stdout, &line, written);
}

fn show_refused(stdout: Stdout, refusal: Refusal) {
    let mut line = [0u8; 64];
    let written = listing::refused_line(refusal, &mut line);
    show(stdout, &line, written);
}

// ---- a document, by the slice reader

// An event takes a byte at least, so the turns are enough.
fn show_events(stdout: Stdout, document: &[u8], first: Place, pool: &mut [u32], rows: &mut [u32]) {
    let mut place = first;
    for events in 0..=document.len() {
        match slice::next_event(place, document, pool, rows) {
            Ok(Some(event)) => {
                show_rows(stdout, document, document, rows, event.rows);
                place = event.place;
            }
            Ok(None) => {
                show_end(stdout, events);
                return;
            }
            Err(refusal) => {
                show_refused(stdout, refusal);
                return;
            }
        }
    }
}

fn show_at_once(stdout: Stdout, document: &[u8]) {
    let mut pool = [0u32; 256];
    let mut rows = [0u32; 512];
    match slice::create(document, &pool) {
        Ok(place) => show_events(stdout, document, place, &mut pool, &mut rows),
        Err(refusal) => show_refused(stdout, refusal),
    }
}

// ---- a document, by a chunk reader

// A reader, and what it was not fed yet.
#[derive(Clone, Copy, Drop)]
struct FedTo<'a> {
    stream: Stream,
    rest: &'a [u8],
}

// The next chunk, of 1, 7 or 64 bytes by turns, or the finish where there is none.
fn feed_more<'a>(
    stream: Stream,
    window: &mut [u8],
    pool: &[u32],
    store: &[u8],
    rest: &'a [u8],
    turn: usize,
) -> Result<FedTo<'a>, Refusal> {
    if rest.is_empty() {
        let stream = stream::finish(stream, window, pool, store)?;
        return Ok(FedTo { stream, rest });
    }
    let size = match turn % 3 {
        0 => 1,
        1 => 7,
        _ => 64,
    };
    let chunk = &rest[..rest.len().min(size)];
    let Fed { count, stream } = stream::feed(stream, window, pool, store, chunk)?;
    let rest = &rest[rest.len().min(count)..];
    Ok(FedTo { stream, rest })
}

// Enough for a line of 3,000 bytes: a turn takes an event of a byte or more, or feeds a byte or more.
const TURNS: usize = 6_010;

fn show_chunks(
    stdout: Stdout,
    document: &[u8],
    first: Stream,
    window: &mut [u8],
    pool: &mut [u32],
    store: &mut [u8],
    rows: &mut [u32],
) {
    let mut fed = FedTo {
        stream: first,
        rest: document,
    };
    let mut events = 0;
    for turn in 0..TURNS {
        match stream_next::next(fed.stream, window, pool, store, rows) {
            Ok(
                Answer::Event {
                    rows: count,
                    stream,
                },
            ) => {
                show_rows(stdout, window, store, rows, count);
                events += 1;
                fed.stream = stream;
            }
            Ok(Answer::NeedMore(stream)) => {
                match feed_more(stream, window, pool, store, fed.rest, turn) {
                    Ok(more) => fed = more,
                    Err(refusal) => {
                        show_refused(stdout, refusal);
                        return;
                    }
                }
            }
            Ok(Answer::End(_)) => {
                show_end(stdout, events);
                return;
            }
            Err(refusal) => {
                show_refused(stdout, refusal);
                return;
            }
        }
    }
}

fn show_in_chunks(stdout: Stdout, document: &[u8]) {
    let mut window = [0u8; 128];
    let mut pool = [0u32; 256];
    let mut store = [0u8; 256];
    let mut rows = [0u32; 512];
    match stream::create(&window, &pool, &store) {
        Ok(stream) => show_chunks(
            stdout,
            document,
            stream,
            &mut window,
            &mut pool,
            &mut store,
            &mut rows,
        ),
        Err(refusal) => show_refused(stdout, refusal),
    }
}

// ---- the documents

fn show_document(stdout: Stdout, document: &[u8]) {
    show_at_once(stdout, document);
    show_in_chunks(stdout, document);
}

// Reads until the buffer is full, the input ends or a read fails; how many bytes came.
fn read_full(stdin: Stdin, buf: &mut [u8]) -> usize
    ensures { result ≤ length buf.old }
{
    let mut input = stdin;
    let mut done = 0;
    while done < buf.len() {
        match input.read(&mut buf[done..]) {
            Ok(n) => {
                if n == 0 {
                    return done;
                }
                done += n;
            }
            Err(_) => {
                return done;
            }
        }
    }
    done
}

#[derive(Clone, Copy)]
struct Line {
    pub len: usize,
    pub next: usize,
}

// The value of a hex digit, and 0 for any other byte.
fn digit(c: u8) -> u8
    ensures { result < 16 }
{
    match c {
        b'0'..=b'9' => c - b'0',
        b'a'..=b'f' => c - b'a' + 10,
        _ => 0,
    }
}

// The bytes of the line that starts at a place, as many as there is room for, and where the next line starts.
fn line_at(s: &[u8], from: usize, document: &mut [u8]) -> Line
    requires { from < length s.now }
    ensures { (from < result.next) × (result.next ≤ length s.now) × (result.len ≤ length document.old) }
{
    let mut at = from;
    let mut len = 0;
    while at < s.len() {
        if s[at] == b'\n' {
            return Line { len, next: at + 1 };
        }
        if s[at] == b'=' {
            at += 1;
            continue;
        }
        if len == document.len() {
            at += 1;
            continue;
        }
        if at + 1 == s.len() {
            break;
        }
        document[len] = digit(s[at]) * 16 + digit(s[at + 1]);
        len += 1;
        at += 2;
    }
    Line { len, next: s.len() }
}

fn show_documents(stdout: Stdout, s: &[u8], document: &mut [u8]) {
    let mut at = 0;
    while at < s.len() {
        let line = line_at(s, at, document);
        let len = line.len;
        show_document(stdout, &document[..len]);
        at = line.next;
    }
}

fn main(rt: HostRuntime) {
    let mut buffer = [0u8; 65536];
    let n = read_full(rt.stdin(), &mut buffer);
    let mut document = [0u8; 4096];
    show_documents(rt.stdout(), &buffer[..n], &mut document);
}
