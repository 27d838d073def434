// Lists the ABX document that comes on standard input: a line for each row, then `end` and the number of events, or `refused`
// with number and detail. It reads by the chunk reader, so the document may be of any length.
#![tactic(auto)]

ghost use Rattle.std.specs.Prelude.{◌≤◌, length, IfOk};

use std::io::{Print, Stdin, Stdout};
use std::{fmt, io};
use stream::Stream;
use stream_read::ReadError;
use wire::Refusal;

// Why a listing has no last line. It is told on standard error.
#[derive(Clone, Copy, Debug, PartialEq, Eq)]
pub enum Stopped {
    Unwritten,
    Unread,
}

impl fmt::Display for Stopped {
    fn fmt<W: fmt::Write>(&self, f: &mut fmt::Formatter<W>) -> fmt::Result {
        match self {
            Stopped::Unwritten => write!(f, "abx_list: standard output can't be written"),
            Stopped::Unread => write!(f, "abx_list: standard input can't be read"),
        }
    }
}

impl From<io::Error> for Stopped {
    fn from(_error: io::Error) -> Stopped {
        Stopped::Unwritten
    }
}

// A line that the buffer has no room for is not written either.
impl From<Refusal> for Stopped {
    fn from(_refusal: Refusal) -> Stopped {
        Stopped::Unwritten
    }
}

// ---- lines

// A row's line as the buffer's first.
fn show_first<'a>(
    first: &'a [u8],
    second: &'a [u8],
    rows: &[u32],
    row: usize,
    out: &mut [u8],
) -> Result<usize, Stopped>
    ensures { IfOk result (λ end. end ≤ length out.old) }
{
    Ok(listing::line(first, second, rows, row, out)?)
}

// A row's line behind the bytes that wait; these are written first where it does not fit behind them. How many wait then.
fn show_row<'a>(
    output: Stdout,
    first: &'a [u8],
    second: &'a [u8],
    rows: &[u32],
    row: usize,
    out: &mut [u8],
    at: usize,
) -> Result<usize, Stopped>
    requires { at ≤ length out.old }
    ensures { IfOk result (λ end. end ≤ length out.old) }
{
    if let Ok(len) = listing::line(first, second, rows, row, &mut out[at..]) {
        return Ok(at + len);
    }
    output.write_all(&out[..at])?;
    show_first(first, second, rows, row, out)
}

// The lines of an event's rows.
fn show_event<'a>(
    output: Stdout,
    first: &'a [u8],
    second: &'a [u8],
    rows: &[u32],
    out: &mut [u8],
    start: usize,
) -> Result<usize, Stopped>
    requires { start ≤ length out.old }
    ensures { IfOk result (λ end. end ≤ length out.old) }
{
    let mut at = start;
    for row in 0..rows.len() / 8 {
        at = show_row(output, first, second, rows, row, out, at)?;
    }
    Ok(at)
}

// The last line, by the number of events, or why there are no more.
fn last_line(events: Result<usize, ReadError>, out: &mut [u8]) -> Result<usize, Stopped>
    ensures { IfOk result (λ end. end ≤ length out.old) }
{
    match events {
        Ok(events) => Ok(listing::end_line(events, out)?),
        Err(ReadError::Refused(refusal)) => Ok(listing::refused_line(refusal, out)?),
        Err(ReadError::Failed) => Err(Stopped::Unread),
    }
}

// ---- the document

// How many bytes of lines wait to be written, and the number of events, or why there are no more.
#[derive(Clone, Copy)]
pub struct Listed {
    pub at: usize,
    pub events: Result<usize, ReadError>,
}

// Event by event. The turns do not run out: each takes a byte of the input.
fn list_events(
    input: &mut Stdin,
    output: Stdout,
    start: Stream,
    window: &mut [u8],
    table: &mut [u32],
    store: &mut [u8],
    rows: &mut [u32],
    out: &mut [u8],
) -> Result<Listed, Stopped>
    ensures { IfOk result (λ listed. listed.at ≤ length out.old) }
{
    let mut reader = start;
    let mut at = 0;
    for events in 0..usize::MAX {
        match stream_read::next_event(input, reader, window, table, store, rows) {
            Ok(None) => {
                return Ok(Listed {
                    at,
                    events: Ok(events),
                });
            }
            Ok(Some(event)) => {
                at = show_event(output, window, store, &rows[..8 * event.rows], out, at)?;
                reader = event.reader;
            }
            Err(error) => {
                return Ok(Listed {
                    at,
                    events: Err(error),
                });
            }
        }
    }
    Ok(Listed {
        at,
        events: Ok(usize::MAX),
    })
}

fn list(
    input: &mut Stdin,
    output: Stdout,
    window: &mut [u8],
    table: &mut [u32],
    store: &mut [u8],
    rows: &mut [u32],
    out: &mut [u8],
) -> Result<(), Stopped> {
    let listed = match stream::create(window, table, store) {
        Ok(start) => list_events(input, output, start, window, table, store, rows, out)?,
        Err(refusal) => Listed {
            at: 0,
            events: Err(ReadError::Refused(refusal)),
        },
    };
    output.write_all(&out[..listed.at])?;
    let len = last_line(listed.events, out)?;
    output.write_all(&out[..len])?;
    Ok(())
}

// The line buffer takes four digits for each byte of window and store, and a line's short columns.
fn main(rt: HostRuntime) {
    let mut input = rt.stdin();
    let mut window = [0u8; 65536];
    let mut table = [0u32; 16384];
    let mut store = [0u8; 65536];
    let mut rows = [0u32; 16384];
    let mut out = [0u8; 262208];
    let listed = list(
        &mut input,
        rt.stdout(),
        &mut window,
        &mut table,
        &mut store,
        &mut rows,
        &mut out,
    );
    // Where standard error takes nothing either, nobody is left to tell.
    if let Err(stopped) = listed {
        let _ = println!(rt.stderr(); "{stopped}");
    }
}
