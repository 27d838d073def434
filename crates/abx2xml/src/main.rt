// Prints an ABX document as XML: standard input, or the file that its one argument names. It reads by the chunk reader, so the document
// may be of any length. Nothing but XML goes to standard output; what goes wrong is told on standard error, after the text so far.
#![tactic(auto)]

ghost use Rattle.std.specs.Prelude.{◌≤◌, length, IfOk};

use std::env::FillError;
use std::fmt::Write;
use std::fs::File;
use std::io::{Print, Read, Stderr, Stdin, Stdout};
use std::rt::{Env, Files};
use std::{fmt, fs, io, str};
use stream_read::ReadError;
use wire::Refusal;

// Where the program writes, and what it reads where no file is named.
#[derive(Clone, Copy)]
pub struct Streams {
    pub input: Stdin,
    pub output: Stdout,
    pub errors: Stderr,
}

// ---- what is told on standard error

// Where standard error takes nothing either, nobody is left to tell.
fn tell(errors: Stderr, words: &[u8]) {
    let _ = errors.write_all(words);
}

// Why the printing stopped.
#[derive(Clone, Copy, Debug, PartialEq, Eq)]
pub enum Stopped {
    Refused(Refusal),
    Unwritten,
    UnreadInput,
    UnreadFile,
}

// What a refusal says. The limits of 10, 12 and 13 are those of the spaces in `print`.
fn meaning(refusal: Refusal) -> &'static str {
    match refusal {
        Refusal::HeaderShort => "the input ends inside the header, its first four bytes",
        Refusal::InvalidMagic(_) => {
            "this is no ABX file: it does not begin with ABX and a zero byte"
        }
        Refusal::UnexpectedEof => "the input ends inside a token, length, index or number",
        Refusal::StringShort => "the input ends inside a string",
        Refusal::BytesShort => "the input ends inside a blob",
        Refusal::BadInternedIndex(_) => "a name is given by an index that no name has",
        Refusal::InvalidUtf8 => "a string is not well-formed UTF-8",
        Refusal::UnknownAttributeType(_) => "an attribute is of an unknown type, told times 16",
        Refusal::UnknownCommand(_) => "an unknown command, or an attribute outside a start tag",
        Refusal::RowsFull => "an event has over 98,304 rows: a start tag and its attributes",
        Refusal::PoolFull => "there are over 65,535 names",
        Refusal::NamesFull => "all names together have over 1,048,576 bytes",
        Refusal::WindowFull => "an event has over 1,048,576 bytes",
        Refusal::ValueTooLong(_) => "a string or blob has over 65,535 bytes",
        Refusal::OutputFull => "a text is longer than the buffer for it",
        Refusal::NotRows => "an event's words form no rows",
        Refusal::BadSize => "a buffer has a length that no call takes",
        Refusal::AlreadyFinished => "more input after its end",
        Refusal::BadState => "the reader stands at a place outside its buffers",
        Refusal::IllegalChar => {
            "a name, text or value has a character that XML 1.0 does not allow"
        }
        _ => "a refusal that this program does not know",
    }
}

impl fmt::Display for Stopped {
    fn fmt<W: fmt::Write>(&self, f: &mut fmt::Formatter<W>) -> fmt::Result {
        match *self {
            Stopped::Refused(refusal) => {
                let number = refusal.number();
                let detail = refusal.detail();
                write!(f, "refused {} {}: {}", number, detail, meaning(refusal))
            }
            Stopped::Unwritten => write!(f, "standard output can't be written"),
            Stopped::UnreadInput => write!(f, "standard input can't be read"),
            Stopped::UnreadFile => write!(f, "the file can't be read"),
        }
    }
}

impl From<Refusal> for Stopped {
    fn from(refusal: Refusal) -> Stopped {
        Stopped::Refused(refusal)
    }
}

impl From<io::Error> for Stopped {
    fn from(_error: io::Error) -> Stopped {
        Stopped::Unwritten
    }
}

// ---- what is read

#[derive(Drop)]
pub enum Origin {
    Input(Stdin),
    File(File),
}

impl Read for Origin {
    fn read(&mut self, buf: &mut [u8]) -> io::Result<usize> {
        match self {
            Origin::Input(stdin) => stdin.read(buf),
            Origin::File(file) => file.read(buf),
        }
    }
}

impl Origin {
    // Why no event came.
    fn stopped(&self, error: ReadError) -> Stopped {
        match error {
            ReadError::Refused(refusal) => Stopped::Refused(refusal),
            ReadError::Failed => match self {
                Origin::Input(_) => Stopped::UnreadInput,
                Origin::File(_) => Stopped::UnreadFile,
            },
        }
    }
}

// ---- output

// A row's text as the buffer's first.
fn show_row_first<'a>(
    first: &'a [u8],
    second: &'a [u8],
    rows: &[u32],
    row: usize,
    out: &mut [u8],
) -> Result<usize, Stopped>
    ensures { IfOk result (λ end. end ≤ length out.old) }
{
    Ok(xml::row_to_xml(first, second, rows, row, out)?)
}

// A row's text behind the bytes that wait; these are written first where it does not fit behind them. How many wait then.
fn show_row<'a>(
    output: Stdout,
    first: &'a [u8],
    second: &'a [u8],
    rows: &[u32],
    row: usize,
    out: &mut [u8],
    at: usize,
) -> Result<usize, Stopped>
    requires { at ≤ length out.old }
    ensures { IfOk result (λ end. end ≤ length out.old) }
{
    if let Ok(len) = xml::row_to_xml(first, second, rows, row, &mut out[at..]) {
        return Ok(at + len);
    }
    output.write_all(&out[..at])?;
    show_row_first(first, second, rows, row, out)
}

// An event whose text is longer than the buffer, row by row.
fn show_rows<'a>(
    output: Stdout,
    first: &'a [u8],
    second: &'a [u8],
    rows: &[u32],
    out: &mut [u8],
) -> Result<usize, Stopped>
    ensures { IfOk result (λ end. end ≤ length out.old) }
{
    let mut at = 0;
    for row in 0..rows.len() / 8 {
        at = show_row(output, first, second, rows, row, out, at)?;
    }
    Ok(at)
}

// An event's text as the buffer's first. Where it is refused for its length alone, nothing else is wrong with it.
fn show_first<'a>(
    output: Stdout,
    first: &'a [u8],
    second: &'a [u8],
    rows: &[u32],
    out: &mut [u8],
) -> Result<usize, Stopped>
    ensures { IfOk result (λ end. end ≤ length out.old) }
{
    match xml::to_xml(first, second, rows, out) {
        Ok(len) => Ok(len),
        Err(Refusal::OutputFull) => show_rows(output, first, second, rows, out),
        Err(refusal) => Err(Stopped::Refused(refusal)),
    }
}

// An event's text behind the bytes that wait; these are written first where it does not fit behind them, or is refused.
fn show<'a>(
    output: Stdout,
    first: &'a [u8],
    second: &'a [u8],
    rows: &[u32],
    out: &mut [u8],
    at: usize,
) -> Result<usize, Stopped>
    requires { at ≤ length out.old }
    ensures { IfOk result (λ end. end ≤ length out.old) }
{
    match xml::to_xml(first, second, rows, &mut out[at..]) {
        Ok(len) => Ok(at + len),
        Err(Refusal::OutputFull) => {
            output.write_all(&out[..at])?;
            show_first(output, first, second, rows, out)
        }
        Err(refusal) => {
            output.write_all(&out[..at])?;
            Err(Stopped::Refused(refusal))
        }
    }
}

// ---- the document

// Event by event. The turns do not run out: each takes a byte of the input.
fn print_by(
    output: Stdout,
    origin: &mut Origin,
    window: &mut [u8],
    table: &mut [u32],
    store: &mut [u8],
    rows: &mut [u32],
    out: &mut [u8],
) -> Result<(), Stopped> {
    let mut reader = stream::create(window, table, store)?;
    let mut at = 0;
    for _ in 0..u64::MAX {
        match stream_read::next_event(origin, reader, window, table, store, rows) {
            Ok(Some(event)) => {
                at = show(output, window, store, &rows[..8 * event.rows], out, at)?;
                reader = event.reader;
            }
            Ok(None) => {
                output.write_all(&out[..at])?;
                return Ok(());
            }
            Err(error) => {
                output.write_all(&out[..at])?;
                return Err(origin.stopped(error));
            }
        }
    }
    Ok(())
}

// The longest window, a table for all names that can be, and as many names' bytes and rows as leave the stack, which has 8 MiB, a
// fourth of it. The text of one row fits the buffer: at most 6 bytes for each of a value's, a name, and 16 bytes more.
fn print(output: Stdout, mut origin: Origin) -> Result<(), Stopped> {
    let mut window = [0u8; 1048576];
    let mut table = [0u32; 131070];
    let mut store = [0u8; 1048576];
    let mut rows = [0u32; 786432];
    let mut out = [0u8; 524288];
    print_by(
        output,
        &mut origin,
        &mut window,
        &mut table,
        &mut store,
        &mut rows,
        &mut out,
    )
}

// ---- arguments

// An error's text, as far as there is room. Its length stands beside the bytes, since the program has fixed memory and no heap.
#[derive(Drop)]
pub struct Words {
    pub bytes: [u8; 256],
    pub len: usize,
}

impl Write for Words {
    fn write_str(&mut self, s: &str) -> fmt::Result {
        for b in s.as_bytes() {
            if self.len < 256 {
                self.bytes[self.len] = *b;
                self.len += 1;
            }
        }
        Ok(())
    }
}

// How much of an error's text comes before its number, which the library adds.
fn without_number(words: &Words) -> usize
    ensures { result ≤ 256 }
{
    for i in 0..256 {
        if i == words.len || words.bytes[i..].starts_with(b" (os error ") {
            return i;
        }
    }
    256
}

// Why a file can't be opened, in the system's words.
fn tell_open_error(errors: Stderr, name: &[u8], error: io::Error) {
    let mut words = Words {
        bytes: [0u8; 256],
        len: 0,
    };
    let _ = write!(words, "{error}");
    let len = without_number(&words);
    tell(errors, b"abx2xml: ");
    tell(errors, name);
    tell(errors, b": ");
    tell(errors, &words.bytes[..len]);
    tell(errors, b"\n");
}

// The file of a name; or nothing, with the reason told.
fn open_named<R: Files<File = File>>(rt: &R, streams: Streams, name: &[u8]) -> Option<Origin> {
    if name == b"-".as_slice() {
        return Some(Origin::Input(streams.input));
    }
    match str::from_utf8(name) {
        Ok(path) => match fs::open(rt, path) {
            Ok(file) => Some(Origin::File(file)),
            Err(error) => {
                tell_open_error(streams.errors, name, error);
                None
            }
        },
        Err(_) => {
            tell(
                streams.errors,
                b"abx2xml: the file's name: not well-formed UTF-8\n",
            );
            None
        }
    }
}

// Whether there is an argument of that number.
fn has_argument<R: Env>(rt: &R, i: usize) -> bool {
    let mut space = [0u8; 1];
    !matches!(rt.arg(i, &mut space), Err(FillError::NotPresent))
}

fn open_argument<R: Files<File = File> + Env>(rt: &R, streams: Streams) -> Option<Origin> {
    let mut space = [0u8; 4096];
    match rt.arg(1, &mut space) {
        Ok(len) => open_named(rt, streams, &space[..len]),
        Err(FillError::TooLong) => {
            tell(
                streams.errors,
                b"abx2xml: the file's name: File name too long\n",
            );
            None
        }
        Err(FillError::NotPresent) => Some(Origin::Input(streams.input)),
    }
}

// What is to be read; or nothing, with the reason told.
fn source<R: Files<File = File> + Env>(rt: &R, streams: Streams) -> Option<Origin> {
    if has_argument(rt, 2) {
        tell(
            streams.errors,
            b"usage: abx2xml [FILE]\nPrints the ABX of FILE as XML. With no FILE, or where it is -, standard input is read.\n",
        );
        return None;
    }
    open_argument(rt, streams)
}

fn main(rt: HostRuntime) {
    let streams = Streams {
        input: rt.stdin(),
        output: rt.stdout(),
        errors: rt.stderr(),
    };
    if let Some(origin) = source(&rt, streams) {
        if let Err(stopped) = print(streams.output, origin) {
            let _ = println!(streams.errors; "abx2xml: {stopped}");
        }
    }
}
