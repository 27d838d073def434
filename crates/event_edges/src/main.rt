// Runs the lookups and the accessor of `event` on the cases of its standard input, and prints a line for each. A case is a
// letter and decimal numbers:
//   s SOURCE START LENGTH   the span of two stores, `abcde` and `xyz`
//   t SOURCE START LENGTH   the same of the document `abcde` alone
//   v ROW and 16 words      the value of the attribute in that row
// The bytes of a part are shown in hex, `=` where it is empty; a value by its case and what it carries; a refusal by number
// and detail.
#![tactic(auto)]

ghost use Rattle.std.specs.Prelude.{◌≤◌, length};

use attribute_values::AttributeValue;
use event::stores::{Span, Stores};
use std::io;
use std::io::{Print, Read, Stdin, Stdout};
use wire::Refusal;

// ---- input

// Reads until the buffer is full, the input ends or a read fails; how many bytes came.
fn read_full(mut stdin: Stdin, buf: &mut [u8]) -> usize
    ensures { result ≤ length buf.old }
{
    let mut done = 0;
    while done < buf.len() {
        match stdin.read(&mut buf[done..]) {
            Ok(0) | Err(_) => break,
            Ok(n) => done += n,
        }
    }
    done
}

// The next decimal number, past what is no digit, and what follows it. A number too large for a u32 stops before the digit
// that is too much.
fn number(s: &[u8]) -> (u32, &[u8])
    ensures { length result.1.now ≤ length s.now }
{
    let start = s.iter().position(u8::is_ascii_digit).unwrap_or(s.len());
    let mut rest = &s[start..];
    let mut value: u32 = 0;
    while let Some((digit, after)) = rest.split_first() {
        if !digit.is_ascii_digit() {
            break;
        }
        let Some(more) = value
            .checked_mul(10)
            .and_then(|tens| tens.checked_add(u32::from(*digit - b'0')))
        else {
            break;
        };
        value = more;
        rest = after;
    }
    (value, rest)
}

fn span(s: &[u8]) -> (Span, &[u8])
    ensures { length result.1.now ≤ length s.now }
{
    let (source, s) = number(s);
    let (start, s) = number(s);
    let (len, s) = number(s);
    (Span { source, start, len }, s)
}

// ---- output: a write that fails is passed over, since the lines that come are compared with those wanted

fn show_bytes(stdout: Stdout, s: &[u8]) {
    if s.is_empty() {
        let _ = stdout.write_all(b"=");
    }
    for byte in s {
        let _ = print!(stdout; "{byte:02x}");
    }
    let _ = stdout.write_all(b"\n");
}

fn show_span(stdout: Stdout, name: &str, at: Span) -> io::Result<()> {
    println!(stdout; "{name} {} {} {}", at.source, at.start, at.len)
}

// A signed number that no case of `stdin` has is `another`: what the program prints does not change.
fn show_value(stdout: Stdout, value: AttributeValue) -> io::Result<()> {
    match value {
        AttributeValue::Null => println!(stdout; "Null"),
        AttributeValue::String(at) => show_span(stdout, "String", at),
        AttributeValue::BytesHex(at) => show_span(stdout, "BytesHex", at),
        AttributeValue::BytesBase64(at) => show_span(stdout, "BytesBase64", at),
        AttributeValue::Int(v) => match v {
            7 | 9 | -1 | i32::MIN | i32::MAX => println!(stdout; "Int {v}"),
            _ => println!(stdout; "Int another"),
        },
        AttributeValue::IntHex(v) => println!(stdout; "IntHex {v:08x}"),
        AttributeValue::Long(v) => match v {
            0x1_0000_0000 | -1 | i64::MIN | i64::MAX => println!(stdout; "Long {v}"),
            _ => println!(stdout; "Long another"),
        },
        AttributeValue::LongHex(v) => println!(stdout; "LongHex {v:016x}"),
        AttributeValue::Float(v) => println!(stdout; "Float {v:08x}"),
        AttributeValue::Double(v) => println!(stdout; "Double {v:016x}"),
        AttributeValue::Boolean(v) => println!(stdout; "Boolean {v}"),
    }
}

fn show_refusal(stdout: Stdout, refusal: Refusal) -> io::Result<()> {
    println!(stdout; "refused {} {}", refusal.number(), refusal.detail())
}

// ---- cases: each answers with what follows it

fn span_case(stdout: Stdout, s: &[u8]) -> &[u8]
    ensures { length result.now ≤ length s.now }
{
    let stores = Stores {
        first: b"abcde",
        second: b"xyz",
    };
    let (at, rest) = span(s);
    show_bytes(stdout, stores.span(at));
    rest
}

fn text_case(stdout: Stdout, s: &[u8]) -> &[u8]
    ensures { length result.now ≤ length s.now }
{
    let (at, rest) = span(s);
    show_bytes(stdout, event::text(b"abcde", at.source, at.start, at.len));
    rest
}

fn value_case(stdout: Stdout, s: &[u8]) -> &[u8]
    ensures { length result.now ≤ length s.now }
{
    let (row, mut rest) = number(s);
    let mut rows = [0u32; 16];
    for word in &mut rows {
        let (value, after) = number(rest);
        *word = value;
        rest = after;
    }
    let _ = match attribute_values::attribute_value(&rows, row as usize) {
        Ok(value) => show_value(stdout, value),
        Err(refusal) => show_refusal(stdout, refusal),
    };
    rest
}

// What the letter asks for; nothing for any other byte.
fn run_case(stdout: Stdout, letter: u8, s: &[u8]) -> &[u8]
    ensures { length result.now ≤ length s.now }
{
    match letter {
        b's' => span_case(stdout, s),
        b't' => text_case(stdout, s),
        b'v' => value_case(stdout, s),
        _ => s,
    }
}

fn run_cases(stdout: Stdout, s: &[u8]) {
    let mut rest = s;
    while let Some((letter, after)) = rest.split_first() {
        rest = run_case(stdout, *letter, after);
    }
}

fn main(rt: HostRuntime) {
    let mut buffer = [0u8; 65536];
    let n = read_full(rt.stdin(), &mut buffer);
    run_cases(rt.stdout(), &buffer[..n]);
}
