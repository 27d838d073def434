// Numbers and bytes as text, in ASCII, put into an output from a place on as far as there is room. What is put is followed by
// the place after it, so that text after text needs no look at the room.
#![tactic(auto)]

ghost use Rattle.std.specs.Prelude.{[], ◌∷◌, ◌≡◌, ◌+◌, ◌*◌, ◌≤◌, ◌<◌, min, length, drop};
ghost use Rattle.std.proofs.lemmas.List.Edits.{sets};
ghost use Rattle.text.specs.Numerals.{digit, hex, numeral, letter, base64};
ghost use Rattle.text.specs.Put.{after, Put};
ghost use Rattle.wire.specs.Header.{be32};

// The place after so many bytes, or the limit where they pass it.
#[tactic(auto, unfolding(crate::specs::Put::after))]
pub fn after(limit: usize, at: usize, n: usize) -> usize
    ensures { result ≡ after limit at n }
{
    at.saturating_add(n).min(limit)
}

pub fn put(s: &[u8], out: &mut [u8], at: usize) -> usize
    ensures { Put out.old at s.now out.new result }
{
    byte_copy::copy(s, out, at);
    after(out.len(), at, s.len())
}

pub fn put_byte(b: u8, out: &mut [u8], at: usize) -> usize
    ensures { Put out.old at (b ∷ []) out.new result }
{
    if at < out.len() {
        out[at] = b;
        return at + 1;
    }
    out.len()
}

// The character of a digit, hex digits in lower case.
fn digit(d: u8) -> u8
    requires { d < 16 }
    ensures { result ≡ digit d }
{
    if d < 10 {
        return b'0' + d;
    }
    b'a' - 10 + d
}

// Two digits for each byte, which all have room.
fn put_pairs(s: &[u8], out: &mut [u8], at: usize)
    requires { at + 2 * length s.now ≤ length out.old }
    ensures { out.new ≡ sets out.old at (hex s.now) }
{
    for (i, b) in s.iter().enumerate() {
        out[at + 2 * i] = digit(*b / 16);
        out[at + 2 * i + 1] = digit(*b % 16);
    }
}

// Two digits for each byte. Where not all have room, the last to have it may be a byte's first.
pub fn put_hex(s: &[u8], out: &mut [u8], at: usize) -> usize
    ensures { Put out.old at (hex s.now) out.new result }
{
    if out.len() <= at {
        return out.len();
    }
    let n = s.len().min((out.len() - at) / 2);
    put_pairs(&s[..n], out, at);
    if n < s.len() {
        return put_byte(digit(s[n] / 16), out, at + 2 * n);
    }
    at + 2 * n
}

// ---- numbers

// A number's digits: the last of the bytes, from a start on. The fields stay: `decimal` and `hexadecimal` promise by their names.
#[derive(Clone, Copy)]
pub struct Numeral {
    pub bytes: [u8; 20],
    pub start: usize,
}

fn digits<const BASE: u64>(n: u64) -> Numeral
    requires { (10 ≤ BASE) × (BASE ≤ 16) }
    ensures { (drop result.start result.bytes ≡ numeral BASE n) × (result.start < 20) × (length result.bytes ≡ 20) }
{
    let mut bytes = [0u8; 20];
    let mut start: usize = 19;
    let mut left = n;
    while left >= BASE {
        bytes[start] = digit((left % BASE) as u8);
        left /= BASE;
        start -= 1;
    }
    bytes[start] = digit(left as u8);
    Numeral { bytes, start }
}

pub fn decimal(n: u64) -> Numeral
    ensures { (drop result.start result.bytes ≡ numeral 10 n) × (result.start < 20) × (length result.bytes ≡ 20) }
{
    digits::<10>(n)
}

pub fn hexadecimal(n: u64) -> Numeral
    ensures { (drop result.start result.bytes ≡ numeral 16 n) × (result.start < 20) × (length result.bytes ≡ 20) }
{
    digits::<16>(n)
}

// ---- base64

fn letter(d: u8) -> u8
    requires { d < 64 }
    ensures { result ≡ letter d }
{
    if d < 26 {
        return b'A' + d;
    }
    if d < 52 {
        return b'a' - 26 + d;
    }
    if d < 62 {
        return d - 4;
    }
    if d == 62 { b'+' } else { b'/' }
}

// Three bytes in four letters.
fn quad(a: u8, b: u8, c: u8) -> [u8; 4]
    ensures { result ≡ base64 (a ∷ b ∷ c ∷ []) }
{
    [
        letter(a / 4),
        letter(a % 4 * 16 + b / 16),
        letter(b % 16 * 4 + c / 64),
        letter(c % 64),
    ]
}

// The last one or two bytes, padded.
fn put_rest(s: &[u8], out: &mut [u8], at: usize) -> usize
    requires { length s.now < 3 }
    ensures { Put out.old at (base64 s.now) out.new result }
{
    match s {
        [a] => put(&[letter(*a / 4), letter(*a % 4 * 16), b'=', b'='], out, at),
        [a, b] => put(
            &[
                letter(*a / 4),
                letter(*a % 4 * 16 + *b / 16),
                letter(*b % 16 * 4),
                b'=',
            ],
            out,
            at,
        ),
        _ => after(out.len(), at, 0),
    }
}

// RFC 4648's base64, padded.
pub fn put_base64(s: &[u8], out: &mut [u8], at: usize) -> usize
    ensures { Put out.old at (base64 s.now) out.new result }
{
    let mut place = after(out.len(), at, 0);
    let mut rest = s;
    while let [a, b, c, tail @ ..] = rest {
        place = put(&quad(*a, *b, *c), out, place);
        rest = tail;
    }
    put_rest(rest, out, place)
}

// The bytes of a number on the wire.
#[tactic(auto, unfolding(wire::specs::Header::be32))]
pub fn word(b: u32) -> [u8; 4]
    ensures { result ≡ be32 b }
{
    b.to_be_bytes()
}
