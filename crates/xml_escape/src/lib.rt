// Strings with the five characters escaped that XML keeps for itself.
#![tactic(auto)]

ghost use Rattle.std.specs.Prelude.{◌≡◌, [], ◌∷◌, ◌≤◌, length};
ghost use Rattle.text.specs.Put.{after, Put};
ghost use Rattle.xml_spec.specs.Xml.{escaped, escape};
ghost use Rattle.xml_escape.specs.Extra.{extra, extras, plain, Bare};

// How many bytes an octet takes over its own.
fn extra(b: u8) -> u8
    ensures { result ≡ extra b }
{
    let angle: u8 = if (b == b'<') | (b == b'>') { 3 } else { 0 };
    let quote: u8 = if (b == b'"') | (b == b'\'') { 5 } else { 0 };
    let ampersand: u8 = if b == b'&' { 4 } else { 0 };
    angle + quote + ampersand
}

// How many bytes at most 48 octets take over their own.
fn extra_in(s: &[u8]) -> u8
    requires { length s.now ≤ 48 }
    ensures { result ≡ extras s.now }
{
    let mut sum = 0;
    for b in s {
        sum += extra(*b);
    }
    sum
}

// ---- the end, block by block

fn mixed_end(s: &[u8], limit: usize, at: usize) -> usize
    ensures { result ≡ after limit at (length (escape s.now)) }
{
    let mut place = text::after(limit, at, s.len());
    let mut i = 0;
    while s.len() - i >= 48 {
        place = text::after(limit, place, extra_in(&s[i..i + 48]) as usize);
        i += 48;
    }
    text::after(limit, place, extra_in(&s[i..]) as usize)
}

// ---- the text, block by block

// Past the blocks of 48 octets that stand from i on and of which none is escaped. They are counted, and not tested one by one by
// `octets::past`, since that made no vector code: 2.5 times slower where one octet in a hundred is escaped.
fn skip_bare(s: &[u8], i: usize) -> usize
    requires { i ≤ length s.now }
    ensures { Bare s.now i result }
{
    let mut k = i;
    while s.len() - k >= 48 && extra_in(&s[k..k + 48]) == 0 {
        k += 48;
    }
    k
}

// The bytes of an escaped octet.
#[tactic(auto, unfolding(xml_spec::specs::Xml::escaped))]
fn put_octet(b: u8, out: &mut [u8], at: usize) -> usize
    ensures { Put out.old at (escaped b) out.new result }
{
    match b {
        b'<' => text::put(b"&lt;", out, at),
        b'>' => text::put(b"&gt;", out, at),
        b'&' => text::put(b"&amp;", out, at),
        b'"' => text::put(b"&quot;", out, at),
        b'\'' => text::put(b"&apos;", out, at),
        _ => text::put_byte(b, out, at),
    }
}

// The same of a few octets, one by one.
fn put_octets(s: &[u8], out: &mut [u8], at: usize) -> usize
    ensures { Put out.old at (escape s.now) out.new result }
{
    let mut place = text::after(out.len(), at, 0);
    for b in s {
        place = put_octet(*b, out, place);
    }
    place
}

// Blocks of 48 octets that have none to escape are copied together.
fn put_mixed(s: &[u8], out: &mut [u8], at: usize) -> usize
    ensures { Put out.old at (escape s.now) out.new result }
{
    let mut place = text::after(out.len(), at, 0);
    let mut i = 0;
    while s.len() - i >= 48 {
        let end = skip_bare(s, i);
        if i < end {
            place = text::put(&s[i..end], out, place);
            i = end;
        } else {
            place = put_octets(&s[i..i + 48], out, place);
            i += 48;
        }
    }
    if extra_in(&s[i..]) == 0 {
        return text::put(&s[i..], out, place);
    }
    put_octets(&s[i..], out, place)
}

// Whether an octet is one of the many that are not escaped: a quick look at a short string, which mostly has no other. The tests are
// few, so that the compiler looks at a block at once.
struct Plain;

impl octets::Test for Plain {
    ghost passed = { plain };

    fn passes(b: u8) -> bool {
        ((0x28 <= b) | (b == b' ')) & (b != b'<') & (b != b'>')
    }
}

// ---- the string. Parts from 0 on are passed: the string itself would be stored at the start, and waited for.

// The place after a string with its characters escaped, or the limit where that is past it.
pub fn escaped_end(s: &[u8], limit: usize, at: usize) -> usize
    ensures { result ≡ after limit at (length (escape s.now)) }
{
    if octets::all_pass_test::<Plain>(&s[0..]) {
        return text::after(limit, at, s.len());
    }
    mixed_end(&s[0..], limit, at)
}

// Puts a string with its characters escaped.
pub fn put_escaped(s: &[u8], out: &mut [u8], at: usize) -> usize
    ensures { Put out.old at (escape s.now) out.new result }
{
    if octets::all_pass_test::<Plain>(&s[0..]) {
        return text::put(&s[0..], out, at);
    }
    put_mixed(&s[0..], out, at)
}
