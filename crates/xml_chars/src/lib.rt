// What is wrong with a string of XML: it is not well-formed UTF-8, or has a character outside the Char production.
#![tactic(auto)]

ghost use Rattle.std.specs.Prelude.{true, not, ◌≡◌, ◌⊎◌, ◌+◌, ◌≤◌, ◌<◌, length, drop, IfErr};
ghost use Rattle.wire.specs.declared.Refusal.TheVariants.{InvalidUtf8, IllegalChar};
ghost use Rattle.xml_spec.specs.Rows.{string_fault};
ghost use Rattle.xml_chars.specs.Scan.{control, noncharacter, illegal, clean};
ghost use Rattle.xml_chars.specs.Reading.{printable, illegal_at, IsAnyIllegal};
ghost use Rattle.xml_chars.specs.Answers.{fault_of};

use wire::Refusal;

// Printable ASCII or DEL, which most strings are.
struct Printable;

impl octets::Test for Printable {
    ghost passed = { printable };

    fn passes(b: u8) -> bool {
        (0x20 <= b) & (b < 0x80)
    }
}

// ---- illegal characters of well-formed strings: C0 controls but tab, line feed and carriage return, U+FFFE and U+FFFF

fn is_control(b: u8) -> bool
    ensures { result ≡ control b }
{
    (b < 0x20) & (b != 9) & (b != 10) & (b != 13)
}

// Whether U+FFFE or U+FFFF are the octets a, b and c.
fn is_noncharacter(a: u8, b: u8, c: u8) -> bool
    ensures { result ≡ noncharacter a b c }
{
    (a == 0xEF) & (b == 0xBF) & (0xBE <= c)
}

// Whether an illegal character begins with the octets a, b and c.
fn is_illegal(a: u8, b: u8, c: u8) -> bool
    ensures { result ≡ illegal a b c }
{
    is_control(a) | is_noncharacter(a, b, c)
}

// Whether one begins at one of the n places from i on. None ends the look, so that many are looked at at once.
fn illegal_in(s: &[u8], i: usize, n: usize) -> bool
    requires { i + n + 2 ≤ length s.now }
    ensures { IsAnyIllegal s.now i (i + n) result }
{
    let mut any = false;
    for k in i..i + n {
        any |= is_illegal(s[k], s[k + 1], s[k + 2]);
    }
    any
}

// Whether one begins at a place, which may be near the end.
fn illegal_at(s: &[u8], i: usize) -> bool
    requires { i < length s.now }
    ensures { result ≡ illegal_at s.now i }
{
    is_control(s[i]) || s.len() - i >= 3 && is_noncharacter(s[i], s[i + 1], s[i + 2])
}

// Whether one begins anywhere, by blocks of 128 places.
fn has_illegal(s: &[u8]) -> bool
    ensures { result ≡ not (clean s.now) }
{
    let mut i = 0;
    while s.len() - i >= 130 {
        if illegal_in(s, i, 128) {
            return true;
        }
        i += 128;
    }
    for k in i..s.len() {
        if illegal_at(s, k) {
            return true;
        }
    }
    false
}

// What is wrong with a string: refusal 7, or 20. Parts from 0 on are passed to what is seldom called: the string itself would be
// stored at the start, and waited for.
pub fn fault(s: &[u8]) -> Result<(), Refusal>
    ensures fault { fault_of result ≡ string_fault s.now }
    ensures refusal { IfErr result (λ r. (r ≡ InvalidUtf8) ⊎ (r ≡ IllegalChar)) }
{
    if octets::all_pass_test::<Printable>(s) {
        return Ok(());
    }
    if !utf8::is_utf8(&s[0..]) {
        return Err(Refusal::InvalidUtf8);
    }
    if has_illegal(&s[0..]) {
        return Err(Refusal::IllegalChar);
    }
    Ok(())
}
