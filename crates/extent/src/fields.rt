// Readers of the wire's fields: lengths, strings, names. A place is counted from the event's first byte, where the slice starts.
ghost use Rattle.std.specs.Prelude.{◌≡◌, ◌*◌, ◌≤◌, length, IfOk};
ghost use Rattle.grammar.specs.Grammar.{u16, string, blob, name};
ghost use Rattle.grammar.specs.Names.{new_name};
ghost use Rattle.extent.specs.Answers.{number_of, text_of, name_of, sound_of};

use crate::pool::Pool;
use wire::Refusal;

// A part of the input.
#[derive(Clone, Copy)]
pub struct Span {
    pub start: usize,
    pub len: usize,
}

// A name, or an interned string: new bytes of the input, or an entry of the pool.
#[derive(Clone, Copy)]
pub enum Name {
    New(Span),
    Known(u32),
}

// Each reader gives a value and the place after it.
#[tactic(auto, using(std::proofs::lemmas::Bool::Decides::nat_tests), unfolding(grammar::specs::Grammar::u16))]
fn u16_at(s: &[u8], at: usize) -> Result<(u32, usize), Refusal>
    requires { at ≤ length s.now }
    ensures value { number_of result ≡ u16 s.now at }
    ensures bound { IfOk result (λ p. p.1 ≤ length s.now) }
{
    if s.len() - at < 2 {
        return Err(Refusal::UnexpectedEof);
    }
    let value = u16::from_be_bytes([s[at], s[at + 1]]) as u32;
    Ok((value, at + 2))
}

#[tactic(auto, using(std::proofs::lemmas::Bool::Decides::nat_tests), unfolding(grammar::specs::Grammar::string, grammar::specs::Grammar::utf8))]
pub(crate) fn string_at(s: &[u8], at: usize) -> Result<(Span, usize), Refusal>
    requires { at ≤ length s.now }
    ensures { text_of result ≡ string s.now at }
{
    let (value, start) = u16_at(s, at)?;
    let len = value as usize;
    if s.len() - start < len {
        return Err(Refusal::StringShort);
    }
    let end = start + len;
    if utf8::is_utf8(&s[start..end]) {
        return Ok((Span { start, len }, end));
    }
    Err(Refusal::InvalidUtf8)
}

// A blob: bytes of any kind.
#[tactic(auto, using(std::proofs::lemmas::Bool::Decides::nat_tests), unfolding(grammar::specs::Grammar::blob, grammar::specs::Grammar::raw))]
pub(crate) fn blob_at(s: &[u8], at: usize) -> Result<(Span, usize), Refusal>
    requires { at ≤ length s.now }
    ensures { text_of result ≡ blob s.now at }
{
    let (value, start) = u16_at(s, at)?;
    let len = value as usize;
    if s.len() - start < len {
        return Err(Refusal::BytesShort);
    }
    Ok((Span { start, len }, start + len))
}

// Whether the span of entry i lies in its store.
#[tactic(auto, using(std::proofs::lemmas::Bool::Decides::nat_tests), unfolding(grammar::specs::Scan::sound))]
fn is_sound(pool: &Pool, i: usize) -> bool
    ensures { result ≡ sound_of pool.now i }
{
    let kept = pool.kept;
    if i < kept {
        let start = pool.table[2 * i] as usize;
        let len = pool.table[2 * i + 1] as usize;
        return start + len <= pool.stored;
    }
    true
}

// A name, or an interned string: a new string, or the index of an entry of the pool, which has so many names with those that are new in
// this event.
#[tactic(auto, using(std::proofs::lemmas::Bool::Decides::nat_tests), unfolding(grammar::specs::Grammar::name, grammar::specs::Names::new_name))]
pub(crate) fn name_at(
    s: &[u8],
    at: usize,
    pool: &Pool,
    names: usize,
) -> Result<(Name, usize), Refusal>
    requires { at ≤ length s.now }
    ensures { name_of result ≡ name (sound_of pool.now) names s.now at }
{
    let (index, next) = u16_at(s, at)?;
    if index == wire::INTERNED_NEW {
        return new_name_at(s, next);
    }
    if names <= index as usize {
        return Err(Refusal::BadInternedIndex(index));
    }
    if is_sound(pool, index as usize) {
        return Ok((Name::Known(index), next));
    }
    Err(Refusal::BadState)
}

// The string of a new name.
#[tactic(auto, using(std::proofs::lemmas::Bool::Decides::nat_tests), unfolding(grammar::specs::Names::new_name))]
fn new_name_at(s: &[u8], at: usize) -> Result<(Name, usize), Refusal>
    requires { at ≤ length s.now }
    ensures { name_of result ≡ new_name s.now at }
{
    let (text, next) = string_at(s, at)?;
    Ok((Name::New(text), next))
}
