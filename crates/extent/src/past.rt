// How far an attribute's value and an event's own row go, and the name in them; and how an event ends where one can't be read.
ghost use Rattle.std.specs.Prelude.{◌≡◌, ◌*◌, ◌+◌, ◌≤◌, ◌<◌, length, get_or, ◌-◌, IfOk, IfErr};
ghost use Rattle.wire.specs.Token.{built_in, command};
ghost use Rattle.wire.specs.declared.Refusal.TheVariants.{UnexpectedEof};
ghost use Rattle.grammar.specs.Grammar.{Item, value, first};
ghost use Rattle.grammar.specs.Scan.{outcome};
ghost use Rattle.extent.specs.Answers.{unread_of, named_of, sound_of, outcome_of};
ghost use Rattle.extent.specs.Past.{mapped, name_in, name_of_row, ends};

use crate::fields;
use crate::fields::Name;
use crate::pool::Pool;
use event::Shape;
use wire::{Command, Refusal, Type};

// The place after a number of so many bytes.
fn past_number(s: &[u8], at: usize, count: usize) -> Result<usize, Refusal>
    requires { at ≤ length s.now }
    ensures ok { IfOk result (λ next. (next ≡ at + count) × (count ≤ length s.now - at)) }
    ensures err { IfErr result (λ r. (r ≡ UnexpectedEof) × (length s.now - at < count)) }
{
    if s.len() - at < count {
        return Err(Refusal::UnexpectedEof);
    }
    Ok(at + count)
}

// The value of an attribute of this type: its name, if it is an interned string, and the place after it.
#[tactic(auto, using(std::proofs::lemmas::Bool::Decides::nat_tests), unfolding(grammar::specs::Grammar::value, grammar::specs::Grammar::shaped, grammar::specs::Grammar::u32, grammar::specs::Grammar::u64))]
pub(crate) fn value_at(
    s: &[u8],
    at: usize,
    type_: u32,
    pool: &Pool,
    names: usize,
) -> Result<(Option<Name>, usize), Refusal>
    requires at_in_bounds { at ≤ length s.now }
    requires type_bound { type_ < 256 }
    ensures { named_of result ≡ mapped name_in (value (sound_of pool.now) names type_ s.now at) }
{
    match event::shape_of(type_) {
        Shape::Nothing => Ok((None, at)),
        Shape::String => {
            let (_, next) = fields::string_at(s, at)?;
            Ok((None, next))
        }
        Shape::Interned => {
            let (name, next) = fields::name_at(s, at, pool, names)?;
            Ok((Some(name), next))
        }
        Shape::Blob => {
            let (_, next) = fields::blob_at(s, at)?;
            Ok((None, next))
        }
        Shape::Word => Ok((None, past_number(s, at, 4)?)),
        Shape::Pair => Ok((None, past_number(s, at, 8)?)),
        Shape::Unknown => Err(Refusal::UnknownAttributeType(type_ * 16)),
    }
}

// The event's own row, of this kind: its name, if it has one, and the place after it.
pub(crate) fn own_at(
    s: &[u8],
    kind: u32,
    tokens: &[u16; 256],
    pool: &Pool,
    names: usize,
) -> Result<(Option<Name>, usize), Refusal>
    requires s_nonzero { (0 < length s.now) × (kind ≡ command (get_or s.now 0 0)) }
    requires tokens_value { tokens.now ≡ built_in }
    ensures { named_of result ≡ mapped name_of_row (first (sound_of pool.now) names s.now 0) }
{
    if kind < Command::START_TAG {
        return Ok((None, 1));
    }
    if kind < Command::TEXT {
        let (name, next) = fields::name_at(s, 1, pool, names)?;
        return Ok((Some(name), next));
    }
    if Command::DOC_DECL < kind {
        return Err(Refusal::UnknownCommand(kind));
    }
    if Type::new(tokens, s[0]).number() == Type::STRING {
        let (_, next) = fields::string_at(s, 1)?;
        return Ok((None, next));
    }
    Ok((None, 1))
}

// A refusal that says the input ends inside what is read: incomplete while more may come.
#[tactic(auto, unfolding(grammar::specs::Scan::outcome))]
pub(crate) fn ended(finished: bool, refusal: Refusal) -> Result<Option<usize>, Refusal>
    ensures { outcome_of result ≡ outcome finished (ends (unread_of {A = Item} refusal)) }
{
    match refusal {
        Refusal::UnexpectedEof | Refusal::StringShort | Refusal::BytesShort => {
            if finished { Err(refusal) } else { Ok(None) }
        }
        _ => Err(refusal),
    }
}
