// The first pass over an event: how many rows it has, how many names it adds to the pool and how many bytes these have, and whether it
// is complete. It writes nothing. Module fields has readers of the wire's fields, module past how far they go.
#![tactic(auto)]

mod fields;
mod past;
mod pool;

ghost use Rattle.std.specs.Prelude.{true, ◌≡◌, ◌*◌, ◌≤◌, ◌<◌, length, Err, IfOk, IfErr};
ghost use Rattle.wire.specs.Limits.{max_store};
ghost use Rattle.wire.specs.Token.{built_in};
ghost use Rattle.grammar.specs.Grammar.{counted_name, attribute, whole};
ghost use Rattle.grammar.specs.Scan.{adds_name, lengths, outcome, measure};
ghost use Rattle.extent.specs.Answers.{unread_of, ref_in, sound_of, attributes_of, event_of, outcome_of, measured_of};
ghost use Rattle.extent.specs.Past.{PassedItem};
ghost use Rattle.extent.specs.Tally.{NameSmall, Small, Bounded, Joins, plus};
ghost use Rattle.extent.specs.Measured.{unmeasured, measured};

use fields::Name;
use pool::Pool;
use wire::{Command, Refusal, Type, limits};

// So many rows, new names, and bytes of these; and how the reading ended: complete, with its length; incomplete, with none; or refused.
#[derive(Clone, Copy)]
pub struct Measured {
    pub rows: usize,
    pub added: usize,
    pub bytes: usize,
    pub outcome: Result<Option<usize>, Refusal>,
}

// What has been read of an event: how many names the pool has with its own so far, its rows, the names that join the pool, and their bytes.
#[derive(Clone, Copy)]
struct Tally {
    names: usize,
    rows: usize,
    added: usize,
    bytes: usize,
}

impl Tally {
    // With a name that was read: a new one joins the pool while there is room.
    #[tactic(auto, using(std::proofs::lemmas::Bool::Decides::nat_tests), unfolding(grammar::specs::Scan::adds_name, grammar::specs::Scan::adds_ref, grammar::specs::Scan::lengths, grammar::specs::Grammar::counted_name, grammar::specs::Grammar::counted, grammar::specs::Grammar::most))]
    fn with(self, name: Option<Name>) -> Tally
        requires small { Small self }
        requires name_small { NameSmall (ref_in name) }
        ensures { Joins (length (adds_name self.names (ref_in name))) (lengths (adds_name self.names (ref_in name))) (counted_name self.names (ref_in name)) self result }
    {
        let Some(read) = name else { return self };
        let Name::New(text) = read else { return self };
        let names = self.names;
        if names < wire::INTERNED_NEW as usize {
            return Tally {
                names: names + 1,
                added: self.added + 1,
                bytes: self.bytes + text.len,
                ..self
            };
        }
        self
    }
}

fn told(tally: Tally, outcome: Result<Option<usize>, Refusal>) -> Measured
    ensures { measured_of result ≡ record { rows = tally.rows; added = tally.added; bytes = tally.bytes; result = outcome_of outcome } }
{
    Measured {
        rows: tally.rows,
        added: tally.added,
        bytes: tally.bytes,
        outcome,
    }
}

// The input ends where a start tag may end: while more may come, an attribute may follow.
#[tactic(auto, unfolding(grammar::specs::Scan::outcome))]
fn at_edge(finished: bool, at: usize) -> Result<Option<usize>, Refusal>
    ensures { outcome_of result ≡ outcome finished (whole at true) }
{
    Ok(if finished { Some(at) } else { None })
}

// The tally with the attribute at a place, and the place after it.
fn attribute_at(
    s: &[u8],
    at: usize,
    tokens: &[u16; 256],
    pool: &Pool,
    tally: Tally,
) -> Result<(Tally, usize), Refusal>
    requires at_in_bounds { (at < length s.now) × (length s.now ≤ max_store) }
    requires tokens_value { tokens.now ≡ built_in }
    requires bounded { Bounded at tally }
    ensures ok { IfOk result (λ p. PassedItem (attribute (sound_of pool.now) tally.names s.now at) tally p.0 p.1) }
    ensures err { IfErr result (λ r. attribute (sound_of pool.now) tally.names s.now at ≡ unread_of r) }
{
    let (name, next) = fields::name_at(s, at + 1, pool, tally.names)?;
    let named = tally.with(Some(name));
    let type_ = Type::new(tokens, s[at]).number();
    let (interned, end) = past::value_at(s, next, type_, pool, named.names)?;
    let valued = named.with(interned);
    let rows = valued.rows + 1;
    Ok((Tally { rows, ..valued }, end))
}

// The attributes of a start tag, from a place on, after what the tally has.
fn measure_rest(
    s: &[u8],
    from: usize,
    finished: bool,
    tokens: &[u16; 256],
    pool: &Pool,
    start: Tally,
) -> Measured
    requires from_in_bounds { (from ≤ length s.now) × (length s.now ≤ max_store) }
    requires tokens_value { tokens.now ≡ built_in }
    requires bounded { Bounded from start }
    ensures { measured_of result ≡ plus start (measure finished start.names (attributes_of pool.now start.names s.now from)) }
{
    let mut at = from;
    let mut tally = start;
    while at < s.len() {
        if Command::new(tokens, s[at]).number() != Command::ATTRIBUTE {
            return told(tally, Ok(Some(at)));
        }
        match attribute_at(s, at, tokens, pool, tally) {
            Ok((more, next)) => {
                tally = more;
                at = next;
            }
            Err(refusal) => return told(tally, past::ended(finished, refusal)),
        }
    }
    told(tally, at_edge(finished, at))
}

// The event that stands in s.
fn measure_event(
    s: &[u8],
    finished: bool,
    tokens: &[u16; 256],
    pool: &Pool,
    names: usize,
) -> Measured
    requires s_len_bound { length s.now ≤ max_store }
    requires tokens_value { tokens.now ≡ built_in }
    ensures { measured_of result ≡ measure finished names (event_of pool.now names s.now) }
{
    let empty = Tally {
        names,
        rows: 0,
        added: 0,
        bytes: 0,
    };
    if s.is_empty() {
        return told(empty, past::ended(finished, Refusal::UnexpectedEof));
    }
    let kind = Command::new(tokens, s[0]).number();
    let (name, next) = match past::own_at(s, kind, tokens, pool, names) {
        Ok(own) => own,
        Err(refusal) => return told(empty, past::ended(finished, refusal)),
    };
    let named = empty.with(name);
    let start = Tally { rows: 1, ..named };
    if kind == Command::START_TAG {
        return measure_rest(s, next, finished, tokens, pool, start);
    }
    told(start, Ok(Some(next)))
}

// An event that is not looked at.
fn unmeasured(refusal: Refusal) -> Measured
    ensures { result ≡ record { rows = 0; added = 0; bytes = 0; outcome = Err refusal } }
{
    Measured {
        rows: 0,
        added: 0,
        bytes: 0,
        outcome: Err(refusal),
    }
}

// The event that stands in s, for a pool of so many names: pairs of the table, whose spans must end in a store of so many bytes. finished says
// that no more bytes will come. 17 for an input that is longer than any may be, 19 for names that are not in the table.
#[tactic(auto, using(std::proofs::lemmas::Bool::Decides::nat_tests), unfolding(crate::specs::Measured::measured))]
pub fn measure(s: &[u8], finished: bool, names: usize, stored: usize, table: &[u32]) -> Measured
    ensures { measured_of result ≡ measured finished names stored table.now s.now }
{
    if limits::MAX_STORE < s.len() {
        return unmeasured(Refusal::BadSize);
    }
    if table.len() / 2 < names {
        return unmeasured(Refusal::BadState);
    }
    let tokens = wire::tokens::built_in();
    let pool = Pool {
        table,
        kept: names,
        stored,
    };
    measure_event(s, finished, &tokens, &pool, names)
}
