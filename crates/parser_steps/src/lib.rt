// What the parser's methods do with the slice reader's answers: a new parser's place, its next event, a query's place apart.
#![tactic(auto)]

ghost use Rattle.std.specs.Prelude.{◌≡◌, ◌≢◌, Some, IfSome, IfNone};
ghost use Rattle.slice_spec.specs.Parser.{new, next};
ghost use Rattle.parser_steps.specs.Answers.{parser_at, opened_of, left_by, number_by, sought_of, refused_at};

use slice::Place;
use slice::queries::{Queried, Stopped};
use wire::Refusal;

// What a query answers: how it ended, how many events it consumed, and how many rows it wrote.
#[derive(Clone, Copy, Debug, PartialEq, Eq)]
pub enum Asked {
    Found { events: usize, rows: usize },
    Done { events: usize, rows: usize },
}

// A refused query keeps what it found before.
#[derive(Clone, Copy, Debug, PartialEq, Eq)]
pub struct Refused {
    pub refusal: Refusal,
    pub events: usize,
    pub rows: usize,
}

// The place of a new parser, or why it has none.
#[derive(Clone, Copy, Debug, PartialEq, Eq)]
pub struct Opened {
    pub place: Place,
    pub refusal: Option<Refusal>,
}

#[tactic(auto, unfolding(slice_spec::specs::Parser::new))]
pub fn start(document: &[u8], pool: &[u32]) -> Opened
    ensures { opened_of document.now document.entry.ref_ptr result ≡ new document.now document.entry.ref_ptr pool.now }
{
    match slice::create(document, pool) {
        Ok(place) => Opened {
            place,
            refusal: None,
        },
        Err(r) => Opened {
            place: Place { at: 0, names: 0 },
            refusal: Some(r),
        },
    }
}

// The refusal of a `new`. No call gives the number 0; a caller may, and it says that nothing was refused.
pub fn kept(refusal: Option<Refusal>) -> Option<Refusal>
    ensures some { IfSome result (λ r. (refusal ≡ Some r) × (number_by refusal ≢ 0)) }
    ensures none { IfNone result (number_by refusal ≡ 0) }
{
    match refusal {
        Some(r) if r.number() != 0 => Some(r),
        _ => None,
    }
}

// The place of a parser that has answered, and the answer: an event of so many rows, or the end.
#[derive(Clone, Copy, Debug, PartialEq, Eq)]
pub struct Stepped {
    pub place: Place,
    pub answer: Result<Option<usize>, Refusal>,
}

#[tactic(auto, unfolding(slice_spec::specs::Parser::next))]
pub fn step(
    document: &[u8],
    place: Place,
    refusal: Option<Refusal>,
    pool: &mut [u32],
    rows: &mut [u32],
) -> Stepped
    ensures { left_by (parser_at document.now document.entry.ref_ptr result.place refusal) pool.new rows.new result.answer
        ≡ next (parser_at document.now document.entry.ref_ptr place refusal) pool.old rows.old }
{
    match kept(refusal) {
        Some(refused) => Stepped {
            place,
            answer: Err(refused),
        },
        None => match slice::next_event(place, document, pool, rows) {
            Ok(Some(event)) => Stepped {
                place: event.place,
                answer: Ok(Some(event.rows)),
            },
            Ok(None) => Stepped {
                place,
                answer: Ok(None),
            },
            Err(r) => Stepped {
                place,
                answer: Err(r),
            },
        },
    }
}

// The place of a parser that was asked, and the answer.
#[derive(Clone, Copy, Debug, PartialEq, Eq)]
pub struct Sought {
    pub place: Place,
    pub answer: Result<Asked, Refused>,
}

// What the slice reader answered, its place apart.
pub fn apart(queried: Result<Queried, Stopped>) -> Sought
    ensures { result ≡ sought_of queried }
{
    match queried {
        Ok(Queried::Found(found)) => Sought {
            place: found.place,
            answer: Ok(Asked::Found {
                events: found.events,
                rows: found.rows,
            }),
        },
        Ok(Queried::Done(done)) => Sought {
            place: done.place,
            answer: Ok(Asked::Done {
                events: done.events,
                rows: done.rows,
            }),
        },
        Err(stopped) => Sought {
            place: stopped.reached.place,
            answer: Err(Refused {
                refusal: stopped.refusal,
                events: stopped.reached.events,
                rows: stopped.reached.rows,
            }),
        },
    }
}

// A refused `new` is the answer, and nothing was consumed.
pub fn unasked(place: Place, refusal: Refusal) -> Sought
    ensures { result ≡ refused_at place refusal }
{
    Sought {
        place,
        answer: Err(Refused {
            refusal,
            events: 0,
            rows: 0,
        }),
    }
}
