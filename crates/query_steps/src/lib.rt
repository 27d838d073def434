// A query from one event to the next: whether it goes on, and its answer where it is over.
#![tactic(auto)]

ghost use Rattle.std.specs.Prelude.{List, ◌≡◌, ℕ, Ok};
ghost use Rattle.scanner.specs.Select.{query_of};
ghost use Rattle.slice_spec.specs.Queries.{ends};
ghost use Rattle.slice_spec.specs.Turns.{single_by, after_by};
ghost use Rattle.slice.specs.Answers.{step_of, reached_of, left_of};
ghost use Rattle.slice.specs.Going.{stops, end_of};

use scanner::select::Query;
use slice::queries::{End, Passed, Queried, Stopped};
use wire::{Command, Refusal};

// A query for a single element ends with its first match, and with EndDocument.
#[tactic(auto, unfolding(slice_spec::specs::Turns::single_by))]
fn after_single(kind: u32, count: usize) -> Option<End>
    ensures { step_of (Ok result) ≡ single_by kind count }
{
    if count != 0 {
        return Some(End::Found);
    }
    if kind == Command::EndDocument.number() {
        return Some(End::Done);
    }
    None
}

// Of the event's kind and of how many rows of it were written: whether this is the end. The other two go on to the end of the input.
#[tactic(auto, unfolding(slice_spec::specs::Turns::after_by))]
pub fn after(wanted: Query, kind: u32, count: usize) -> Option<End>
    ensures { (element name : List ℕ) → step_of (Ok result) ≡ after_by (query_of wanted element name) kind count }
{
    match wanted {
        Query::FindAttribute | Query::AttributesOf => after_single(kind, count),
        Query::FindAllAttributes | Query::AllAttributesOf => None,
    }
}

// Whether a query is over.
pub fn is_over(end: Result<Option<End>, Refusal>) -> bool
    ensures { result ≡ stops (step_of end) }
{
    !matches!(end, Ok(None))
}

// The answer of a query that is over.
pub fn told(passed: Passed) -> Result<Queried, Stopped>
    ensures { (table rows : List ℕ) → left_of table rows result ≡ ends (reached_of table rows passed.reached) (end_of (step_of passed.end)) }
{
    let reached = passed.reached;
    match passed.end {
        Ok(Some(End::Found)) => Ok(Queried::Found(reached)),
        Ok(_) => Ok(Queried::Done(reached)),
        Err(refusal) => Err(Stopped { refusal, reached }),
    }
}
