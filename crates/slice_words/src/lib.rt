// The slice reader's answers as words.
#![tactic(auto)]

pub mod queries;

ghost use Rattle.std.specs.Prelude.{List, ◌≡◌, ℕ};
ghost use Rattle.slice.specs.declared.Place as Coded;
ghost use Rattle.slice.specs.Answers as Slice;
ghost use Rattle.abx_words.specs.Words.{answered, created_words, next_words};

use abx_words::{DONE, END, put, put_refused};
use slice::{Event, Place};
use wire::Refusal;

// 0, place and names; or a refusal.
pub fn tell_created(answer: &mut [usize], created: Result<Place, Refusal>)
    ensures { answer.new ≡ answered answer.old (created_words (Slice.created_of created)) }
{
    match created {
        Ok(place) => put(answer, DONE, place.at, place.names, 0),
        Err(r) => put_refused(answer, r),
    }
}

// 0, rows, place and names; the end; or a refusal. The pool and the rows that a next leaves are no part of the words.
pub fn tell_next(answer: &mut [usize], next: Result<Option<Event>, Refusal>)
    ensures { (old : Coded.Place) (pool rows : List ℕ) → answer.new ≡ answered answer.old (next_words (Slice.next_of old pool rows next)) }
{
    match next {
        Ok(Some(event)) => put(answer, DONE, event.rows, event.place.at, event.place.names),
        Ok(None) => put(answer, END, 0, 0, 0),
        Err(r) => put_refused(answer, r),
    }
}
