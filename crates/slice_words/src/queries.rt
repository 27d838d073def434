// A query's answer is seven words, and is written where there is room for seven: 0 where it was found, 1 where no more is to be read, as
// at an end, 2 where the query was refused; the place and the names; the events consumed; the rows written; and a refusal's number and
// detail. What C reads is words, so these are numbers, and 0 where nothing was refused.
ghost use Rattle.std.specs.Prelude.{List, [], ◌∷◌, ◌≡◌, ℕ};
ghost use Rattle.slice.specs.Answers.{left_of};
ghost use Rattle.abx_words.specs.QueryWords.{told_to, query_words};

use abx_words::{DONE, END, REFUSED};
use slice::queries::{Queried, Reached, Stopped};

fn put(answer: &mut [usize], what: usize, reached: Reached, number: usize, detail: usize)
    ensures { answer.new ≡ told_to answer.old (what ∷ reached.place.at ∷ reached.place.names ∷ reached.events ∷ reached.rows ∷ number ∷ detail ∷ []) }
{
    if let Some(words) = answer.first_chunk_mut() {
        *words = [
            what,
            reached.place.at,
            reached.place.names,
            reached.events,
            reached.rows,
            number,
            detail,
        ];
    }
}

// The pool and the rows that a query leaves are no part of the words.
pub fn tell(answer: &mut [usize], queried: Result<Queried, Stopped>)
    ensures { (pool rows : List ℕ) → answer.new ≡ told_to answer.old (query_words (left_of pool rows queried)) }
{
    match queried {
        Ok(Queried::Found(reached)) => put(answer, DONE, reached, 0, 0),
        Ok(Queried::Done(reached)) => put(answer, END, reached, 0, 0),
        Err(Stopped { refusal, reached }) => put(
            answer,
            REFUSED,
            reached,
            refusal.number() as usize,
            refusal.detail() as usize,
        ),
    }
}
