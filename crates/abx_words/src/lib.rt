// Answers as the words that the exported functions lend. An answer is four words, and is written where there is room for four: 0 and what
// was asked for; 1 at the end; 2, a refusal's number and its detail; or 3 where a chunk reader needs more.
#![tactic(auto)]

ghost use Rattle.std.specs.Prelude.{[], ◌∷◌, ◌≡◌};
ghost use Rattle.abx_words.specs.Words.{answered};
ghost use Rattle.wire.specs.Answers.{number_of, detail_of};

use wire::Refusal;

// Words that C reads (put's `what`), so they are numbers.
pub const DONE: usize = 0;

pub const END: usize = 1;

pub const REFUSED: usize = 2;

pub const NEED_MORE: usize = 3;

pub fn put(answer: &mut [usize], what: usize, a: usize, b: usize, c: usize)
    ensures { answer.new ≡ answered answer.old (what ∷ a ∷ b ∷ c ∷ []) }
{
    if let Some(words) = answer.first_chunk_mut() {
        *words = [what, a, b, c];
    }
}

pub fn put_refused(answer: &mut [usize], r: Refusal)
    ensures { answer.new ≡ answered answer.old (2 ∷ number_of r ∷ detail_of r ∷ 0 ∷ []) }
{
    put(answer, REFUSED, r.number() as usize, r.detail() as usize, 0)
}
