// The nesting check's answers as words.
#![tactic(auto)]

ghost use Rattle.std.specs.Prelude.{◌≡◌};
ghost use Rattle.nesting.specs.Answers.{nesting_of};
ghost use Rattle.abx_words.specs.Words.{answered, nesting_words};

use abx_words::{DONE, put, put_refused};
use wire::Refusal;

// 0, and 1 for a yes or 0 for a no; or a refusal.
pub fn tell_nesting(answer: &mut [usize], nesting: Result<bool, Refusal>)
    ensures { answer.new ≡ answered answer.old (nesting_words (nesting_of nesting)) }
{
    match nesting {
        Ok(true) => put(answer, DONE, 1, 0, 0),
        Ok(false) => put(answer, DONE, 0, 0, 0),
        Err(r) => put_refused(answer, r),
    }
}
