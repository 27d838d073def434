// The text writer's answers as words.
#![tactic(auto)]

ghost use Rattle.std.specs.Prelude.{List, ◌≡◌, ℕ};
ghost use Rattle.xml.specs.Answers.{printed_of};
ghost use Rattle.abx_words.specs.Words.{answered, text_words};

use abx_words::{DONE, put, put_refused};
use wire::Refusal;

// 0 and the bytes of text; or a refusal. The output that a call leaves is no part of the words.
pub fn tell_printed(answer: &mut [usize], printed: Result<usize, Refusal>)
    ensures { (output : List ℕ) → answer.new ≡ answered answer.old (text_words (printed_of output printed).reply) }
{
    match printed {
        Ok(len) => put(answer, DONE, len, 0, 0),
        Err(r) => put_refused(answer, r),
    }
}
