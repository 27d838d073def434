// The writer's answers as words.
#![tactic(auto)]

ghost use Rattle.std.specs.Prelude.{◌≡◌};
ghost use Rattle.writer.specs.Answers.{reply_of};
ghost use Rattle.abx_words.specs.Words.{answered, reply_words};

use abx_words::{DONE, put, put_refused};
use wire::Refusal;
use writer::Writer;

// 0, bytes written and names; or a refusal.
pub fn tell_written(answer: &mut [usize], written: Result<Writer, Refusal>)
    ensures { answer.new ≡ answered answer.old (reply_words (reply_of written)) }
{
    match written {
        Ok(w) => put(answer, DONE, w.written, w.names, 0),
        Err(r) => put_refused(answer, r),
    }
}
