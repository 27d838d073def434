// The chunk reader's answers and states as words. A state is six words: start, end, names, bytes, and 0 or 1 for a header passed and for a
// finish.
#![tactic(auto, unfolding(abx_words::specs::Words::stream_in))]

ghost use Rattle.std.specs.Prelude.{List, [], ◌∷◌, cond, ◌≡◌, ℕ};
ghost use Rattle.stream.specs.declared.Stream as State;
ghost use Rattle.stream.specs.Answers.{created_of, fed_of, closed_of, answer_of, stream_of};
ghost use Rattle.stream_spec.specs.Stream.{Lent};
ghost use Rattle.abx_words.specs.Words.{answered, state_words, stored, stream_in, opened, OpenLeft, Told};

use abx_words::{DONE, END, NEED_MORE, put, put_refused};
use stream::{Answer, Fed, Stream};
use wire::Refusal;

// The words of a chunk reader's state.
const STATE: usize = 6;

// The state that these words say; any flag but 0 is true. Too few words are a state that every call refuses.
pub fn stream_in(state: &[usize]) -> Stream
    ensures { stream_of result ≡ stream_in state.now }
{
    match *state {
        [start, end, names, bytes, header, finished, ..] => Stream {
            start,
            end,
            names,
            bytes,
            header: header != 0,
            finished: finished != 0,
        },
        _ => Stream {
            start: 1,
            ..Stream::default()
        },
    }
}

fn keep(state: &mut [usize], stream: Stream)
    ensures { state.new ≡ stored state.old (state_words (stream_of stream)) }
{
    if let Some(words) = state.first_chunk_mut() {
        *words = [
            stream.start,
            stream.end,
            stream.names,
            stream.bytes,
            usize::from(stream.header),
            usize::from(stream.finished),
        ];
    }
}

// The state after a call, with what it answers and a count.
fn tell(state: &mut [usize], answer: &mut [usize], stream: Stream, what: usize, count: usize)
    ensures state { state.new ≡ stored state.old (state_words (stream_of stream)) }
    ensures answer { answer.new ≡ answered answer.old (what ∷ count ∷ 0 ∷ 0 ∷ []) }
{
    keep(state, stream);
    put(answer, what, count, 0, 0)
}

// 0, with the state; or a refusal, also of a state that has no room.
pub fn tell_opened(state: &mut [usize], answer: &mut [usize], created: Result<Stream, Refusal>)
    ensures { OpenLeft state.old state.new answer.old answer.new (opened state.old (created_of created)) }
{
    match created {
        Ok(_) if state.len() < STATE => put_refused(answer, Refusal::BadState),
        Ok(stream) => tell(state, answer, stream, DONE, 0),
        Err(refusal) => put_refused(answer, refusal),
    }
}

// 0 and the bytes taken, with the state after it; or a refusal, which leaves the state.
pub fn tell_fed(state: &mut [usize], answer: &mut [usize], fed: Result<Fed, Refusal>)
    ensures { (old : State.Stream) (lent : Lent) → Told state.old state.new answer.old answer.new (fed_of old lent fed) }
{
    match fed {
        Ok(Fed { count, stream }) => tell(state, answer, stream, DONE, count),
        Err(refusal) => put_refused(answer, refusal),
    }
}

// 0, with the state after it; or a refusal, which leaves the state.
pub fn tell_closed(state: &mut [usize], answer: &mut [usize], closed: Result<Stream, Refusal>)
    ensures { (old : State.Stream) (lent : Lent) → Told state.old state.new answer.old answer.new (closed_of old lent closed) }
{
    match closed {
        Ok(stream) => tell(state, answer, stream, DONE, 0),
        Err(refusal) => put_refused(answer, refusal),
    }
}

// 0 and rows, the end, or 3 where more is needed, each with the state after it; or a refusal, which leaves the state.
pub fn tell_answer(state: &mut [usize], answer: &mut [usize], next: Result<Answer, Refusal>)
    ensures { (old : State.Stream) (lent : Lent) (rows : List ℕ) → Told state.old state.new answer.old answer.new (answer_of old lent rows next) }
{
    match next {
        Ok(Answer::Event { rows, stream }) => tell(state, answer, stream, DONE, rows),
        Ok(Answer::NeedMore(stream)) => tell(state, answer, stream, NEED_MORE, 0),
        Ok(Answer::End(stream)) => tell(state, answer, stream, END, 0),
        Err(refusal) => put_refused(answer, refusal),
    }
}
