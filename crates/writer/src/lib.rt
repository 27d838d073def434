// The writer: a header, one event's rows, a list of events. A call first measures all that it is to write, so that a refused
// one changes nothing, and then writes it. Modules sizes and notes have what both passes ask, measure and put the passes, tries the
// call made of them.
#![tactic(auto)]

mod measure;
mod notes;
mod put;
mod sizes;
mod tries;

ghost use Rattle.std.specs.Prelude.{◌≡◌};
ghost use Rattle.writer_spec.specs.Writer.{sizes_bad, state_bad, create, write_event, write_events};
ghost use Rattle.writer.specs.Answers.{lent_of, state_of, left_of};
ghost use Rattle.writer.specs.declared.Stop.TheVariants.{Refused};

use wire::{Refusal, limits};

// ---- what a call lends

// The first `written` bytes of the output are used, the header included; the pool table has `names` pairs.
#[derive(Clone, Copy, Debug, PartialEq, Eq)]
pub struct Writer {
    pub written: usize,
    pub names: usize,
}

// Why measuring ends early: the call is refused, or there is no room for the note of another name.
#[derive(Clone, Copy, Debug, PartialEq, Eq)]
pub enum Stop {
    Refused(Refusal),
    Crowded,
}

impl From<Refusal> for Stop {
    ghost from_gives = { λ refusal stop. stop ≡ Refused refusal };

    fn from(refusal: Refusal) -> Stop {
        Stop::Refused(refusal)
    }
}

// Whether no call takes buffers of these lengths: 17.
#[tactic(auto, unfolding(writer_spec::specs::Writer::sizes_bad))]
pub(crate) fn sizes_bad(output: &[u8], pool: &[u32]) -> bool
    ensures { result ≡ sizes_bad (lent_of output.now pool.now) }
{
    limits::MAX_STORE < output.len() || pool.len() % 2 == 1 || limits::MAX_TABLE < pool.len()
}

// Whether the state counts more bytes or pairs than are lent: 19.
pub(crate) fn state_bad(writer: Writer, output: &[u8], pool: &[u32]) -> bool
    ensures { result ≡ state_bad (state_of writer) (lent_of output.now pool.now) }
{
    output.len() < writer.written || pool.len() / 2 < writer.names
}

// ---- the calls

// The header and an empty pool.
pub fn create(output: &mut [u8], pool: &[u32]) -> Result<Writer, Refusal>
    ensures { left_of result output.new pool.now ≡ create (lent_of output.old pool.now) }
{
    if sizes_bad(output, pool) {
        return Err(Refusal::BadSize);
    }
    if output.len() < 4 {
        return Err(Refusal::OutputFull);
    }
    output[..4].copy_from_slice(&header::MAGIC);
    Ok(Writer {
        written: 4,
        names: 0,
    })
}

// Exactly one event, its rows' spans in two stores.
pub fn write_event<'a>(
    writer: Writer,
    first: &'a [u8],
    second: &'a [u8],
    rows: &[u32],
    output: &mut [u8],
    pool: &mut [u32],
) -> Result<Writer, Refusal>
    ensures { left_of result output.new pool.new ≡ write_event (state_of writer) first.now second.now rows.now (lent_of output.old pool.old) }
{
    if let Some(answer) = tries::write_short(true, writer, first, second, rows, output, pool) {
        return answer;
    }
    if let Some(answer) = tries::write_long(true, writer, first, second, rows, output, pool) {
        return answer;
    }
    tries::write_longest(true, writer, first, second, rows, output, pool)
}

// A list of events: all of them, or none.
pub fn write_events<'a>(
    writer: Writer,
    first: &'a [u8],
    second: &'a [u8],
    rows: &[u32],
    output: &mut [u8],
    pool: &mut [u32],
) -> Result<Writer, Refusal>
    ensures { left_of result output.new pool.new ≡ write_events (state_of writer) first.now second.now rows.now (lent_of output.old pool.old) }
{
    if let Some(answer) = tries::write_short(false, writer, first, second, rows, output, pool) {
        return answer;
    }
    if let Some(answer) = tries::write_long(false, writer, first, second, rows, output, pool) {
        return answer;
    }
    tries::write_longest(false, writer, first, second, rows, output, pool)
}
