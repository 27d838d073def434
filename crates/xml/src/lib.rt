// Events as XML text. A call first looks at every string and measures all that it is to write, so that a refused one changes
// nothing, and then writes it.
#![tactic(auto)]

ghost use Rattle.std.specs.Prelude.{true, List, ◌≡◌, ℕ, ◌%◌, ◌≤◌, length};
ghost use Rattle.wire.specs.Limits.{max_store};
ghost use Rattle.event.specs.Row.{Row, row_at};
ghost use Rattle.text.specs.Put.{Put};
ghost use Rattle.writer_spec.specs.Writer.{rows_in, ends};
ghost use Rattle.xml_spec.specs.ToXml.{to_xml};
ghost use Rattle.xml_spec.specs.Rows.{end_refusal, rows_xml, rows_refusal, row_to_xml};
ghost use Rattle.xml.specs.Answers.{printed_of};
ghost use Rattle.xml.specs.Passes.{refusal_of, row_alone, StringsSay, EndSays, TurnSays};

use wire::{Command, Refusal, limits};

// ---- rows

// Whether an event ends before these rows: the first, where there is one, is no attribute.
fn ends(rows: &[u32]) -> bool
    ensures { (first second : List ℕ) → ends (rows_in first second rows.now) ≡ result }
{
    rows.len() < 8 || rows[0] != Command::Attribute.number()
}

// ---- the first pass

// What has been measured: the place after it, which past the room counts as one past it, and whether every string of the event so
// far is legal.
#[derive(Clone, Copy)]
pub struct Tally {
    pub at: usize,
    pub legal: bool,
}

// Whether a row's strings are all legal. One that is not well-formed is refused at once.
fn is_legal(first: &[u8], second: &[u8], row: &[u32; 8]) -> Result<bool, Refusal>
    ensures { StringsSay (row_at first.now second.now row.now) result }
{
    match xml_row::fault(first, second, row) {
        Ok(()) => Ok(true),
        Err(fault) => match fault {
            Refusal::InvalidUtf8 => Err(fault),
            _ => Ok(false),
        },
    }
}

// Where an event ends: 20, and then 15.
fn end_event(room: usize, tally: Tally) -> Result<Tally, Refusal>
    ensures { EndSays room tally result }
{
    if !tally.legal {
        return Err(Refusal::IllegalChar);
    }
    if room < tally.at {
        return Err(Refusal::OutputFull);
    }
    Ok(tally)
}

// A row, which may be its event's last.
fn measure_row(
    first: &[u8],
    second: &[u8],
    row: &[u32; 8],
    last: bool,
    room: usize,
    tally: Tally,
) -> Result<Tally, Refusal>
    requires { room ≤ max_store }
    ensures { (rs : List Row) → ends rs ≡ last → TurnSays room tally (row_at first.now second.now row.now) rs result }
{
    let legal = is_legal(first, second, row)?;
    let measured = Tally {
        at: xml_row::end(first, second, row, last, room + 1, tally.at),
        legal: tally.legal & legal,
    };
    if last {
        return end_event(room, measured);
    }
    Ok(measured)
}

// The first refusal, if any.
fn measure(first: &[u8], second: &[u8], rows: &[u32], room: usize) -> Result<(), Refusal>
    requires { (length rows.now % 8 ≡ 0) × (room ≤ max_store) }
    ensures { refusal_of result ≡ rows_refusal room 0 true (rows_in first.now second.now rows.now) }
{
    let mut tally = Tally { at: 0, legal: true };
    let mut rest = rows;
    while let Some((row, after)) = rest.split_first_chunk::<8>() {
        tally = measure_row(first, second, row, ends(after), room, tally)?;
        rest = after;
    }
    Ok(())
}

// ---- the second pass

fn put_rows(first: &[u8], second: &[u8], rows: &[u32], out: &mut [u8]) -> usize
    requires { length rows.now % 8 ≡ 0 }
    ensures { Put out.old 0 (rows_xml (rows_in first.now second.now rows.now)) out.new result }
{
    let mut at = 0;
    let mut rest = rows;
    while let Some((row, after)) = rest.split_first_chunk::<8>() {
        at = xml_row::put(first, second, row, ends(after), out, at);
        rest = after;
    }
    at
}

// A row alone, which may be its event's last.
fn print_row(
    first: &[u8],
    second: &[u8],
    row: &[u32; 8],
    last: bool,
    output: &mut [u8],
) -> Result<usize, Refusal>
    requires { length output.old ≤ max_store }
    ensures { printed_of output.new result ≡ row_alone last (row_at first.now second.now row.now) output.old }
{
    xml_row::fault(first, second, row)?;
    if output.len() < xml_row::end(first, second, row, last, output.len() + 1, 0) {
        return Err(Refusal::OutputFull);
    }
    Ok(xml_row::put(first, second, row, last, output, 0))
}

// ---- the calls

// Writes the text of an event list to the output's first bytes; its spans lie in two stores. The bytes after the text stay, and
// all where the call is refused.
pub fn to_xml<'a>(
    first: &'a [u8],
    second: &'a [u8],
    rows: &[u32],
    output: &mut [u8],
) -> Result<usize, Refusal>
    ensures { printed_of output.new result ≡ to_xml first.now second.now rows.now output.old }
{
    if limits::MAX_STORE < output.len() {
        return Err(Refusal::BadSize);
    }
    if !forms::list_forms(first, second, rows) {
        return Err(Refusal::NotRows);
    }
    measure(first, second, rows, output.len())?;
    Ok(put_rows(first, second, rows, output))
}

// The same of one row of a list, counted from 0: its part of its event's text.
pub fn row_to_xml<'a>(
    first: &'a [u8],
    second: &'a [u8],
    rows: &[u32],
    row: usize,
    output: &mut [u8],
) -> Result<usize, Refusal>
    ensures { printed_of output.new result ≡ row_to_xml first.now second.now rows.now row output.old }
{
    if limits::MAX_STORE < output.len() {
        return Err(Refusal::BadSize);
    }
    if !forms::row_forms_at(first, second, rows, row) {
        return Err(Refusal::NotRows);
    }
    let (_, rest) = rows.split_at(8 * row);
    let (w, after) = rest.split_first_chunk::<8>().unwrap();
    print_row(first, second, w, ends(after), output)
}
