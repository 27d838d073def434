// What a query answers, and where it stands on its way. The queries are the crate slice_queries.
use crate::Place;
use wire::Refusal;

// How far a query came: the place, the events that it consumed, and the rows that it wrote.
#[derive(Clone, Copy, Debug, PartialEq, Eq)]
pub struct Reached {
    pub place: Place,
    pub events: usize,
    pub rows: usize,
}

// What was asked for was found, or no more is to be read.
#[derive(Clone, Copy, Debug, PartialEq, Eq)]
pub enum Queried {
    Found(Reached),
    Done(Reached),
}

// A refused query keeps what it found before.
#[derive(Clone, Copy, Debug, PartialEq, Eq)]
pub struct Stopped {
    pub refusal: Refusal,
    pub reached: Reached,
}

// How a query ends that is not refused.
#[derive(Clone, Copy, Debug, PartialEq, Eq)]
pub enum End {
    Found,
    Done,
}

// How far it came with an event; whether that is the end, or it was refused.
#[derive(Clone, Copy, Debug, PartialEq, Eq)]
pub struct Passed {
    pub end: Result<Option<End>, Refusal>,
    pub reached: Reached,
}
