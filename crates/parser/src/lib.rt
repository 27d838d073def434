// The slice reader that carries the caller's document with it: a struct over the calls of the crates slice and slice_queries.
#![tactic(auto)]

ghost use Rattle.std.specs.Prelude.{◌≡◌};
ghost use Rattle.scanner.specs.Select.{query_of};
ghost use Rattle.slice_spec.specs.Queries.{find-attribute, attributes-of, find-all-attributes, all-attributes-of};
ghost use Rattle.slice_spec.specs.Parser.{new, next, asks, text, text_at};
ghost use Rattle.parser.specs.Answers.{parser_of, left_of, asked_of};

use parser_steps::{Asked, Refused};
use scanner::select::Query;
use slice::Place;
use wire::Refusal;

// A document, the place of its next event, and why `new` was refused, if it was.
#[derive(Clone, Copy)]
pub struct AbxParser<'a> {
    pub document: &'a [u8],
    pub place: Place,
    pub refusal: Option<Refusal>,
}

impl<'a> AbxParser<'a> {
    // A parser of the document, past its header.
    pub fn new(document: &'a [u8], pool: &[u32]) -> AbxParser<'a>
        ensures { parser_of result ≡ new document.now document.entry.ref_ptr pool.now }
    {
        let opened = parser_steps::start(document, pool);
        AbxParser {
            document,
            place: opened.place,
            refusal: opened.refusal,
        }
    }

    // The next event, of so many rows, written from the first word on, its new names to the pool; or the end.
    pub fn next_event(
        &mut self,
        pool: &mut [u32],
        rows: &mut [u32],
    ) -> Result<Option<usize>, Refusal>
        ensures { left_of self.new pool.new rows.new result ≡ next (parser_of self.old) pool.old rows.old }
    {
        let stepped = parser_steps::step(self.document, self.place, self.refusal, pool, rows);
        self.place = stepped.place;
        stepped.answer
    }

    // Any of the four queries.
    #[tactic(auto, unfolding(slice_spec::specs::Parser::asks))]
    fn ask(
        &mut self,
        wanted: Query,
        element: &[u8],
        name: &[u8],
        pool: &mut [u32],
        rows: &mut [u32],
    ) -> Result<Asked, Refused>
        ensures { asked_of self.new pool.new rows.new result ≡ asks (query_of wanted element.now name.now) (parser_of self.old) pool.old rows.old }
    {
        if let Some(refused) = parser_steps::kept(self.refusal) {
            return parser_steps::unasked(self.place, refused).answer;
        }
        let queried = slice_queries::query(
            wanted,
            self.place,
            self.document,
            pool,
            rows,
            element,
            name,
        );
        let sought = parser_steps::apart(queried);
        self.place = sought.place;
        sought.answer
    }

    // The first attribute of this name on the next element of that name that has it.
    pub fn find_attribute(
        &mut self,
        element: &[u8],
        name: &[u8],
        pool: &mut [u32],
        rows: &mut [u32],
    ) -> Result<Asked, Refused>
        ensures { asked_of self.new pool.new rows.new result ≡ asks (find-attribute element.now name.now) (parser_of self.old) pool.old rows.old }
    {
        self.ask(Query::FindAttribute, element, name, pool, rows)
    }

    // The next element of this name: its row, and the rows of its attributes.
    pub fn attributes_of(
        &mut self,
        element: &[u8],
        pool: &mut [u32],
        rows: &mut [u32],
    ) -> Result<Asked, Refused>
        ensures { asked_of self.new pool.new rows.new result ≡ asks (attributes-of element.now) (parser_of self.old) pool.old rows.old }
    {
        self.ask(Query::AttributesOf, element, b"", pool, rows)
    }

    // Every attribute of this name on every element of that name, to the end of the input.
    pub fn find_all_attributes(
        &mut self,
        element: &[u8],
        name: &[u8],
        pool: &mut [u32],
        rows: &mut [u32],
    ) -> Result<Asked, Refused>
        ensures { asked_of self.new pool.new rows.new result ≡ asks (find-all-attributes element.now name.now) (parser_of self.old) pool.old rows.old }
    {
        self.ask(Query::FindAllAttributes, element, name, pool, rows)
    }

    // Every element of this name, its row and the rows of its attributes, to the end of the input.
    pub fn all_attributes_of(
        &mut self,
        element: &[u8],
        pool: &mut [u32],
        rows: &mut [u32],
    ) -> Result<Asked, Refused>
        ensures { asked_of self.new pool.new rows.new result ≡ asks (all-attributes-of element.now) (parser_of self.old) pool.old rows.old }
    {
        self.ask(Query::AllAttributesOf, element, b"", pool, rows)
    }

    // A string's bytes, as a part of the document; the empty part at its start where the span names no bytes.
    pub fn text(self, source: u32, start: u32, len: u32) -> &'a [u8]
        ensures bytes { result.now ≡ text (parser_of self.entry) source start len }
        ensures place { result.ref_ptr ≡ text_at (parser_of self.entry) source start len }
    {
        event::text(self.document, source, start, len)
    }
}
