// Two stores of bytes, and the spans that rows name in them.
ghost use Rattle.std.specs.Prelude.{◌≡◌, get_or};
ghost use Rattle.event.specs.Span.{span, span_at};

// Three words of a row: which store, and the part of it.
#[derive(Clone, Copy, Debug, PartialEq, Eq)]
pub struct Span {
    pub source: u32,
    pub start: u32,
    pub len: u32,
}

impl Span {
    // The span of a row's name.
    pub fn of_name(row: &[u32; 8]) -> Span
        ensures source { result.source ≡ get_or row.now 1 0 }
        ensures start { result.start ≡ get_or row.now 2 0 }
        ensures len { result.len ≡ get_or row.now 3 0 }
    {
        Span {
            source: row[1],
            start: row[2],
            len: row[3],
        }
    }

    // The span of a row's value.
    pub fn of_value(row: &[u32; 8]) -> Span
        ensures source { result.source ≡ get_or row.now 5 0 }
        ensures start { result.start ≡ get_or row.now 6 0 }
        ensures len { result.len ≡ get_or row.now 7 0 }
    {
        Span {
            source: row[5],
            start: row[6],
            len: row[7],
        }
    }
}

// The stores that rows lie beside: source 0 is the first, 1 the second.
#[derive(Clone, Copy)]
pub struct Stores<'a> {
    pub first: &'a [u8],
    pub second: &'a [u8],
}

impl<'a> Stores<'a> {
    // The bytes of a span, as `event::span` gives them.
    pub fn span(self, at: Span) -> &'a [u8]
        ensures bytes { result.now ≡ span self.entry.first.now self.entry.second.now at.source at.start at.len }
        ensures place { result.ref_ptr ≡ span_at self.entry.first.now self.entry.first.ref_ptr self.entry.second.now self.entry.second.ref_ptr at.source at.start at.len }
    {
        crate::span(self.first, self.second, at.source, at.start, at.len)
    }
}
