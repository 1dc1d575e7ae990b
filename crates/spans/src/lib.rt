// Positions and spans, as in span.rs.
#![tactic(auto)]

ghost use Rattle.std.specs.Prelude.{◌≡◌};
ghost use Rattle.spans.specs.Span.{single, earlier, later, merge};

// Where a character stands in a text after its byte-order mark: its byte offset, from 0, and its line and column, from 1.
#[derive(Clone, Copy)]
pub struct Position {
    pub offset: usize,
    pub line: usize,
    pub col: usize,
}

#[derive(Clone, Copy)]
pub struct Span {
    pub start: usize,
    pub end: usize,
    pub start_line: usize,
    pub start_col: usize,
    pub end_line: usize,
    pub end_col: usize,
}

impl Span {
    // The span of one position, by its three numbers as in the Rust (span.rs).
    pub fn single(byte_offset: usize, line: usize, col: usize) -> Span
        ensures { result ≡ single byte_offset line col }
    {
        Span {
            start: byte_offset,
            end: byte_offset,
            start_line: line,
            start_col: col,
            end_line: line,
            end_col: col,
        }
    }

    // The span that starts first.
    fn earlier(a: Span, b: Span) -> Span
        ensures { result ≡ earlier a b }
    {
        if a.start <= b.start { a } else { b }
    }

    // The span that ends last.
    fn later(a: Span, b: Span) -> Span
        ensures { result ≡ later a b }
    {
        if b.end <= a.end { a } else { b }
    }

    // The least span that holds both.
    pub fn merge(a: Span, b: Span) -> Span
        ensures { result ≡ merge a b }
    {
        let first = Span::earlier(a, b);
        let last = Span::later(a, b);
        Span {
            start: first.start,
            end: last.end,
            start_line: first.start_line,
            start_col: first.start_col,
            end_line: last.end_line,
            end_col: last.end_col,
        }
    }
}
