// The error of what is not closed.
ghost use Rattle.std.specs.Prelude.{◌≡◌, ◌≤◌};
ghost use Rattle.rules.specs.Lexer.{span};
ghost use Rattle.output.specs.Writing.{Put, PLACES};
ghost use Rattle.records.specs.Errors.{kind_number};
ghost use Rattle.records.specs.Layout.{error_bytes};
ghost use Rattle.walks.specs.Errors.{unclosed};

use records::errors::ErrorKind;
use spans::{Position, Span};

// The span from one position to another.
pub fn between(p: Position, q: Position) -> Span
    ensures { result ≡ span p q }
{
    let first = Span::single(p.offset, p.line, p.col);
    let last = Span::single(q.offset, q.line, q.col);
    Span::merge(first, last)
}

// The error of the kind of this number where the text ran out at q in what began at p; none where that was closed, as the walk to its end has
// told.
pub fn put_unclosed(
    errors: &mut [u8],
    at: usize,
    closed: bool,
    kind: u8,
    p: Position,
    q: Position,
) -> usize
    requires { at ≤ PLACES }
    ensures { Put errors.old errors.new at (error_bytes (unclosed closed kind p q)) result }
{
    if closed {
        return at;
    }
    let span = between(p, q);
    output::put_error(errors, at, kind, span, 0)
}

// The same for a kind by its name. What is not closed carries no code point.
pub fn put_open(
    errors: &mut [u8],
    at: usize,
    closed: bool,
    kind: ErrorKind,
    p: Position,
    q: Position,
) -> usize
    requires { at ≤ PLACES }
    ensures { Put errors.old errors.new at (error_bytes (unclosed closed (kind_number kind) p q)) result }
{
    put_unclosed(errors, at, closed, kind.number(), p, q)
}
