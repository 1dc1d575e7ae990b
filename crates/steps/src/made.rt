// Steps that give a token.
ghost use Rattle.std.specs.Prelude.{◌≡◌, ◌≤◌};
ghost use Rattle.bridge.specs.Bridge.{Fits};
ghost use Rattle.steps.specs.Tokens.{end_step, word_step, made_step, part_step};

use super::{Cursor, Fill, Step, Token, Within};
use lexemes::Word;
use records::answers::TokenRecord;
use rules::kinds;
use spans::{Position, Span};

// EOF at a position. The next cursor stands behind it.
pub fn end_step(p: Position, fill: Fill, ran_out: bool) -> Step
    ensures { result ≡ end_step p fill ran_out }
{
    let span = Span::single(p.offset, p.line, p.col);
    let fields = TokenRecord {
        kind: kinds::EOF,
        span,
        offset: 0,
        length: 0,
    };
    let token = Token {
        fields,
        fill,
        ran_out,
    };
    Step::Token(
        token,
        Cursor {
            at: p,
            within: Within::Ended,
        },
    )
}

// The word at a position. Its text is a part of the script, or fixed by its kind.
pub fn word_step(p: Position, w: Word, fill: Fill) -> Step
    requires fits { Fits p w.length }
    requires extent_le_length { w.extent ≤ w.length }
    ensures { result ≡ word_step p w fill }
{
    let span = walks::error::between(p, bridge::along(p, w.extent));
    let at = bridge::along(p, w.length);
    let fields = TokenRecord {
        kind: w.kind,
        span,
        offset: p.offset,
        length: w.length,
    };
    let token = Token {
        fields,
        fill,
        ran_out: false,
    };
    Step::Token(
        token,
        Cursor {
            at,
            within: Within::Outside,
        },
    )
}

// A token from p to q whose text stands in the text buffer from `offset` up to where that is filled.
pub fn made_step(
    kind: u8,
    p: Position,
    q: Position,
    offset: usize,
    fill: Fill,
    ran_out: bool,
) -> Step
    requires { offset ≤ fill.texts }
    ensures { result ≡ made_step kind p q offset fill ran_out }
{
    let span = walks::error::between(p, q);
    let fields = TokenRecord {
        kind,
        span,
        offset,
        length: fill.texts - offset,
    };
    let token = Token {
        fields,
        fill,
        ran_out,
    };
    Step::Token(
        token,
        Cursor {
            at: q,
            within: Within::Outside,
        },
    )
}

// A token of the kind Error from p to q whose text is that part of the script.
pub fn part_step(p: Position, q: Position, fill: Fill) -> Step
    requires { p.offset ≤ q.offset }
    ensures { result ≡ part_step p q fill }
{
    let span = walks::error::between(p, q);
    let fields = TokenRecord {
        kind: kinds::ERROR,
        span,
        offset: p.offset,
        length: q.offset - p.offset,
    };
    let token = Token {
        fields,
        fill,
        ran_out: false,
    };
    Step::Token(
        token,
        Cursor {
            at: q,
            within: Within::Outside,
        },
    )
}
