// The tokens of strings at a position: strings by their pieces, raw strings, character literals, and `${` outside of strings. Each function
// asks what its caller has seen at the position (`starts_with ..`): that is known of this one place, so that a type would say it no plainer.
#![tactic(auto)]

ghost use Rattle.std.specs.Prelude.{◌≡◌, true, false, ◌≤◌};
ghost use Rattle.characters.specs.Utf8.{chars_at};
ghost use Rattle.rules.specs.Text.{ch};
ghost use Rattle.rules.specs.Scan.{next, starts_with};
ghost use Rattle.bridge.specs.Bridge.{Within as InText, exactly};
ghost use Rattle.walks.specs.Walks.{quotes};
ghost use Rattle.multiline.specs.Tokens.{dollar_brace};
ghost use Rattle.steps.specs.Step.{AfterComment, Roomy};
ghost use Rattle.steps.specs.Tokens.{FoundAt, made_step};
ghost use Rattle.string_tokens.specs.Inside.{given_step};

use interpolations::Given;
use multiline::Made;
use rules::kinds;
use spans::Position;
use steps::{Cursor, Fill, Step, Token, Within, made};
use strings::{Piece, pieces};

// The step of a piece of a string.
pub fn given_step(g: Given) -> Step
    ensures { result ≡ given_step g }
{
    let fill = Fill {
        texts: g.texts,
        errors: g.errors,
    };
    let token = Token {
        fields: g.token,
        fill,
        ran_out: g.ran_out,
    };
    let next = g.next;
    match next {
        cursor::Cursor::Outside(p) => Step::Token(
            token,
            Cursor {
                at: p,
                within: Within::Outside,
            },
        ),
        cursor::Cursor::InString(start, p) => {
            Step::Token(
                token,
                Cursor {
                    at: p,
                    within: Within::Inside(start.offset, start.line, start.col),
                },
            )
        }
    }
}

// The first piece of the string whose opening quote stands at a position.
pub fn string_token(
    text: &[u8],
    p: Position,
    texts: &mut [u8],
    errors: &mut [u8],
    fill: Fill,
) -> Step
    requires in_text { InText text.now p }
    requires offset_value { next (exactly (ch "\"")) (chars_at text.now p.offset) ≡ true }
    requires offset_value_2 { starts_with quotes (chars_at text.now p.offset) ≡ false }
    requires roomy { Roomy AfterComment fill.texts fill.errors }
    ensures { FoundAt text.now p texts.old fill.texts errors.old fill.errors result texts.new errors.new }
{
    let inner = bridge::along(p, 1);
    let x = pieces::piece(text, inner, p, true, texts, fill.texts, errors, fill.errors);
    let Piece::Token(g) = x else {
        return Step::End;
    };
    given_step(g)
}

// The token from a position on whose text and errors were written.
fn written_token(kind: u8, p: Position, fill: Fill, m: Made) -> Step
    requires { fill.texts ≤ m.texts }
    ensures { result ≡ made_step kind p m.at fill.texts (record { texts = m.texts; errors = m.errors }) m.ran_out }
{
    let behind = Fill {
        texts: m.texts,
        errors: m.errors,
    };
    made::made_step(kind, p, m.at, fill.texts, behind, m.ran_out)
}

// The raw string at a position. This and `letter_token` differ in the function that reads and in the kind, and say no more than these:
// one function that takes both would be no shorter to call.
pub fn raw_token(text: &[u8], p: Position, texts: &mut [u8], errors: &mut [u8], fill: Fill) -> Step
    requires in_text { InText text.now p }
    requires offset_value { starts_with quotes (chars_at text.now p.offset) ≡ true }
    requires roomy { Roomy AfterComment fill.texts fill.errors }
    ensures { FoundAt text.now p texts.old fill.texts errors.old fill.errors result texts.new errors.new }
{
    let m = multiline::raw(text, p, texts, fill.texts, errors, fill.errors);
    written_token(kinds::STRING_LITERAL, p, fill, m)
}

// The raw string, or the first piece of the ordinary string, at a quote.
pub fn quote_token(
    text: &[u8],
    p: Position,
    texts: &mut [u8],
    errors: &mut [u8],
    fill: Fill,
) -> Step
    requires in_text { InText text.now p }
    requires offset_value { next (exactly (ch "\"")) (chars_at text.now p.offset) ≡ true }
    requires roomy { Roomy AfterComment fill.texts fill.errors }
    ensures { FoundAt text.now p texts.old fill.texts errors.old fill.errors result texts.new errors.new }
{
    if walks::ahead::stands_at(text, p.offset, b"\"\"\"") {
        return raw_token(text, p, texts, errors, fill);
    }
    string_token(text, p, texts, errors, fill)
}

// The character literal at a position.
pub fn letter_token(
    text: &[u8],
    p: Position,
    texts: &mut [u8],
    errors: &mut [u8],
    fill: Fill,
) -> Step
    requires in_text { InText text.now p }
    requires offset_value { next (exactly (ch "'")) (chars_at text.now p.offset) ≡ true }
    requires roomy { Roomy AfterComment fill.texts fill.errors }
    ensures { FoundAt text.now p texts.old fill.texts errors.old fill.errors result texts.new errors.new }
{
    let m = letters::character(text, p, texts, fill.texts, errors, fill.errors);
    written_token(kinds::CHAR_LITERAL, p, fill, m)
}

// `${` at a position, up to its closing brace.
pub fn braces_token(
    text: &[u8],
    p: Position,
    texts: &mut [u8],
    errors: &mut [u8],
    fill: Fill,
) -> Step
    requires in_text { InText text.now p }
    requires offset_value { starts_with dollar_brace (chars_at text.now p.offset) ≡ true }
    requires roomy { Roomy AfterComment fill.texts fill.errors }
    ensures { FoundAt text.now p texts.old fill.texts errors.old fill.errors result texts.new errors.new }
{
    let m = multiline::braces(text, p, texts, fill.texts);
    let behind = Fill {
        texts: m.texts,
        ..fill
    };
    made::made_step(
        kinds::STRING_INTERP_START,
        p,
        m.at,
        fill.texts,
        behind,
        m.ran_out,
    )
}
