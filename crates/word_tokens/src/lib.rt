// The words at a position outside of strings; and what stands where nothing begins: a character that is not expected, or EOF.
#![tactic(auto)]

ghost use Rattle.std.specs.Prelude.{◌≡◌, true};
ghost use Rattle.characters.specs.Utf8.{chars_at};
ghost use Rattle.rules.specs.Scan.{next};
ghost use Rattle.bridge.specs.Bridge.{Within as InText};
ghost use Rattle.multiline.specs.Tokens.{begins_nothing};
ghost use Rattle.words.specs.Words.{Begun};
ghost use Rattle.steps.specs.Step.{AfterComment, Roomy};
ghost use Rattle.steps.specs.Tokens.{FoundAt, FoundBare, GivenAt};
ghost use Rattle.word_tokens.specs.Other.{Other};

use spans::Position;
use steps::{Fill, Step, made};
use words::Tables;

// The character at a position, which begins nothing.
pub fn unexpected_token(
    text: &[u8],
    p: Position,
    texts: &mut [u8],
    errors: &mut [u8],
    fill: Fill,
) -> Step
    requires in_text { InText text.now p }
    requires offset_value { next begins_nothing (chars_at text.now p.offset) ≡ true }
    requires roomy { Roomy AfterComment fill.texts fill.errors }
    ensures { FoundAt text.now p texts.old fill.texts errors.old fill.errors result texts.new errors.new }
{
    let m = multiline::unexpected(text, p, errors, fill.errors);
    let errors_end = m.errors;
    made::part_step(
        p,
        m.at,
        Fill {
            errors: errors_end,
            ..fill
        },
    )
}

// The word at a position, whose first byte is of the class `class`.
pub fn word_token(tables: &Tables, text: &[u8], p: Position, class: u8, fill: Fill) -> Step
    requires in_text { InText text.now p }
    requires begun { Begun text.now p.offset class }
    ensures { FoundBare text.now p fill.texts fill.errors result }
{
    let w = tables.word_at(text, p.offset, class);
    made::word_step(p, w, fill)
}

// Where no word, string or mark begins: the end of the text, or a character that begins nothing.
pub fn other_step(text: &[u8], p: Position, texts: &mut [u8], errors: &mut [u8], fill: Fill) -> Step
    requires in_text { InText text.now p }
    requires other { Other text.now p }
    requires roomy { Roomy AfterComment fill.texts fill.errors }
    ensures { GivenAt text.now p texts.old fill.texts errors.old fill.errors result texts.new errors.new }
{
    let Some(_) = bridge::look(text, p) else {
        return made::end_step(p, fill, false);
    };
    unexpected_token(text, p, texts, errors, fill)
}
