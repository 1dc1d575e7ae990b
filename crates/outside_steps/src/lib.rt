// Steps outside of strings: past white space and comments, and then the choice of what begins there (lexer.rs, lines 184 to 261).
#![tactic(auto)]

ghost use Rattle.bridge.specs.Bridge.{Within as InText};
ghost use Rattle.steps.specs.Step.{AfterString, AfterComment, Roomy};
ghost use Rattle.steps.specs.Tokens.{GivenAt, Kept};

use spans::Position;
use steps::{Fill, Step, made};
use words::Tables;

// The token at a position where nothing that is skipped stands; or EOF.
pub fn scan_at(
    tables: &Tables,
    text: &[u8],
    p: Position,
    texts: &mut [u8],
    errors: &mut [u8],
    fill: Fill,
) -> Step
    requires in_text { InText text.now p }
    requires kept { Kept text.now p }
    requires roomy { Roomy AfterComment fill.texts fill.errors }
    ensures { GivenAt text.now p texts.old fill.texts errors.old fill.errors result texts.new errors.new }
{
    let at = p.offset;
    let class = tables.marks.classes.at(text, at);
    if class == classes::OTHER {
        return word_tokens::other_step(text, p, texts, errors, fill);
    }
    if class == classes::QUOTE {
        return string_tokens::quote_token(text, p, texts, errors, fill);
    }
    if class == classes::APOSTROPHE {
        return string_tokens::letter_token(text, p, texts, errors, fill);
    }
    if words::begins_word(text, at, class) {
        return word_tokens::word_token(tables, text, p, class, fill);
    }
    if class == classes::DOLLAR {
        return string_tokens::braces_token(text, p, texts, errors, fill);
    }
    doc_tokens::doc_token(text, p, texts, errors, fill)
}

// Past white space and comments from a position on, and then a token or EOF.
pub fn outside_step(
    tables: &Tables,
    text: &[u8],
    p: Position,
    texts: &mut [u8],
    errors: &mut [u8],
    fill: Fill,
) -> Step
    requires in_text { InText text.now p }
    requires roomy { Roomy AfterString fill.texts fill.errors }
    ensures { GivenAt text.now p texts.old fill.texts errors.old fill.errors result texts.new errors.new }
{
    let k = skipping::skip(text, p, errors, fill.errors);
    let at = k.at;
    let behind = Fill {
        texts: fill.texts,
        errors: k.errors,
    };
    if k.ran_out {
        return made::end_step(at, behind, true);
    }
    scan_at(tables, text, at, texts, errors, behind)
}
