// The doc comments at a position outside of strings.
#![tactic(auto)]

ghost use Rattle.std.specs.Prelude.{◌≡◌, true};
ghost use Rattle.characters.specs.Utf8.{chars_at};
ghost use Rattle.rules.specs.Scan.{starts_with};
ghost use Rattle.bridge.specs.Bridge.{Within as InText};
ghost use Rattle.walks.specs.Openings.{opens_doc};
ghost use Rattle.multiline.specs.Tokens.{slashes};
ghost use Rattle.steps.specs.Step.{AfterComment, Roomy};
ghost use Rattle.steps.specs.Tokens.{FoundAt};
ghost use Rattle.doc_tokens.specs.Documented.{Documented};

use rules::kinds;
use spans::Position;
use steps::{Fill, Step, made};

// The doc comment of one line at a position.
pub fn line_doc_token(
    text: &[u8],
    p: Position,
    texts: &mut [u8],
    errors: &mut [u8],
    fill: Fill,
) -> Step
    requires in_text { InText text.now p }
    requires offset_value { starts_with slashes (chars_at text.now p.offset) ≡ true }
    requires roomy { Roomy AfterComment fill.texts fill.errors }
    ensures { FoundAt text.now p texts.old fill.texts errors.old fill.errors result texts.new errors.new }
{
    let d = multiline::doc_line(text, p);
    let from = d.from;
    let to = d.to;
    let end = docs::trim_text(&text[from..to], texts, fill.texts);
    let behind = Fill { texts: end, ..fill };
    made::made_step(kinds::DOC_COMMENT, p, d.at, fill.texts, behind, false)
}

// The block doc comment at a position. The cleaner gets the part between its marks.
pub fn block_doc_token(
    text: &[u8],
    p: Position,
    texts: &mut [u8],
    errors: &mut [u8],
    fill: Fill,
) -> Step
    requires in_text { InText text.now p }
    requires offset_value { opens_doc (chars_at text.now p.offset) ≡ true }
    requires roomy { Roomy AfterComment fill.texts fill.errors }
    ensures { FoundAt text.now p texts.old fill.texts errors.old fill.errors result texts.new errors.new }
{
    let d = multiline::doc_block(text, p, errors, fill.errors);
    let from = d.from;
    let to = d.to;
    let end = docs::clean_doc(&text[from..to], texts, fill.texts);
    let behind = Fill {
        texts: end,
        errors: d.errors,
    };
    made::made_step(kinds::DOC_COMMENT, p, d.at, fill.texts, behind, d.ran_out)
}

// The doc comment at a position. This and `quote_token` of string_tokens have one shape, a test and two calls: with all three as
// parameters nothing would be left that they share.
pub fn doc_token(text: &[u8], p: Position, texts: &mut [u8], errors: &mut [u8], fill: Fill) -> Step
    requires in_text { InText text.now p }
    requires documented { Documented text.now p }
    requires roomy { Roomy AfterComment fill.texts fill.errors }
    ensures { FoundAt text.now p texts.old fill.texts errors.old fill.errors result texts.new errors.new }
{
    if walks::ahead::stands_at(text, p.offset, b"///") {
        return line_doc_token(text, p, texts, errors, fill);
    }
    block_doc_token(text, p, texts, errors, fill)
}
