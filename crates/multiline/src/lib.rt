// Tokens that go over lines: raw strings, `${..}` outside of strings, doc comments; and characters that begin nothing.
#![tactic(auto)]

ghost use Rattle.std.specs.Prelude.{◌≡◌, true, ◌≤◌};
ghost use Rattle.characters.specs.Utf8.{chars_at};
ghost use Rattle.rules.specs.Scan.{next, starts_with};
ghost use Rattle.bridge.specs.Bridge.{Within};
ghost use Rattle.walks.specs.Walks.{quotes};
ghost use Rattle.walks.specs.Openings.{opens_doc};
ghost use Rattle.multiline.specs.Tokens.{dollar_brace, slashes, begins_nothing, RawAt, BracesAt, DocLineAt, DocBlockAt, UnexpectedAt};
ghost use Rattle.output.specs.Writing.{PLACES};

use records::answers::ErrorRecord;
use records::errors::ErrorKind;
use spans::Position;
use walks::{error, walk};

// A token whose text was written: the position behind it, the places after its text and its errors, and whether the text ran out
// in it. The token counts either way, so that flag is no Option, here and below.
#[derive(Clone, Copy)]
pub struct Made {
    pub at: Position,
    pub texts: usize,
    pub errors: usize,
    pub ran_out: bool,
}

// The same of a token that has no error.
#[derive(Clone, Copy)]
pub struct Filled {
    pub at: Position,
    pub texts: usize,
    pub ran_out: bool,
}

// A token whose text is a part of the script: the position behind it, and the place after its errors.
#[derive(Clone, Copy)]
pub struct Recorded {
    pub at: Position,
    pub errors: usize,
}

// A doc comment of one line: its text's part of the script, and the position behind it. The part is two places, as in DocBlock: a slice would
// tie each such answer to the text's lifetime.
#[derive(Clone, Copy)]
pub struct DocLine {
    pub from: usize,
    pub to: usize,
    pub at: Position,
}

// A block doc comment: the part of the script between its marks, the position behind it, the place after its errors, and whether
// the text ran out in it.
#[derive(Clone, Copy)]
pub struct DocBlock {
    pub from: usize,
    pub to: usize,
    pub at: Position,
    pub errors: usize,
    pub ran_out: bool,
}

// The raw string at a position.
pub fn raw(
    text: &[u8],
    p: Position,
    texts: &mut [u8],
    used_texts: usize,
    errors: &mut [u8],
    used_errors: usize,
) -> Made
    requires within { Within text.now p }
    requires offset_value { starts_with quotes (chars_at text.now p.offset) ≡ true }
    requires used_texts_bound { used_texts ≤ PLACES }
    requires used_errors_bound { used_errors ≤ PLACES }
    ensures { RawAt text.now p texts.old texts.new used_texts
        errors.old errors.new used_errors result }
{
    let inner = bridge::along(p, 3);
    let c = walk::to_quotes(text, inner);
    let stop = c.at;
    let closed = c.found;
    let at = walk::behind_mark(c, 3);
    let from = inner.offset;
    let to = stop.offset;
    let texts_end = output::put_bytes(&text[from..to], texts, used_texts);
    let errors_end = error::put_open(
        errors,
        used_errors,
        closed,
        ErrorKind::UnterminatedRawString,
        p,
        at,
    );
    Made {
        at,
        texts: texts_end,
        errors: errors_end,
        ran_out: !closed,
    }
}

// `${` at a position outside of strings, up to its closing brace.
pub fn braces(text: &[u8], p: Position, texts: &mut [u8], used: usize) -> Filled
    requires within { Within text.now p }
    requires offset_value { starts_with dollar_brace (chars_at text.now p.offset) ≡ true }
    requires used_bound { used ≤ PLACES }
    ensures { BracesAt text.now p texts.old texts.new used result }
{
    let c = walk::to_byte(text, bridge::along(p, 2), b'}');
    let at = walk::behind_mark(c, 1);
    let found = c.found;
    let end = output::put_bytes(b"${...}", texts, used);
    Filled {
        at,
        texts: end,
        ran_out: !found,
    }
}

// The doc comment of one line at a position.
pub fn doc_line(text: &[u8], p: Position) -> DocLine
    requires within { Within text.now p }
    requires offset_value { starts_with slashes (chars_at text.now p.offset) ≡ true }
    ensures { DocLineAt text.now p result }
{
    let inner = bridge::along(p, 3);
    let c = walk::to_byte(text, inner, b'\n');
    let at = c.at;
    DocLine {
        from: inner.offset,
        to: at.offset,
        at,
    }
}

// The block doc comment at a position.
pub fn doc_block(text: &[u8], p: Position, errors: &mut [u8], used: usize) -> DocBlock
    requires within { Within text.now p }
    requires offset_value { opens_doc (chars_at text.now p.offset) ≡ true }
    requires used_bound { used ≤ PLACES }
    ensures { DocBlockAt text.now p errors.old errors.new used result }
{
    let inner = bridge::along(p, 3);
    let c = walk::to_pair(text, inner);
    let stop = c.at;
    let closed = c.found;
    let at = walk::behind_mark(c, 2);
    let end = error::put_open(
        errors,
        used,
        closed,
        ErrorKind::UnterminatedDocComment,
        p,
        at,
    );
    DocBlock {
        from: inner.offset,
        to: stop.offset,
        at,
        errors: end,
        ran_out: !closed,
    }
}

// The character at a position, which begins nothing.
pub fn unexpected(text: &[u8], p: Position, errors: &mut [u8], used: usize) -> Recorded
    requires within { Within text.now p }
    requires offset_value { next begins_nothing (chars_at text.now p.offset) ≡ true }
    requires used_bound { used ≤ PLACES }
    ensures { UnexpectedAt text.now p errors.old errors.new used result }
{
    let Some((c, q)) = bridge::look(text, p) else {
        return Recorded {
            at: p,
            errors: used,
        };
    };
    let span = error::between(p, q);
    let kind = ErrorKind::UnexpectedCharacter(c);
    let end = output::put_error_record(errors, used, ErrorRecord { kind, span });
    Recorded { at: q, errors: end }
}
