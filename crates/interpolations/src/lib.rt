// Interpolations of strings: `$name` and `${..}`.
#![tactic(auto)]

ghost use Rattle.std.specs.Prelude.{◌≡◌, true, ◌≤◌};
ghost use Rattle.characters.specs.Utf8.{chars_at};
ghost use Rattle.rules.specs.Text.{ch};
ghost use Rattle.rules.specs.Scan.{next};
ghost use Rattle.bridge.specs.Bridge.{Within, exactly};
ghost use Rattle.output.specs.Writing.{Put, PLACES};
ghost use Rattle.string_runs.specs.Runs.{USED};
ghost use Rattle.interpolations.specs.Interpolations.{PastAt, missing, InterpolationAt};

use cursor::Cursor;
use records::answers::TokenRecord;
use records::errors::ErrorKind;
use rules::kinds;
use spans::Position;
use walks::{Closing, error, walk};

// A token, the next cursor, whether the text ran out in the token, and how many bytes of the two buffers are used then. The token
// counts either way, so the flag is no Option. It is no token of the steps, which was tried and measured: the struct inside an enum's case
// was copied through memory.
#[derive(Clone, Copy)]
pub struct Given {
    pub token: TokenRecord,
    pub next: Cursor,
    pub ran_out: bool,
    pub texts: usize,
    pub errors: usize,
}

// Where the interpolation ends whose dollar sign stands at p: behind its name or its closing brace.
pub fn past_interpolation(text: &[u8], p: Position) -> Closing
    requires within { Within text.now p }
    requires offset_value { next (exactly (ch "$")) (chars_at text.now p.offset) ≡ true }
    ensures { PastAt text.now p result }
{
    let from = p.offset;
    let at = from + 1;
    if bridge::is_at(text, at, b'{') {
        let c = walk::to_byte(text, bridge::along(p, 2), b'}');
        let found = c.found;
        return Closing {
            at: walk::behind_mark(c, 1),
            found,
        };
    }
    let to = names::name_end(text, at);
    Closing {
        at: bridge::along(p, to - from),
        found: true,
    }
}

// Writes the brace that is missing where the text ran out: one byte or none, as the walk says. A closure would be no plainer.
fn put_brace(found: bool, texts: &mut [u8], at: usize) -> usize
    requires { at ≤ PLACES }
    ensures { Put texts.old texts.new at (missing found) result }
{
    if found {
        return at;
    }
    output::put_byte(texts, at, b'}')
}

// The interpolation whose dollar sign stands at p, in the string that began at `start`. Where the text runs out in it, its token's
// text gets the brace that is missing.
pub fn interpolation(
    text: &[u8],
    p: Position,
    start: Position,
    texts: &mut [u8],
    used_texts: usize,
    errors: &mut [u8],
    used_errors: usize,
) -> Given
    requires within { Within text.now p }
    requires offset_value { next (exactly (ch "$")) (chars_at text.now p.offset) ≡ true }
    requires used_texts_bound { used_texts ≤ USED }
    requires used_errors_bound { used_errors ≤ PLACES }
    ensures { InterpolationAt text.now p start texts.old texts.new used_texts errors.old errors.new used_errors result }
{
    let c = past_interpolation(text, p);
    let q = c.at;
    let found = c.found;
    let part = output::put_bytes(&text[p.offset..q.offset], texts, used_texts);
    let end = put_brace(found, texts, part);
    let kind = ErrorKind::UnterminatedInterpolation;
    let noted = error::put_open(errors, used_errors, found, kind, q, q);
    let token = TokenRecord {
        kind: kinds::STRING_INTERP_START,
        span: error::between(start, q),
        offset: used_texts,
        length: end - used_texts,
    };
    Given {
        token,
        next: Cursor::InString(start, q),
        ran_out: !found,
        texts: end,
        errors: noted,
    }
}
