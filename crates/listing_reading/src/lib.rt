// The lines of tokens and errors that are read back from their records.
#![tactic(auto)]

ghost use Rattle.std.specs.Prelude.{◌≤◌, length};
ghost use Rattle.output.specs.Writing.{Put};
ghost use Rattle.listing_fields.specs.Room.{Room};
ghost use Rattle.listing_reading.specs.Reading.{record_line, tokens_read, errors_read, lines_read};

use listing_lines::{put_closed, put_error, put_fixed, put_token};
use record_reading::{errors, read};
use records::answers::TokenRecord;
use records::kinds;
use room::Used;
use rules::kinds::EOF;

// The line of the record r that stands at a place.
fn put_record<'a>(
    script: &'a [u8],
    texts: &'a [u8],
    tokens: &[u8],
    place: usize,
    r: TokenRecord,
    buf: &mut [u8],
    at: usize,
) -> usize
    requires { Room at (record_line script.now texts.now tokens.now place r) }
    ensures { Put buf.old buf.new at (record_line script.now texts.now tokens.now place r) result }
{
    if kinds::has_text(r.kind) {
        return put_token(
            r.kind,
            r.span,
            record_texts::text(script, texts, tokens, place),
            buf,
            at,
        );
    }
    put_fixed(r.kind, r.span, buf, at)
}

// The lines of the tokens from the first on, of which there are at most so many.
fn put_tokens<'a>(
    script: &'a [u8],
    texts: &'a [u8],
    tokens: &[u8],
    count: usize,
    buf: &mut [u8],
) -> usize
    requires { Room 0 (tokens_read script.now texts.now tokens.now count) }
    ensures { Put buf.old buf.new 0 (tokens_read script.now texts.now tokens.now count) result }
{
    let mut p = 0;
    let mut place = 0;
    for _turn in 0..count {
        let Ok((r, next)) = read::next_token(tokens, place) else {
            return p;
        };
        let Ok(()) = record_texts::text_check(script, texts, tokens, place) else {
            return p;
        };
        p = put_record(script, texts, tokens, place, r, buf, p);
        if r.kind == EOF {
            return p;
        }
        place = next;
    }
    p
}

// The lines of the errors from the first on, of which there are at most so many: a number of turns, and no length of the buffer.
fn put_errors(s: &[u8], count: usize, buf: &mut [u8], at: usize) -> usize
    requires { Room at (errors_read s.now count) }
    ensures { Put buf.old buf.new at (errors_read s.now count) result }
{
    let mut p = at;
    let mut place = 0;
    for _turn in 0..count {
        let Ok((r, next)) = errors::next_error(s, place) else {
            return p;
        };
        p = put_error(r, buf, p);
        place = next;
    }
    p
}

// The lines of what tokenising left.
pub fn put_answer<'a>(
    script: &'a [u8],
    tokens: &[u8],
    texts: &'a [u8],
    errors: &[u8],
    u: Used,
    buf: &mut [u8],
) -> usize
    requires errors_in_bounds { u.errors ≤ length errors.now }
    requires room { Room 0 (lines_read script.now texts.now tokens.now errors.now u) }
    ensures { Put buf.old buf.new 0 (lines_read script.now texts.now tokens.now errors.now u) result }
{
    let p = put_tokens(script, texts, tokens, u.count, buf);
    let n = u.errors;
    let q = put_errors(&errors[..n], n, buf, p);
    put_closed(u.closed, buf, q)
}
