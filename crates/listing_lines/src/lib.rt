// The lines of a listing, each of given values.
#![tactic(auto)]

ghost use Rattle.output.specs.Writing.{Put};
ghost use Rattle.records.specs.Errors.{error_of};
ghost use Rattle.spellings.specs.Spelling.{spelling};
ghost use Rattle.listing_fields.specs.Room.{Room};
ghost use Rattle.listing_lines.specs.Lines.{head_of, token_line, error_line, closed_line, refused_line};
ghost use Rattle.listing_lines.specs.Words.{token, error};

use listing_fields::put_field;
use output::{put_byte, put_bytes};
use records::answers::ErrorRecord;
use records::kinds;
use spans::Span;
use spellings::spelling;

// A letter, a kind and a span.
fn put_head(letter: u8, kind: u8, s: Span, buf: &mut [u8], at: usize) -> usize
    requires { Room at (head_of letter kind s) }
    ensures { Put buf.old buf.new at (head_of letter kind s) result }
{
    let p = put_byte(buf, at, letter);
    let q = put_field(u64::from(kind), buf, p);
    listing_fields::put_span(s, buf, q)
}

// The line of a token.
pub fn put_token(kind: u8, s: Span, word: &[u8], buf: &mut [u8], at: usize) -> usize
    requires { Room at (token_line (token kind word.now s)) }
    ensures { Put buf.old buf.new at (token_line (token kind word.now s)) result }
{
    let p = put_head(b'T', kind, s, buf, at);
    let q = listing_fields::put_text(word, buf, p);
    put_byte(buf, q, b'\n')
}

// The line of a token whose kind has a fixed spelling, or none.
pub fn put_fixed(kind: u8, s: Span, buf: &mut [u8], at: usize) -> usize
    requires { Room at (token_line (token kind (spelling kind) s)) }
    ensures { Put buf.old buf.new at (token_line (token kind (spelling kind) s)) result }
{
    put_token(kind, s, spelling(kind), buf, at)
}

// The line of an error, by the number of its kind; the code point stands there where kinds of this number carry one.
pub fn put_error_number(kind: u8, s: Span, code: u32, buf: &mut [u8], at: usize) -> usize
    requires { Room at (error_line (error kind s code)) }
    ensures { Put buf.old buf.new at (error_line (error kind s code)) result }
{
    let p = put_head(b'E', kind, s, buf, at);
    if kinds::has_code(kind) {
        let q = put_field(u64::from(code), buf, p);
        return put_byte(buf, q, b'\n');
    }
    put_byte(buf, p, b'\n')
}

// The line of an error.
pub fn put_error(r: ErrorRecord, buf: &mut [u8], at: usize) -> usize
    requires { Room at (error_line (error_of r)) }
    ensures { Put buf.old buf.new at (error_line (error_of r)) result }
{
    let code = r.kind.code().unwrap_or(0);
    put_error_number(r.kind.number(), r.span, code, buf, at)
}

// `closed` or `open`: the flag is the answer that the line tells.
pub fn put_closed(closed: bool, buf: &mut [u8], at: usize) -> usize
    requires { Room at (closed_line closed) }
    ensures { Put buf.old buf.new at (closed_line closed) result }
{
    if closed {
        return put_bytes(b"closed\n", buf, at);
    }
    put_bytes(b"open\n", buf, at)
}

// The line of a refusal.
pub fn put_refused(number: u64, figure: u64, buf: &mut [u8]) -> usize
    ensures { Put buf.old buf.new 0 (refused_line number figure) result }
{
    let p = put_bytes(b"refused", buf, 0);
    let q = put_field(number, buf, p);
    let r = put_field(figure, buf, q);
    put_byte(buf, r, b'\n')
}
