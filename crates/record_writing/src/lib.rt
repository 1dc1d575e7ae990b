// Records written at a place of a lent buffer. All other bytes keep.
#![tactic(auto)]

ghost use Rattle.std.specs.Prelude.{◌≡◌, [], ◌∷◌, ◌+◌, ◌≤◌, length};
ghost use Rattle.std.proofs.lemmas.List.Edits.{sets};
ghost use Rattle.records.specs.Fields.{PAIR, SPAN, HEAD};
ghost use Rattle.records.specs.Kinds.{record_length, error_length};
ghost use Rattle.records.specs.Records.{le32, pair_bytes, span_bytes, head_bytes, token_record, error_record};

use records::answers::TokenRecord;
use records::{fields, kinds};
use spans::Span;

// A number, 32-bit little-endian.
fn put32(buf: &mut [u8], at: usize, v: usize)
    requires { at + 4 ≤ length buf.old }
    ensures { buf.new ≡ sets buf.old at (le32 v) }
{
    let bytes = v.to_le_bytes();
    buf[at..at + 4].copy_from_slice(&bytes[..4]);
}

// Two numbers, one after the other.
fn put_pair(buf: &mut [u8], at: usize, a: usize, b: usize)
    requires { at + PAIR ≤ length buf.old }
    ensures { buf.new ≡ sets buf.old at (pair_bytes a b) }
{
    put32(buf, at, a);
    put32(buf, at + 4, b);
}

// The six fields of a span.
fn put_span(buf: &mut [u8], at: usize, span: Span)
    requires { at + SPAN ≤ length buf.old }
    ensures { buf.new ≡ sets buf.old at (span_bytes span) }
{
    put_pair(buf, at, span.start, span.end);
    put_pair(
        buf,
        at + fields::START_LINE,
        span.start_line,
        span.start_col,
    );
    put_pair(buf, at + fields::END_LINE, span.end_line, span.end_col);
}

// A kind and a span, with which every record begins.
fn put_head(buf: &mut [u8], at: usize, kind: u8, span: Span)
    requires { at + HEAD ≤ length buf.old }
    ensures { buf.new ≡ sets buf.old at (head_bytes kind span) }
{
    buf[at] = kind;
    put_span(buf, at + 1, span);
}

// A token's record. The result is the place after it.
pub fn put_token(buf: &mut [u8], at: usize, r: TokenRecord) -> usize
    requires { at + record_length r.kind ≤ length buf.old }
    ensures { (result ≡ at + record_length r.kind) × (buf.new ≡ sets buf.old at (token_record r.kind r.span r.offset r.length)) }
{
    put_head(buf, at, r.kind, r.span);
    if kinds::has_text(r.kind) {
        put_pair(buf, at + fields::TEXT_OFFSET, r.offset, r.length);
        return at + fields::WITH_TEXT;
    }
    at + fields::HEAD
}

// An error's record. The result is the place after it. The library has no `From` from a `u32` to a `usize`, so that stays a cast.
pub fn put_error(buf: &mut [u8], at: usize, kind: u8, span: Span, code: u32) -> usize
    requires { at + error_length kind ≤ length buf.old }
    ensures { (result ≡ at + error_length kind) × (buf.new ≡ sets buf.old at (error_record kind span code)) }
{
    if kinds::has_code(kind) {
        put_head(buf, at, kind, span);
        put32(buf, at + fields::CODE_POINT, code as usize);
        return at + fields::WITH_CODE;
    }
    put_head(buf, at, kind, span);
    at + fields::HEAD
}
