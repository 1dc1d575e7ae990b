// The kinds of records, and the length that each fixes.
ghost use Rattle.std.specs.Prelude.{◌≡◌};
ghost use Rattle.records.specs.Kinds.{is_kind, has_text, is_made, record_length, is_error_kind, has_code, error_length};

use super::fields;

// The numbers of the first and the last kind of error, and of the other one that carries a code point.
const UNEXPECTED_CHARACTER: u8 = 1;

const BAD_ESCAPE: u8 = 7;

const UNTERMINATED_DOC_COMMENT: u8 = 10;

// Whether there is such a kind of token.
pub fn is_kind(kind: u8) -> bool
    ensures { result ≡ is_kind kind }
{
    kind <= rules::kinds::ERROR
}

// Whether a token's record of this kind carries a text's offset and length.
pub fn has_text(kind: u8) -> bool
    ensures { result ≡ has_text kind }
{
    match kind {
        rules::kinds::INT_LITERAL..=rules::kinds::IDENT => true,
        rules::kinds::UNIT
        | rules::kinds::STRING_INTERP_START
        | rules::kinds::DOC_COMMENT
        | rules::kinds::ERROR => true,
        _ => false,
    }
}

// Whether that text lies in the text buffer.
pub fn is_made(kind: u8) -> bool
    ensures { result ≡ is_made kind }
{
    match kind {
        rules::kinds::STRING_LITERAL..=rules::kinds::CHAR_LITERAL => true,
        rules::kinds::STRING_INTERP_START | rules::kinds::DOC_COMMENT => true,
        _ => false,
    }
}

// The bytes of a token's record.
pub fn record_length(kind: u8) -> usize
    ensures { result ≡ record_length kind }
{
    if has_text(kind) {
        fields::WITH_TEXT
    } else {
        fields::HEAD
    }
}

// Whether there is a kind of error of this number.
pub fn is_error_kind(kind: u8) -> bool
    ensures { result ≡ is_error_kind kind }
{
    (UNEXPECTED_CHARACTER..=UNTERMINATED_DOC_COMMENT).contains(&kind)
}

// Whether an error's record of this kind carries a code point.
pub fn has_code(kind: u8) -> bool
    ensures { result ≡ has_code kind }
{
    kind == UNEXPECTED_CHARACTER || kind == BAD_ESCAPE
}

// The bytes of an error's record. Tokens and errors have kinds of their own, so that one function would take the test as a closure.
pub fn error_length(kind: u8) -> usize
    ensures { result ≡ error_length kind }
{
    if has_code(kind) {
        fields::WITH_CODE
    } else {
        fields::HEAD
    }
}
