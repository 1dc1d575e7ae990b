// What is read of a record.
use super::errors::ErrorKind;
use spans::Span;

// A token's record. The text's offset and length are 0 where the kind carries none: an Option would say again what the kind fixes, and cost
// a test for each token.
#[derive(Clone, Copy)]
pub struct TokenRecord {
    pub kind: u8,
    pub span: Span,
    pub offset: usize,
    pub length: usize,
}

// An error's record.
#[derive(Clone, Copy)]
pub struct ErrorRecord {
    pub kind: ErrorKind,
    pub span: Span,
}
