// The listing of a script of at most 1,024 bytes: its tokens, its errors, and closed or open.
#![tactic(auto)]

ghost use Rattle.std.specs.Prelude.{◌≡◌, ◌≤◌, length, replicate};
ghost use Rattle.output.specs.Writing.{Put};
ghost use Rattle.listing.specs.Listing.{listing, LONGEST};

use listing_lines::put_refused;
use listing_reading::put_answer;
use output::put_bytes;
use records::fields::{LONGEST_ERROR, LONGEST_TOKEN};

// The bytes that a script may have at most to be listed.
pub const LISTED: usize = 1024;

// The bytes of the longest listing at most.
pub const LONGEST: usize = 325 * LISTED + 162;

// What the tokens, the texts and the errors of a listed script take at most: LISTED + 1 records, two bytes of text for each byte and two
// more, LISTED records.
const TOKENS: usize = LONGEST_TOKEN * (LISTED + 1);

const TEXTS: usize = 2 * LISTED + 2;

const ERRORS: usize = LONGEST_ERROR * LISTED;

// A buffer of zeros.
pub fn zeros<const N: usize>() -> [u8; N]
    ensures size { N ≡ length result }
    ensures zeros { result ≡ replicate N 0 }
{
    [0; N]
}

// Writes the listing of a script at the front of a buffer, as far as it fits, and answers its length. The rest of the buffer keeps.
pub fn list(script: &[u8], buf: &mut [u8]) -> usize
    ensures put { Put buf.old buf.new 0 (listing script.now) result }
    ensures upper_bound { result ≤ LONGEST }
{
    if LISTED < script.len() {
        return put_bytes(b"long\n", buf, 0);
    }
    let mut tokens = zeros::<TOKENS>();
    let mut texts = zeros::<TEXTS>();
    let mut errors = zeros::<ERRORS>();
    let a = lexer::tokenize(script, &mut tokens, &mut texts, &mut errors);
    match a {
        Ok(u) => put_answer(script, &tokens, &texts, &errors, u, buf),
        Err(refusal) => put_refused(refusal.number(), refusal.figure(), buf),
    }
}
