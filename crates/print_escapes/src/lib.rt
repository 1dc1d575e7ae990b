// Bytes written between quotes, with the escapes of the office print.
#![tactic(auto)]

ghost use Rattle.std.specs.Prelude.{◌≡◌, ◌+◌, ◌*◌, ◌/◌, ◌≤◌, ◌<◌, length};
ghost use Rattle.std.proofs.Math.Seq.{slice};
ghost use Rattle.characters.specs.Utf8.{encode_char};
ghost use Rattle.rules.specs.Script.{LIMIT};
ghost use Rattle.output.specs.Writing.{Put};
ghost use Rattle.prints.specs.Print.{unicode, escaped, escapes, is_word, literal};
ghost use Rattle.print_escapes.specs.Escapes.{MOST, is_escaped, PastBare};

// The first character that is more than one byte.
const BEYOND_ASCII: u32 = 0x80;

const RADIX: u8 = 16;

// Whether a byte between quotes of the sort `quote` is escaped.
fn is_escaped(quote: u8, b: u8) -> bool
    ensures { result ≡ is_escaped quote b }
{
    (b == b'\\') | (b == quote) | (b == b'\n') | ((b == b'$') & (quote == b'"'))
}

// A letter, a digit or an underscore.
fn is_word(b: u8) -> bool
    ensures { result ≡ is_word b }
{
    b.is_ascii_alphanumeric() | (b == b'_')
}

// A byte by its number: `\u` and four digits.
fn put_unicode(b: u8, out: &mut [u8], at: usize) -> usize
    requires { at ≤ MOST }
    ensures { Put out.old out.new at (unicode b) result }
{
    let front = output::put_bytes(b"\\u00", out, at);
    let high = output::put_byte(out, front, output::hex_digit(b / RADIX));
    output::put_byte(out, high, output::hex_digit(b % RADIX))
}

// A byte between quotes.
fn put_escaped(quote: u8, b: u8, out: &mut [u8], at: usize) -> usize
    requires { at ≤ 2 * MOST }
    ensures { Put out.old out.new at (escaped quote b) result }
{
    if (b == b'\\') | (b == quote) {
        let place = output::put_byte(out, at, b'\\');
        return output::put_byte(out, place, b);
    }
    if b == b'\n' {
        return output::put_bytes(b"\\n", out, at);
    }
    if (b == b'$') & (quote == b'"') {
        return output::put_bytes(b"\\u0024", out, at);
    }
    output::put_byte(out, at, b)
}

// The end of the bytes from a place on that are not escaped.
fn past_bare(quote: u8, text: &[u8], from: usize) -> usize
    requires { from ≤ length text.now }
    ensures { PastBare quote text.now from (length text.now) result }
{
    runs::past(text, from, |b| !is_escaped(quote, b))
}

// A text between quotes. It goes by runs: what is not escaped is copied at once, and not byte by byte as `for` over the text would.
// That the text is no longer than a script is asked, here and below, and is no type: it bounds sums.
pub fn put_escapes(quote: u8, text: &[u8], out: &mut [u8], at: usize) -> usize
    requires text_bound { length text.now ≤ LIMIT }
    requires at_bound { at ≤ MOST + MOST / 2 }
    ensures { Put out.old out.new at (escapes quote text.now) result }
{
    let mut next = 0;
    let mut place = at;
    loop {
        let stop = past_bare(quote, text, next);
        place = output::put_bytes(&text[next..stop], out, place);
        if stop == text.len() {
            return place;
        }
        place = put_escaped(quote, text[stop], out, place);
        next = stop + 1;
    }
}

// A text of a string; `named` says that a `$name` stands right before it. The flag is what was written before, as in the definition
// `literal`: only a word character that would lengthen the name is written otherwise.
pub fn put_literal(text: &[u8], named: bool, out: &mut [u8], at: usize) -> usize
    requires text_some { 0 < length text.now }
    requires text_bound { length text.now ≤ LIMIT }
    requires at_bound { at ≤ MOST }
    ensures { Put out.old out.new at (literal named text.now) result }
{
    let first = text[0];
    if named & is_word(first) {
        let place = put_unicode(first, out, at);
        return put_escapes(b'"', &text[1..], out, place);
    }
    put_escapes(b'"', text, out, at)
}

// A character of a string; `named` says the same of it.
pub fn put_letter(c: u32, named: bool, out: &mut [u8], at: usize) -> usize
    requires c_bound { c ≤ 0x10FFFF }
    requires at_bound { at ≤ MOST }
    ensures { Put out.old out.new at (literal named (encode_char c)) result }
{
    if BEYOND_ASCII <= c {
        return output::put_char(c, out, at);
    }
    // It fits, since it is ASCII here.
    let b = c as u8;
    if named & is_word(b) {
        return put_unicode(b, out, at);
    }
    put_escaped(b'"', b, out, at)
}
