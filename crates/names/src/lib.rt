// Names: where one ends, and the name as a word.
#![tactic(auto)]

ghost use Rattle.std.specs.Prelude.{◌≡◌, true, ◌≤◌, length};
ghost use Rattle.characters.specs.Utf8.{chars_at};
ghost use Rattle.rules.specs.Text.{is_letter, is_ident_part};
ghost use Rattle.rules.specs.Scan.{next, run};
ghost use Rattle.rules.specs.Names.{parse_identifier_or_keyword};
ghost use Rattle.bridge.specs.Bridge.{Cut};
ghost use Rattle.lexemes.specs.Words.{WordAt};

use keywords::Keywords;
use lexemes::Word;

// A letter, small or capital.
fn is_letter(b: u8) -> bool
    ensures { result ≡ is_letter b }
{
    b.is_ascii_alphabetic()
}

// A letter, a digit, an underscore or a dollar sign. Letters are asked for first: most characters of names are such.
pub fn is_part(b: u8) -> bool
    ensures { result ≡ is_ident_part b }
{
    if is_letter(b) {
        return true;
    }
    b.is_ascii_digit() | (b == b'_') | (b == b'$')
}

// The end of the name at a place.
pub fn name_end(text: &[u8], from: usize) -> usize
    requires { from ≤ length text.now }
    ensures { Cut text.now from (run is_ident_part (chars_at text.now from)) result }
{
    runs::past(text, from, is_part)
}

// The name or keyword at a place: its span ends at its last character.
pub fn name_at(keywords: &Keywords, text: &[u8], at: usize) -> Word
    requires at_in_bounds { at ≤ length text.now }
    requires at_value { next is_ident_part (chars_at text.now at) ≡ true }
    ensures { WordAt text.now at (parse_identifier_or_keyword (chars_at text.now at)) result.kind result.length result.extent }
{
    let to = name_end(text, at);
    let kind = keywords.name_kind(&text[at..to]);
    let n = to - at;
    let last = n - 1;
    Word {
        kind,
        length: n,
        extent: last,
    }
}
