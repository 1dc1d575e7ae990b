// Words as they are printed: as they stand.
#![tactic(auto)]

ghost use Rattle.std.specs.Prelude.{◌≡◌, true, ◌≤◌, length};
ghost use Rattle.bridge.specs.Bridge.{placed, Within};
ghost use Rattle.words.specs.Words.{Begun};
ghost use Rattle.output.specs.Writing.{Put, PLACES};
ghost use Rattle.print_places.specs.Places as places;
ghost use Rattle.print_words.specs.Ends.{EndsAt};

use marks::Marks;
use print_places::Written;

// The end of the word at a place, of the class that is told. Which keyword a name is plays no part in a print.
fn word_end(marks: &Marks, text: &[u8], at: usize, class: u8) -> usize
    requires { Begun text.now at class }
    ensures { EndsAt text.now at result }
{
    if class == classes::LETTER {
        return names::name_end(text, at);
    }
    if class == classes::DIGIT {
        let n = numbers::number_at(text, at);
        return n.end;
    }
    if class == classes::DOLLAR {
        return at + 1;
    }
    let w = marks.mark_at(text, at, class);
    at + w.length
}

// The bytes of a word. Most marks are one byte.
fn put_text(word: &[u8], out: &mut [u8], at: usize) -> usize
    requires word_len_bound { length word.now ≤ PLACES }
    requires at_bound { at ≤ PLACES }
    ensures { Put out.old out.new at word.now result }
{
    if word.len() == 1 {
        return output::put_byte(out, at, word[0]);
    }
    output::put_bytes(word, out, at)
}

// The word at a place.
pub fn put_word(
    marks: &Marks,
    text: &[u8],
    from: usize,
    class: u8,
    out: &mut [u8],
    at: usize,
) -> Written
    requires within { Within text.now (placed from) }
    requires begun { Begun text.now from class }
    requires at_bound { at ≤ PLACES }
    ensures { places.Emits true text.now from out.old out.new at result }
{
    let end = word_end(marks, text, from, class);
    Written {
        at: end,
        out: put_text(&text[from..end], out, at),
    }
}
