// Words: names, keywords, numbers, marks and the lone dollar sign. They are ASCII and stand on one line.
#![tactic(auto)]

ghost use Rattle.std.specs.Prelude.{◌≡◌, true, ◌+◌, ◌<◌, length};
ghost use Rattle.characters.specs.Utf8.{chars_at};
ghost use Rattle.rules.specs.Lexer.{segment};
ghost use Rattle.lexemes.specs.Words.{WordAt};
ghost use Rattle.words.specs.Words.{is_word_class, begins_word, Begun};

use keywords::Keywords;
use lexemes::Word;
use marks::Marks;
use rules::kinds;

// Whether a word begins with the character at a place, of the class that is told, with which one can begin.
pub fn begins_word(text: &[u8], at: usize, class: u8) -> bool
    requires at_in_bounds { at < length text.now }
    requires class_value { is_word_class class ≡ true }
    ensures { result ≡ begins_word class (chars_at text.now (at + 1)) }
{
    if class == classes::DOLLAR {
        return !bridge::is_at(text, at + 1, b'{');
    }
    if class == classes::SLASH {
        let comment = bridge::is_at(text, at + 1, b'/') | bridge::is_at(text, at + 1, b'*');
        return !comment;
    }
    true
}

// The tables that a step asks, made once and lent.
#[derive(Drop)]
pub struct Tables {
    pub marks: Marks,
    pub keywords: Keywords,
}

impl Tables {
    pub fn new() -> Self {
        Tables {
            marks: Marks::new(),
            keywords: Keywords::new(),
        }
    }

    // The word at a place, of the class that is told.
    pub fn word_at(&self, text: &[u8], at: usize, class: u8) -> Word
        requires { Begun text.now at class }
        ensures { WordAt text.now at (segment (chars_at text.now at)) result.kind result.length result.extent }
    {
        if class == classes::LETTER {
            return names::name_at(&self.keywords, text, at);
        }
        if class == classes::DIGIT {
            return numbers::numeral_at(text, at);
        }
        if class == classes::DOLLAR {
            return Word {
                kind: kinds::IDENT,
                length: 1,
                extent: 0,
            };
        }
        self.marks.mark_at(text, at, class)
    }
}
