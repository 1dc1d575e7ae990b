// The host's calls on characters.
#![tactic(auto)]

ghost use Rattle.std.specs.Prelude.{◌≡◌, length};
ghost use Rattle.characters.specs.Utf8.{first_bad};
ghost use Rattle.characters.specs.Space.{is_white};
ghost use Rattle.byte_order_mark.specs.Mark.{mark_length};
ghost use Rattle.encoding.specs.Encoding.{encoded_at, buffer_after};
ghost use Rattle.host_answers.specs.Answers.{truth};
ghost use Rattle.host_characters.specs.Characters.{check_number, check_figure, written};

use characters::space;

// 0 where the text is UTF-8, and the figure keeps; else the number of the refusal, whose figure is the first byte of the first bad
// sequence.
pub fn first_bad(text: &[u8], figure: &mut u64) -> u64
    ensures value { result ≡ check_number text.now (first_bad text.now) }
    ensures figure_after { figure.new ≡ check_figure (first_bad text.now) figure.old }
{
    let Some(at) = utf8_check::first_bad(text) else {
        return 0;
    };
    let refusal = utf8_classes::bad_class(text, at);
    *figure = refusal.figure();
    refusal.number()
}

// The bytes of the byte-order mark that the text begins with: 3 or 0.
pub fn mark_length(text: &[u8]) -> u64
    ensures { result ≡ mark_length text.now }
{
    byte_order_mark::mark_length(text) as u64
}

// 1 where the code point is white space, else 0.
pub fn is_white(code: u32) -> u64
    ensures { result ≡ truth (is_white code) }
{
    host_answers::truth_of(space::is_white(code))
}

// Writes a character at a place of the buffer: the bytes written, or 0 where the code point is no character or does not fit.
pub fn encode_char(code: u32, buffer: &mut [u8], at: usize) -> u64
    ensures value { result ≡ written (encoded_at code at (length buffer.old)) }
    ensures buffer_after { buffer.new ≡ buffer_after code at buffer.old }
{
    let Some(n) = encoding::encode_char(code, buffer, at) else {
        return 0;
    };
    n as u64
}
