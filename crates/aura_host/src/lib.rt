// The calls of a C-style host, on numbers and byte slices. Each is a function of a crate below, exported with its contract.
#![tactic(auto)]

ghost use Rattle.std.specs.Prelude.{◌≡◌, length};
ghost use Rattle.characters.specs.Utf8.{first_bad};
ghost use Rattle.characters.specs.Space.{is_white};
ghost use Rattle.byte_order_mark.specs.Mark.{mark_length};
ghost use Rattle.encoding.specs.Encoding.{encoded_at, buffer_after};
ghost use Rattle.host_answers.specs.Answers.{truth};
ghost use Rattle.host_characters.specs.Characters.{check_number, check_figure, written};

pub mod calls; // calls.rt: measuring and tokenising
pub mod office_print; // office_print.rt: the office print
pub mod reading; // reading.rt: the next token, the next error, the text check
pub mod matching; // matching.rt: consume and match

// 0 where the text is UTF-8, and the figure keeps; else the number of the refusal, whose figure is the first byte of the first bad
// sequence.
#[unsafe(no_mangle)]
pub extern "C" fn aura_first_bad(text: &[u8], figure: &mut u64) -> u64
    ensures value { result ≡ check_number text.now (first_bad text.now) }
    ensures figure_after { figure.new ≡ check_figure (first_bad text.now) figure.old }
{
    host_characters::first_bad(text, figure)
}

// The bytes of the byte-order mark that the text begins with: 3 or 0.
#[unsafe(no_mangle)]
pub extern "C" fn aura_mark_length(text: &[u8]) -> u64
    ensures { result ≡ mark_length text.now }
{
    host_characters::mark_length(text)
}

// 1 where the code point is white space, else 0.
#[unsafe(no_mangle)]
pub extern "C" fn aura_is_white(code: u32) -> u64
    ensures { result ≡ truth (is_white code) }
{
    host_characters::is_white(code)
}

// Writes a character at a place of the buffer: the bytes written, or 0 where the code point is no character or does not fit.
#[unsafe(no_mangle)]
pub extern "C" fn aura_encode_char(code: u32, buffer: &mut [u8], at: usize) -> u64
    ensures value { result ≡ written (encoded_at code at (length buffer.old)) }
    ensures buffer_after { buffer.new ≡ buffer_after code at buffer.old }
{
    host_characters::encode_char(code, buffer, at)
}
