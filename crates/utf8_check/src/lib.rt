// The check of a text: its first sequence that is not UTF-8.
#![tactic(auto)]

ghost use Rattle.std.specs.Prelude.{◌≡◌, ◌+◌, ◌-◌, ◌≤◌, length};
ghost use Rattle.characters.specs.Utf8.{first_bad};
ghost use Rattle.characters.specs.Valid.{bad_from};
ghost use Rattle.utf8_check.specs.Check.{BLOCK, ascii, Clean, Progressed};

use characters::Decoded;
use std::ops::ControlFlow;

// The bytes of a block.
const BLOCK: usize = 16;

// Whether the four bytes at a place are ASCII.
fn ascii4(text: &[u8], at: usize) -> bool
    requires { at + 4 ≤ length text.now }
    ensures { result ≡ ascii text.now at 3 }
{
    (text[at] < 0x80) & (text[at + 1] < 0x80) & (text[at + 2] < 0x80) & (text[at + 3] < 0x80)
}

// Whether the bytes of a block are ASCII. With no branch between them, the comparisons compile to one.
fn ascii16(text: &[u8], at: usize) -> bool
    requires { at + BLOCK ≤ length text.now }
    ensures { result ≡ ascii text.now at (BLOCK - 1) }
{
    let b = at + 4;
    let c = b + 4;
    let d = c + 4;
    ascii4(text, at) & ascii4(text, b) & ascii4(text, c) & ascii4(text, d)
}

// The place behind the blocks of sixteen ASCII bytes from a place on. The answer is a place, which blocks of `chunks` would have to count
// too: no plainer.
fn past_ascii(text: &[u8], from: usize) -> usize
    requires { from ≤ length text.now }
    ensures { Clean text.now from result }
{
    let mut at = from;
    while at + BLOCK <= text.len() {
        if !ascii16(text, at) {
            return at;
        }
        at += BLOCK;
    }
    at
}

// The check of the sequences from a place on, one by one: it goes on from the place behind `stop` that it reaches, or breaks off with
// its answer. Behind `stop` there are three bytes. It steps by the widths of sequences, here and in `past_rest`: no iterator of bytes
// does. It differs from `past_rest` in more than the stop: it looks for no end, which `decode` does for each sequence.
fn past_good(text: &[u8], from: usize, stop: usize) -> ControlFlow<Option<usize>, usize>
    requires from_in_bounds { from ≤ length text.now }
    requires stop_in_bounds { stop + 3 ≤ length text.now }
    ensures { Progressed text.now from stop result }
{
    let mut at = from;
    while at < stop {
        let d = sequences::decode_inside(text, at);
        match d {
            Decoded::Code(_, n) => {
                at += n;
            }
            Decoded::Bad => {
                return ControlFlow::Break(Some(at));
            }
            Decoded::End => {
                return ControlFlow::Break(None);
            }
        }
    }
    ControlFlow::Continue(at)
}

// The check of the sequences from a place on, one by one, up to the end.
fn past_rest(text: &[u8], from: usize) -> Option<usize>
    requires { from ≤ length text.now }
    ensures { bad_from text.now from ≡ result }
{
    let mut at = from;
    loop {
        let d = sequences::decode(text, at);
        match d {
            Decoded::Code(_, n) => {
                at += n;
            }
            Decoded::Bad => {
                return Some(at);
            }
            Decoded::End => {
                return None;
            }
        }
    }
}

// A block, and the three bytes behind it that `past_good` asks for.
const ENOUGH: usize = BLOCK + 3;

// The first bad sequence of a text, or none. Blocks of ASCII bytes are passed whole. Where a block is not such, the sequences of
// about one block are checked before blocks are tried again.
pub fn first_bad(text: &[u8]) -> Option<usize>
    ensures { result ≡ first_bad text.now }
{
    let mut at: usize = 0;
    loop {
        let from = past_ascii(text, at);
        if text.len() - from < ENOUGH {
            return past_rest(text, from);
        }
        let p = past_good(text, from, from + BLOCK);
        match p {
            ControlFlow::Continue(to) => {
                at = to;
            }
            ControlFlow::Break(answer) => {
                return answer;
            }
        }
    }
}
