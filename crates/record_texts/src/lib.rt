// The text call and its check.
#![tactic(auto)]

ghost use Rattle.std.specs.Prelude.{◌≡◌, length};
ghost use Rattle.byte_order_mark.specs.Mark.{after_mark};
ghost use Rattle.refusals.specs.Answers.{of_answer};
ghost use Rattle.record_texts.specs.Texts.{home_of, is_inside, part_of, text_check_at, text_at, home_place, part_place, text_place_at};

use record_reading::read;
use records::kinds;
use refusals::Refusal;

// Whether a part lies inside a slice.
fn is_inside(s: &[u8], offset: usize, len: usize) -> bool
    ensures { result ≡ is_inside s.now offset len }
{
    if s.len() < offset {
        return false;
    }
    len <= s.len() - offset
}

// A part of a slice, empty where it does not lie inside.
fn part(s: &[u8], offset: usize, len: usize) -> &[u8]
    ensures result_value { result.now ≡ part_of s.now offset len }
    ensures ref_ptr_value { result.ref_ptr ≡ part_place s.entry.ref_ptr s.now offset len }
{
    if is_inside(s, offset, len) {
        return &s[offset..offset + len];
    }
    &s[..0]
}

// What the text of a kind is a part of: the script after its mark, or the text buffer.
fn home<'a>(script: &'a [u8], texts: &'a [u8], kind: u8) -> &'a [u8]
    ensures result_value { result.now ≡ home_of script.now texts.now kind }
    ensures ref_ptr_value { result.ref_ptr ≡ home_place script.entry.ref_ptr texts.entry.ref_ptr script.now kind }
{
    if kinds::is_made(kind) {
        return texts;
    }
    byte_order_mark::after_mark(script)
}

// Whether the text of the record at a place lies inside its buffer, or the refusals 7 and 8.
pub fn text_check<'a>(script: &'a [u8], texts: &'a [u8], s: &[u8], at: usize) -> Result<(), Refusal>
    ensures { of_answer result ≡ text_check_at script.now texts.now s.now at }
{
    read::ask_record(s, at)?;
    let r = read::record_at(s, at);
    if !kinds::has_text(r.kind) {
        return Ok(());
    }
    let buffer = home(script, texts, r.kind);
    if is_inside(buffer, r.offset, r.length) {
        return Ok(());
    }
    Err(Refusal::Text(r.offset as u64))
}

// The text of the record at a place: a part of the script after its mark, or of the text buffer.
pub fn text<'a>(script: &'a [u8], texts: &'a [u8], s: &[u8], at: usize) -> &'a [u8]
    ensures result_value { result.now ≡ text_at script.now texts.now s.now at }
    ensures ref_ptr_value { result.ref_ptr ≡ text_place_at script.entry.ref_ptr texts.entry.ref_ptr script.now texts.now s.now at }
{
    if !read::is_whole(s, at) {
        return &script[..0];
    }
    let r = read::record_at(s, at);
    if !kinds::has_text(r.kind) {
        return &script[..0];
    }
    let buffer = home(script, texts, r.kind);
    part(buffer, r.offset, r.length)
}
