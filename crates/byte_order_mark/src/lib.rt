// The byte-order mark.
#![tactic(auto)]

ghost use Rattle.std.specs.Prelude.{◌≡◌};
ghost use Rattle.byte_order_mark.specs.Mark.{has_mark, mark_length, after_mark};
ghost use Rattle.byte_order_mark.specs.Slices.{bytes_behind};

pub fn has_mark(text: &[u8]) -> bool
    ensures { result ≡ has_mark text.now }
{
    text.starts_with(b"\xEF\xBB\xBF")
}

// The number of bytes of the mark that a text begins with.
pub fn mark_length(text: &[u8]) -> usize
    ensures { result ≡ mark_length text.now }
{
    if has_mark(text) { 3 } else { 0 }
}

// The text after its mark.
pub fn after_mark(text: &[u8]) -> &[u8]
    ensures result_value { result.now ≡ after_mark text.now }
    ensures ref_ptr_value { result.ref_ptr ≡ bytes_behind (mark_length text.now) text.entry.ref_ptr }
{
    let n = mark_length(text);
    &text[n..]
}
