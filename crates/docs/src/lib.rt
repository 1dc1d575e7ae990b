// The texts of documentation comments (lexer.rs, lines 931 to 983). Each function is handed the part of the script between the
// comment's marks and writes the comment's text into a lent buffer while it walks.
#![tactic(auto)]

ghost use Rattle.std.specs.Prelude.{◌≡◌, ◌+◌, ◌≤◌, ◌<◌, length, replicate};
ghost use Rattle.characters.specs.Utf8.{chars_of};
ghost use Rattle.rules.specs.Text.{LF};
ghost use Rattle.rules.specs.Docs.{trim, clean_doc};
ghost use Rattle.output.specs.Writing.{Put, PLACES};
ghost use Rattle.docs.specs.Texts.{LARGEST, line_text, feeds_after, Written};

use characters::space;

// So many line feeds.
fn put_feeds(texts: &mut [u8], at: usize, n: usize) -> usize
    requires { at + n ≤ PLACES }
    ensures { Put texts.old texts.new at (replicate n LF) result }
{
    let mut place = at;
    for _ in 0..n {
        place = output::put_byte(texts, place, b'\n');
    }
    place
}

// What a line adds: the line feeds that wait, and the line.
fn put_line(line: &[u8], feeds: usize, texts: &mut [u8], at: usize) -> usize
    requires line_len_bound { length line.now ≤ PLACES }
    requires feeds_bound { at + feeds ≤ PLACES }
    ensures { Put texts.old texts.new at (line_text feeds line.now) result }
{
    if line.is_empty() {
        return at;
    }
    let place = put_feeds(texts, at, feeds);
    output::put_bytes(line, texts, place)
}

// The line feeds that wait after a line, by whether it is empty. The flag says what the line was, in the words of the definition; two
// functions would have each caller ask it.
#[tactic(auto, unfolding(crate::specs::Texts::feeds_after))]
pub fn feeds_after(feeds: usize, empty: bool) -> usize
    requires { feeds < LARGEST }
    ensures { result ≡ feeds_after feeds empty }
{
    if !empty {
        return 1;
    }
    if feeds == 0 {
        return 0;
    }
    feeds + 1
}

// The text of a comment of three slashes: the part trimmed. The result is the place after it. The print begins with the same two calls
// (print_docs): each writes the line in its own way.
pub fn trim_text(part: &[u8], texts: &mut [u8], at: usize) -> usize
    requires { at + length part.now ≤ PLACES }
    ensures { Written part.now texts.old texts.new at (trim (chars_of part.now)) result }
{
    let start = doc_lines::past_chars(part, 0, space::is_white);
    let l = doc_lines::trimmed_line(part, start, |_| false);
    output::put_bytes(&part[l.from..l.to], texts, at)
}

// The text of a block: the part cleaned. The result is the place after it. The lines are no range and no iterator: each says where the next
// begins.
pub fn clean_doc(part: &[u8], texts: &mut [u8], at: usize) -> usize
    requires { at + length part.now ≤ PLACES }
    ensures { Written part.now texts.old texts.new at (clean_doc (chars_of part.now)) result }
{
    let mut place = 0;
    let mut feeds = 0;
    let mut end = at;
    loop {
        let l = doc_lines::line_at(part, place);
        end = put_line(&part[l.from..l.to], feeds, texts, end);
        let Some(next) = l.next else {
            return end;
        };
        feeds = feeds_after(feeds, l.from == l.to);
        place = next;
    }
}
