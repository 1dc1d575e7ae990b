// Where a run of bytes that pass a test ends: one walk for all such tests.
#![tactic(auto)]

ghost use Rattle.std.specs.Prelude.{◌≤◌, length};
ghost use Rattle.runs.specs.Runs.{RunTo};

// The place after the bytes from a place on that pass a test. It counts the place by itself: the library's `position` counts it beside
// its iterator, and a token took 4 % more instructions with it. That the place lies in the text is asked, here and wherever a slice and a place
// are lent: a type of both would be made anew at each place.
pub fn past<F: Fn(u8) -> bool>(text: &[u8], from: usize, test: F) -> usize
    requires from_in_bounds { from ≤ length text.now }
    requires callable { F.IsAlwaysCallable test }
    ensures { RunTo (F.post test) text.now from result }
{
    let mut at = from;
    while at < text.len() {
        if !test(text[at]) {
            return at;
        }
        at += 1;
    }
    at
}
