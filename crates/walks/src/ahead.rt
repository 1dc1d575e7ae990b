// What stands at a place.
ghost use Rattle.std.specs.Prelude.{◌≡◌};
ghost use Rattle.characters.specs.Utf8.{chars_at};
ghost use Rattle.rules.specs.Scan.{starts_with};
ghost use Rattle.bridge.specs.Bridge.{Letters};

// Whether these bytes stand at a place. The library's `starts_with` of the rest would ask that the place lies in the text.
pub fn stands_at<const N: usize>(text: &[u8], at: usize, mark: &[u8; N]) -> bool
    requires { Letters mark.now }
    ensures { result ≡ starts_with mark.now (chars_at text.now at) }
{
    for i in 0..N {
        if !bridge::is_at(text, at + i, mark[i]) {
            return false;
        }
    }
    true
}
