// White space.
ghost use Rattle.std.specs.Prelude.{◌≡◌};
ghost use Rattle.characters.specs.Space.{is_white};

pub fn is_white(c: u32) -> bool
    ensures { result ≡ is_white c }
{
    match c {
        0x9..=0xD
        | 0x20
        | 0x85
        | 0xA0
        | 0x1680
        | 0x2000..=0x200A
        | 0x2028
        | 0x2029
        | 0x202F
        | 0x205F
        | 0x3000 => true,
        _ => false,
    }
}
