// A script that has passed questions 1 and 2.
ghost use Rattle.std.specs.Prelude.{◌≡◌, true};
ghost use Rattle.rules.specs.Script.{accepted};

// A script that has passed questions 1 and 2, as `ask_text` gives it. It is the lent bytes, and the fact that they passed.
#[derive(Clone, Copy)]
pub struct Script<'a> {
    pub bytes: &'a [u8],
    ghost passed: { accepted bytes.now ≡ true },
}
