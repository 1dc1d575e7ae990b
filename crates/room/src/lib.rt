// What a script takes of the three buffers, and what any takes at most.
#![tactic(auto)]

ghost use Rattle.std.specs.Prelude.{◌≡◌, ◌≤◌};
ghost use Rattle.rules.specs.Script.{LIMIT};
ghost use Rattle.room.specs.Room.{roomy};

use records::fields::{LONGEST_ERROR, LONGEST_TOKEN};

// The bytes used in each buffer, the number of tokens, and whether nothing is open at the end. The numbers count either way, so the
// flag is no Option.
#[derive(Clone, Copy)]
pub struct Used {
    pub tokens: usize,
    pub texts: usize,
    pub errors: usize,
    pub count: usize,
    pub closed: bool,
}

// Whether buffers of these sizes hold what any text of n bytes can take. The sizes are three numbers, as the papers name the buffers one by
// one: a struct of them would be built for this call and the questions' alone.
pub fn is_roomy(n: usize, tokens: usize, texts: usize, errors: usize) -> bool
    requires { n ≤ LIMIT }
    ensures { result ≡ roomy n tokens texts errors }
{
    (LONGEST_TOKEN * (n + 1) <= tokens) & (2 * n + 2 <= texts) & (LONGEST_ERROR * n <= errors)
}
