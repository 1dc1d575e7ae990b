// Where the first error of a script starts.
#![tactic(auto)]

ghost use Rattle.std.specs.Prelude.{◌≡◌};
ghost use Rattle.rules.specs.Script.{script_errors};
ghost use Rattle.first_error.specs.First.{first_start};

use questions::script::Script;
use record_reading::read::get32;
use records::fields::LONGEST_ERROR;

// Where the start stands in a record: after the kind.
const START: usize = 1;

// The start of the first error that is recorded, from the list loop over an error buffer of one record; 0 where there is none.
pub fn first_start(script: Script<'_>) -> usize
    ensures { result ≡ first_start (script_errors script.entry.bytes.now) }
{
    let mut tokens = [0u8; 0];
    let mut texts = [0u8; 0];
    let mut errors = [0u8; LONGEST_ERROR];
    list_loop::run(script, &mut tokens, &mut texts, &mut errors);
    get32(&errors, START)
}
