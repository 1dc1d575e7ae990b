// The host's call that prints a script.
#![tactic(auto)]

ghost use Rattle.std.specs.Prelude.{◌≡◌, drop};
ghost use Rattle.host_printing.specs.Prints.{print_values, HostPrinted};

use host_answers::put_answer;

// The slots of an answer.
pub const PRINT_SLOTS: usize = 2;

// The bytes written, behind the figure's slot.
fn print_slots(n: usize) -> [u64; PRINT_SLOTS]
    ensures { drop 1 result ≡ print_values n }
{
    [0, n as u64]
}

// Prints a script into a lent buffer.
pub fn print(script: &[u8], out: &mut [u8], answer: &mut [u64; PRINT_SLOTS]) -> u64
    ensures { HostPrinted script.now out.old answer.old result out.new answer.new }
{
    put_answer(printing::print(script, out).map(print_slots), answer)
}
