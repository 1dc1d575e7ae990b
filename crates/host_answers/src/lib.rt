// What the calls of the host have in common.
#![tactic(auto)]

ghost use Rattle.std.specs.Prelude.{◌≡◌, ◌<◌, drop};
ghost use Rattle.refusals.specs.Answers.{of_answer};
ghost use Rattle.host_answers.specs.Answers.{number_of, slots_after, truth};

use refusals::Refusal;

// The slot of the figure, the first of each answer. A yes keeps it, and a refusal sets no other.
pub const FIGURE: usize = 0;

// 1 for true, 0 for false.
pub fn truth_of(b: bool) -> u64
    ensures { result ≡ truth b }
{
    u64::from(b)
}

// An answer as a number and slots. The values of a yes stand where their slots are; the one at the figure's is not used.
pub fn put_answer<const N: usize>(answer: Result<[u64; N], Refusal>, slots: &mut [u64; N]) -> u64
    requires { 0 < N }
    ensures value { result ≡ number_of (of_answer answer.entry) }
    ensures slots_after { slots.new ≡ slots_after (drop 1) (of_answer answer.entry) slots.old }
{
    match answer {
        Ok(values) => {
            let kept = slots[FIGURE];
            *slots = values;
            slots[FIGURE] = kept;
            0
        }
        Err(refusal) => {
            slots[FIGURE] = refusal.figure();
            refusal.number()
        }
    }
}
