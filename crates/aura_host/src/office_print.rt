// Printing.
ghost use Rattle.host_printing.specs.Prints.{HostPrinted};

use host_printing::PRINT_SLOTS;

// Writes the office print of a script into a lent buffer.
#[unsafe(no_mangle)]
pub extern "C" fn aura_print(
    script: &[u8],
    print: &mut [u8],
    answer: &mut [u64; PRINT_SLOTS],
) -> u64
    ensures { HostPrinted script.now print.old answer.old result print.new answer.new }
{
    host_printing::print(script, print, answer)
}
