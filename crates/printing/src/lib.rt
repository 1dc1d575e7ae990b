// The office print of a script.
#![tactic(auto)]

ghost use Rattle.std.specs.Prelude.{◌≤◌, length};
ghost use Rattle.printing.specs.Passes.{WalkedFront};
ghost use Rattle.printing.specs.Printing.{Printed};

use first_error::first_start;
use print_loop::write;
use print_places::Flawed;
use questions::ask_text;
use questions::script::Script;
use refusals::Refusal;

// One pass of the print, over the first n bytes of a buffer; the others keep, which the promise says of the whole buffer.
fn write_front(script: Script<'_>, out: &mut [u8], n: usize) -> Result<usize, Flawed>
    requires { n ≤ length out.old }
    ensures { WalkedFront script.entry.bytes.now n out.old out.new result }
{
    write(script, &mut out[..n])
}

// Prints a script into a lent buffer: after the questions 1 and 2 whether it has an error, and whether the buffer holds its print. The first
// pass writes no byte: it finds an error, and counts the bytes.
pub fn print(script: &[u8], out: &mut [u8]) -> Result<usize, Refusal>
    ensures { Printed script.now out.old result out.new }
{
    let script = ask_text(script)?;
    let size = out.len();
    let Ok(bytes) = write_front(script, out, 0) else {
        return Err(Refusal::Mistake(first_start(script) as u64));
    };
    if size < bytes {
        return Err(Refusal::Print(bytes as u64));
    }
    let _ = write_front(script, out, bytes);
    Ok(bytes)
}
