// Lists the tokens and errors of the script on standard input, which has at most 1,024 bytes (document 01, under "Small scripts").
#![tactic(auto)]

ghost use Rattle.std.specs.Prelude.{◌≡◌, ◌≤◌, length};
ghost use Rattle.input.specs.Input.{InputWithin};
ghost use Rattle.listing.specs.Listing.{LONGEST};
ghost use Rattle.tokens.specs.Written.{written};

use std::io;
use std::io::Write;

// The listing of the bytes that were read, in a buffer that holds every listing; nothing if a read failed.
fn listed<'a>(buf: &[u8], got: io::Result<usize>, out: &'a mut [u8]) -> &'a mut [u8]
    requires input_within { InputWithin got buf.now }
    requires in_bounds { LONGEST ≤ length out.old }
    ensures { result.now ≡ written got buf.now }
{
    let Ok(n) = got else {
        return &mut out[..0];
    };
    let k = listing::list(&buf[..n], out);
    &mut out[..k]
}

// One byte more than a script may have is read, so that a longer input is told from one that fits. A write that fails is the program's
// error.
fn main(rt: HostRuntime) -> io::Result<()> {
    let mut buf = [0u8; listing::LISTED + 1];
    let got = input::read_input(&mut rt.stdin(), &mut buf);
    let mut out = listing::zeros::<{ listing::LONGEST }>();
    let lines = listed(&buf, got, &mut out);
    rt.stdout().write_all(lines)
}
