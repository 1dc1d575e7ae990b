// An input read in pieces, as they come. A read that fails is told from the end of the input, which is a read that answers 0.
#![tactic(auto)]

ghost use Rattle.std.specs.Prelude.{◌≡◌, ◌<◌, length, take};
ghost use Rattle.input.specs.Input.{piece_of, PieceWithin, PieceTaken, InputWithin, InputTaken};

use std::io::{self, Read};

// What a read gave: so many bytes, or none at the end of the input.
fn piece_of(got: io::Result<usize>) -> io::Result<Option<usize>>
    ensures { result ≡ piece_of got }
{
    match got {
        Ok(0) => Ok(None),
        Ok(n) => Ok(Some(n)),
        Err(e) => Err(e),
    }
}

// One read into the buffer from a place on. What stands before the place keeps.
fn read_piece<R: Read>(reader: &mut R, buf: &mut [u8], at: usize) -> io::Result<Option<usize>>
    requires { at < length buf.old }
    ensures piece_within { PieceWithin result at (length buf.new) }
    ensures buf_unchanged { take at buf.new ≡ take at buf.old }
    ensures taken { PieceTaken (R.remaining reader.old) (R.remaining reader.new) result at buf.new }
{
    let rest = &mut buf[at..];
    piece_of(reader.read(rest))
}

// Reads until the buffer is full, the input ends or a read fails: so many bytes stand at the front of the buffer then.
pub fn read_input<R: Read>(reader: &mut R, buf: &mut [u8]) -> io::Result<usize>
    ensures within { InputWithin result buf.new }
    ensures taken { InputTaken (R.remaining reader.old) (R.remaining reader.new) result buf.new }
{
    let mut n = 0;
    while n < buf.len() {
        let Some(more) = read_piece(reader, buf, n)? else {
            return Ok(n);
        };
        n += more;
    }
    Ok(n)
}
