// One step inside a string: a literal piece, an interpolation, or the end of the string.
ghost use Rattle.std.specs.Prelude.{◌≡◌, ◌≤◌};
ghost use Rattle.bridge.specs.Bridge.{Within};
ghost use Rattle.string_runs.specs.Runs.{Room};
ghost use Rattle.strings.specs.Pieces.{literal_piece, PieceAt};

use super::Piece;
use characters::LINE_FEED;
use cursor::Cursor;
use interpolations::Given;
use records::answers::TokenRecord;
use records::errors::ErrorKind;
use rules::kinds;
use spans::Position;
use string_runs::Run;
use string_units::QUOTE;
use walks::error;

// The literal from `start` to `end` whose text stands in the texts from a place on, up to where the run `r` left off. The flag
// `ran_out` goes into the token, which counts either way.
fn literal(
    start: Position,
    end: Position,
    from: usize,
    r: Run,
    next: Cursor,
    ran_out: bool,
    errors: usize,
) -> Piece
    requires { from ≤ r.texts }
    ensures { result ≡ literal_piece start end from r next ran_out errors }
{
    let to = r.texts;
    let token = TokenRecord {
        kind: kinds::STRING_LITERAL,
        span: error::between(start, end),
        offset: from,
        length: to - from,
    };
    Piece::Token(Given {
        token,
        next,
        ran_out,
        texts: to,
        errors,
    })
}

// The step at p, inside the string that began at `start`; `first` is whether the string has only begun: an empty literal is then a
// token. It is a flag and no second function, since all else is the same.
pub fn piece(
    text: &[u8],
    p: Position,
    start: Position,
    first: bool,
    texts: &mut [u8],
    used_texts: usize,
    errors: &mut [u8],
    used_errors: usize,
) -> Piece
    requires within { Within text.now p }
    requires room { Room used_texts used_errors }
    ensures { PieceAt text.now p start first texts.old texts.new used_texts errors.old errors.new used_errors result }
{
    let r = string_runs::run_units(text, p, texts, used_texts, errors, used_errors);
    let stop = r.at;
    let Some((c, q)) = bridge::look(text, stop) else {
        let kind = ErrorKind::UnterminatedString;
        let noted = error::put_open(errors, r.errors, false, kind, stop, stop);
        let outside = Cursor::Outside(stop);
        return literal(start, stop, used_texts, r, outside, true, noted);
    };
    if c == LINE_FEED {
        let kind = ErrorKind::LineFeedInString;
        let noted = error::put_open(errors, r.errors, false, kind, start, stop);
        let next = Cursor::Outside(stop);
        return literal(start, stop, used_texts, r, next, false, noted);
    }
    if c == QUOTE {
        let next = Cursor::Outside(q);
        if first {
            return literal(start, q, used_texts, r, next, false, r.errors);
        }
        if r.texts == used_texts {
            return Piece::Over(q, r.errors);
        }
        return literal(start, q, used_texts, r, next, false, r.errors);
    }
    if r.texts == used_texts {
        let g = interpolations::interpolation(
            text, stop, start, texts, used_texts, errors, r.errors,
        );
        return Piece::Token(g);
    }
    let next = Cursor::InString(start, stop);
    literal(start, stop, used_texts, r, next, false, r.errors)
}
