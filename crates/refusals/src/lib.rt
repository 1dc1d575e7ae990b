// The refusals: a question of the papers that was answered with no, and its figure.
#![tactic(auto)]

ghost use Rattle.std.specs.Prelude.{◌≡◌};
ghost use Rattle.refusals.specs.Refusals.{refusal_number, refusal_figure};

// The numbers of the questions, as include/aura_words.h names them. A text that is not UTF-8 has three, by the class of its first bad
// sequence.
pub const REFUSED_LENGTH: u64 = 1;

pub const REFUSED_UTF8: u64 = 2;

pub const REFUSED_TOKENS: u64 = 3;

pub const REFUSED_TEXTS: u64 = 4;

pub const REFUSED_ERRORS: u64 = 5;

pub const REFUSED_KIND: u64 = 6;

pub const REFUSED_PLACE: u64 = 7;

pub const REFUSED_TEXT: u64 = 8;

pub const REFUSED_CUT: u64 = 9;

pub const REFUSED_BARRED: u64 = 10;

pub const REFUSED_MISTAKE: u64 = 11;

pub const REFUSED_PRINT: u64 = 12;

// The question that was answered with no, and its figure: a number of 64 bits for every host. Where it is a `usize` it is made one by
// `as`, here and in the answers of the host, since there is no `From` for it.
#[derive(Clone, Copy, Debug, PartialEq, Eq)]
pub enum Refusal {
    // The script is too long: its length.
    Length(u64),
    // The text is not UTF-8: the first byte of the first bad sequence. Cut and Barred are two more classes of such a sequence.
    Utf8(u64),
    // A buffer is short: the bytes needed.
    Tokens(u64),
    Texts(u64),
    Errors(u64),
    // There is no such kind of token: that kind.
    Kind(u64),
    // No whole record starts at the place: the place.
    Place(u64),
    // The text does not lie inside its buffer: its offset.
    Text(u64),
    Cut(u64),
    Barred(u64),
    // The script has an error: where the first starts.
    Mistake(u64),
    // The print buffer is short: the bytes needed.
    Print(u64),
}

impl Refusal {
    // The number of the question.
    pub fn number(self) -> u64
        ensures { result ≡ refusal_number self }
    {
        match self {
            Refusal::Length(_) => REFUSED_LENGTH,
            Refusal::Utf8(_) => REFUSED_UTF8,
            Refusal::Tokens(_) => REFUSED_TOKENS,
            Refusal::Texts(_) => REFUSED_TEXTS,
            Refusal::Errors(_) => REFUSED_ERRORS,
            Refusal::Kind(_) => REFUSED_KIND,
            Refusal::Place(_) => REFUSED_PLACE,
            Refusal::Text(_) => REFUSED_TEXT,
            Refusal::Cut(_) => REFUSED_CUT,
            Refusal::Barred(_) => REFUSED_BARRED,
            Refusal::Mistake(_) => REFUSED_MISTAKE,
            Refusal::Print(_) => REFUSED_PRINT,
        }
    }

    // Its figure.
    pub fn figure(self) -> u64
        ensures { result ≡ refusal_figure self }
    {
        match self {
            Refusal::Length(figure)
            | Refusal::Utf8(figure)
            | Refusal::Tokens(figure)
            | Refusal::Texts(figure)
            | Refusal::Errors(figure)
            | Refusal::Kind(figure)
            | Refusal::Place(figure)
            | Refusal::Text(figure)
            | Refusal::Cut(figure)
            | Refusal::Barred(figure)
            | Refusal::Mistake(figure)
            | Refusal::Print(figure) => figure,
        }
    }
}
