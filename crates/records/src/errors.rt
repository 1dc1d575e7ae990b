// The kinds of errors (document 01, "Records"), each with the code point where it carries one.
ghost use Rattle.std.specs.Prelude.{◌≡◌, true};
ghost use Rattle.records.specs.Kinds.{is_error_kind};
ghost use Rattle.records.specs.Errors.{kind_of, kind_number, kind_code};

#[derive(Clone, Copy)]
pub enum ErrorKind {
    UnexpectedCharacter(u32),
    UnterminatedBlockComment,
    UnterminatedRawString,
    UnterminatedString,
    LineFeedInString,
    BadUnicodeEscape,
    BadEscape(u32),
    UnterminatedInterpolation,
    UnterminatedCharacter,
    UnterminatedDocComment,
}

impl ErrorKind {
    // The kind of this number, with this code point where it carries one.
    #[tactic(auto, unfolding(crate::specs::Errors::kind_of))]
    pub fn of(number: u8, code: u32) -> ErrorKind
        requires { is_error_kind number ≡ true }
        ensures { result ≡ kind_of number code }
    {
        match number {
            1 => ErrorKind::UnexpectedCharacter(code),
            2 => ErrorKind::UnterminatedBlockComment,
            3 => ErrorKind::UnterminatedRawString,
            4 => ErrorKind::UnterminatedString,
            5 => ErrorKind::LineFeedInString,
            6 => ErrorKind::BadUnicodeEscape,
            7 => ErrorKind::BadEscape(code),
            8 => ErrorKind::UnterminatedInterpolation,
            9 => ErrorKind::UnterminatedCharacter,
            _ => ErrorKind::UnterminatedDocComment,
        }
    }

    // The number that a record holds.
    pub fn number(self) -> u8
        ensures { result ≡ kind_number self }
    {
        match self {
            ErrorKind::UnexpectedCharacter(_) => 1,
            ErrorKind::UnterminatedBlockComment => 2,
            ErrorKind::UnterminatedRawString => 3,
            ErrorKind::UnterminatedString => 4,
            ErrorKind::LineFeedInString => 5,
            ErrorKind::BadUnicodeEscape => 6,
            ErrorKind::BadEscape(_) => 7,
            ErrorKind::UnterminatedInterpolation => 8,
            ErrorKind::UnterminatedCharacter => 9,
            ErrorKind::UnterminatedDocComment => 10,
        }
    }

    // The code point, where the kind carries one.
    pub fn code(self) -> Option<u32>
        ensures { result ≡ kind_code self }
    {
        match self {
            ErrorKind::UnexpectedCharacter(c) => Some(c),
            ErrorKind::BadEscape(c) => Some(c),
            _ => None,
        }
    }
}
