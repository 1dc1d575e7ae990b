// A reader that holds a slice of token records and a place in it: thin methods over the functions of `record_reading`, whose answers hold
// the place where the reader then stands.
#![tactic(auto)]

ghost use Rattle.std.specs.Prelude.{◌≡◌};
ghost use Rattle.refusals.specs.Answers.{of_answer};
ghost use Rattle.record_reading.specs.Reading.{next_at, consume_at, match_at};

use record_reading::read;
use records::answers::TokenRecord;
use refusals::Refusal;

#[derive(Clone, Copy)]
pub struct Reader<'a> {
    pub records: &'a [u8],
    pub at: usize,
}

impl<'a> Reader<'a> {
    // A reader at the first record of a slice.
    pub fn new(records: &'a [u8]) -> Self
        ensures { (result.records ≡ records.entry) × (result.at ≡ 0) }
    {
        Reader { records, at: 0 }
    }

    // The reader at another place.
    pub fn moved(self, at: usize) -> Self
        ensures { (result.records ≡ self.entry.records) × (result.at ≡ at) }
    {
        Reader { at, ..self }
    }

    // The record where the reader stands. It moves behind it, but for EOF.
    pub fn next(&mut self) -> Result<TokenRecord, Refusal>
        ensures answer { of_answer result ≡ (next_at self.old.records.now self.old.at).answer }
        ensures moved { self.new.at ≡ (next_at self.old.records.now self.old.at).place }
        ensures records_unchanged { self.new.records ≡ self.old.records }
    {
        let (record, place) = read::next_token(self.records, self.at)?;
        self.at = place;
        Ok(record)
    }

    // The record where the reader stands, and whether it is of the kind asked for. It moves behind it either way, but for EOF.
    pub fn consume(&mut self, kind: u8) -> Result<(TokenRecord, bool), Refusal>
        ensures answer { of_answer result ≡ (consume_at self.old.records.now self.old.at kind).answer }
        ensures moved { self.new.at ≡ (consume_at self.old.records.now self.old.at kind).place }
        ensures records_unchanged { self.new.records ≡ self.old.records }
    {
        let (record, fits, place) = read::consume(self.records, self.at, kind)?;
        self.at = place;
        Ok((record, fits))
    }

    // Whether the record where the reader stands is of the kind asked for. It moves behind it only then.
    pub fn match_kind(&mut self, kind: u8) -> Result<bool, Refusal>
        ensures answer { of_answer result ≡ (match_at self.old.records.now self.old.at kind).answer }
        ensures moved { self.new.at ≡ (match_at self.old.records.now self.old.at kind).place }
        ensures records_unchanged { self.new.records ≡ self.old.records }
    {
        let (fits, place) = read::match_kind(self.records, self.at, kind)?;
        self.at = place;
        Ok(fits)
    }
}
