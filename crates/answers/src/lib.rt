// The answers of all calls, with the paper's number and place for each (01, "Numbers that come back"; 15 is of 02, C-12).
#![tactic(auto)]

pub mod sizes;

ghost use Rattle.std.specs.Prelude.{◌≡◌};
ghost use Rattle.answers.specs.Outcomes.{number_of, place_of, refusal_number_of, refusal_place_of, key_with};

#[derive(Clone, Copy, Debug, PartialEq, Eq)]
pub enum Refusal {
    UnknownSet,
    WrongLength,
    CoefficientOutside,
    MaskOutside,
    ImproperList,
    RelationBroken,
    KeyTooLong,
    DrawRejected,
    WordMissing,
    EntryBeyond(u32),
    SumAbove,
    ListsDiffer,
    HeaderMalformed(u32),
    OutputShort,
    CountsWrong,
}

// What a call comes to.
pub type Outcome = Result<(), Refusal>;

impl Refusal {
    // By cases: two refusals carry a place, so that a cast has no meaning.
    pub fn number(self) -> u32
        ensures { result ≡ refusal_number_of self }
    {
        match self {
            Refusal::UnknownSet => 1,
            Refusal::WrongLength => 2,
            Refusal::CoefficientOutside => 3,
            Refusal::MaskOutside => 4,
            Refusal::ImproperList => 5,
            Refusal::RelationBroken => 6,
            Refusal::KeyTooLong => 7,
            Refusal::DrawRejected => 8,
            Refusal::WordMissing => 9,
            Refusal::EntryBeyond(_) => 10,
            Refusal::SumAbove => 11,
            Refusal::ListsDiffer => 12,
            Refusal::HeaderMalformed(_) => 13,
            Refusal::OutputShort => 14,
            Refusal::CountsWrong => 15,
        }
    }

    pub fn place(self) -> u32
        ensures { result ≡ refusal_place_of self }
    {
        match self {
            Refusal::EntryBeyond(place) => place,
            Refusal::HeaderMalformed(place) => place,
            _ => 0,
        }
    }
}

pub fn number(outcome: Outcome) -> u32
    ensures { result ≡ number_of outcome }
{
    match outcome {
        Ok(()) => 0,
        Err(refusal) => refusal.number(),
    }
}

pub fn place(outcome: Outcome) -> u32
    ensures { result ≡ place_of outcome }
{
    match outcome {
        Ok(()) => 0,
        Err(refusal) => refusal.place(),
    }
}

// The key number that comes back: 0 with a refusal (02, C-13).
pub fn key_with(outcome: Outcome, key: u32) -> u32
    ensures { result ≡ key_with outcome key }
{
    if outcome.is_ok() { key } else { 0 }
}
