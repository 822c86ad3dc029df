// Every refusal, by number.
use refusal::Refusal;

pub(crate) const ALL: [Refusal; 18] = [
    Refusal::TablesOutOfRange,
    Refusal::RoundsOutOfRange,
    Refusal::LayerOutOfRange,
    Refusal::BoardsPerSetOutOfRange,
    Refusal::StoreTooShort,
    Refusal::FirstRoundEmpty,
    Refusal::NoRoundLeft,
    Refusal::RoundNotCalled,
    Refusal::TableNotOccupied,
    Refusal::BoardNotInSet,
    Refusal::AlreadyReturned,
    Refusal::NotReturned,
    Refusal::ReturnOutOfRange,
    Refusal::NoRoundCalled,
    Refusal::ReturnMissing,
    Refusal::OutputTooShort,
    Refusal::BoardNotPlayed,
    Refusal::NotASlip,
];
