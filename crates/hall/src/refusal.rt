// Why a call is turned down. Each refusal has the number that a caller gets; 7 is not given.
ghost use Rattle.std.specs.Prelude.{◌≡◌};
ghost use Rattle.rules.specs.declared.Outcome.TheVariants.{Refused};
ghost use Rattle.hall.specs.Refusal.{number_of, outcome_of};

use super::Hall;
use rules::Outcome;

#[derive(Clone, Copy, Debug, PartialEq, Eq)]
pub enum Refusal {
    Short,
    Columns,
    Unsound,
    NoClient,
    Taken,
    Idle,
    NoEntry,
    Pending,
    Worn,
    Occupied,
    Reversed,
    TallyFull,
}

impl Refusal {
    // The paper's number.
    pub fn number(self) -> u32
        ensures { result ≡ number_of self }
    {
        match self {
            Refusal::Short => Hall::REFUSED_SHORT,
            Refusal::Columns => Hall::REFUSED_COLUMNS,
            Refusal::Unsound => Hall::REFUSED_UNSOUND,
            Refusal::NoClient => Hall::REFUSED_NO_CLIENT,
            Refusal::Taken => Hall::REFUSED_TAKEN,
            Refusal::Idle => Hall::REFUSED_IDLE,
            Refusal::NoEntry => Hall::REFUSED_NO_ENTRY,
            Refusal::Pending => Hall::REFUSED_PENDING,
            Refusal::Worn => Hall::REFUSED_WORN,
            Refusal::Occupied => Hall::REFUSED_OCCUPIED,
            Refusal::Reversed => Hall::REFUSED_REVERSED,
            Refusal::TallyFull => Hall::REFUSED_TALLY_FULL,
        }
    }
}

impl From<Refusal> for Outcome {
    ghost from_gives = { λ r o. o ≡ Refused (number_of r) };

    fn from(refusal: Refusal) -> Outcome {
        Outcome::Refused(refusal.number())
    }
}

// What a call answers with whose steps may be turned down on the way.
pub fn outcome_of(tried: Result<Outcome, Refusal>) -> Outcome
    ensures { result ≡ outcome_of tried }
{
    match tried {
        Ok(out) => out,
        Err(refusal) => Outcome::from(refusal),
    }
}
