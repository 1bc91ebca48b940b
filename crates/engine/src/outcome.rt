// Why a call has no reply.
ghost use Rattle.std.specs.Prelude.{◌≡◌};
ghost use Rattle.engine.specs.Outcomes.{number_of, unserved_as};
ghost use Rattle.engine.specs.declared.outcome.Outcome.TheVariants as outcomes;

use frame::header::Unserved;
use table::Broken;

// The outcomes but 0, in the order of their numbers from 1 on, by which C knows them.
#[derive(Clone, Copy, Debug, PartialEq, Eq)]
pub enum Outcome {
    // The table is broken; or the peer's store is.
    Broken,
    // The reply space has under 1,280 octets.
    LittleSpace,
    TooLong,
    Malformed,
    NotServed,
    // The request is not stored, and its number is not newer than that of the request stored last.
    Old,
    // The number is no peer's.
    NoPeer,
}

impl From<Broken> for Outcome {
    ghost from_gives = { λ _ o. o ≡ outcomes.Broken };

    fn from(_broken: Broken) -> Outcome {
        Outcome::Broken
    }
}

impl From<Unserved> for Outcome {
    ghost from_gives = { λ u o. o ≡ unserved_as u };

    fn from(unserved: Unserved) -> Outcome {
        match unserved {
            Unserved::TooLong => Outcome::TooLong,
            Unserved::Malformed => Outcome::Malformed,
            Unserved::NotServed => Outcome::NotServed,
        }
    }
}

impl From<Outcome> for u32 {
    ghost from_gives = { λ o n. n ≡ number_of o };

    fn from(outcome: Outcome) -> u32 {
        match outcome {
            Outcome::Broken => 1,
            Outcome::LittleSpace => 2,
            Outcome::TooLong => 3,
            Outcome::Malformed => 4,
            Outcome::NotServed => 5,
            Outcome::Old => 6,
            Outcome::NoPeer => 7,
        }
    }
}
