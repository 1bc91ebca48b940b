// Stage 3 of the rules for groups: members.rt reads a group once, straight into its row of the plan; group.rt has the tables of groups.
#![tactic(auto)]

ghost use Rattle.std.specs.Prelude.{◌≡◌};
ghost use Rattle.reading.specs.Verdicts.{framing, answer_at};

pub mod group;
pub mod members;

use element::Refusal;
use format::causes;
use frame::Spot;

// A fault of stages 2 and 3: the cause, the type at fault, and its place in the message: the element's own, or where one is missing that of the group
// that lacks it.
#[derive(Clone, Copy)]
pub struct Fault {
    pub cause: u64,
    pub kind: u64,
    pub place: usize,
}

// A fault of the framing has one cause.
impl From<Spot> for Fault {
    ghost from_gives = { λ s f. f ≡ framing s };

    fn from(spot: Spot) -> Fault {
        Fault {
            cause: causes::WRONG_LENGTH,
            kind: spot.kind,
            place: spot.place,
        }
    }
}

// The answer on an element of a type at a place: what was read, or the refusal as a fault.
pub fn answer_at<T>(answer: Result<T, Refusal>, kind: u64, place: usize) -> Result<T, Fault>
    ensures { result ≡ answer_at kind place answer }
{
    match answer {
        Ok(x) => Ok(x),
        Err(refusal) => Err(Fault {
            cause: element::cause_of(refusal),
            kind,
            place,
        }),
    }
}
