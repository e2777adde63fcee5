// What the value calls answer, as definitions, with the laws about them.
#![tactic(auto)]

ghost use Rattle.std.specs.Prelude.{◌≡◌};
ghost use Rattle.reading.specs.Refusals.{number_of};
ghost use Rattle.values.specs.Integer.{answer, refusal};

use reading::Refused;

// The answer of the Integer call: number (0 accepted), place, count and value.
#[derive(Clone, Copy)]
pub struct IntegerAnswer {
    pub number: u32,
    pub place: usize,
    pub count: usize,
    pub value: i64,
}

impl IntegerAnswer {
    pub fn accepted(place: usize, value: i64) -> IntegerAnswer
        ensures { result ≡ answer 0 place value }
    {
        IntegerAnswer {
            number: 0,
            place,
            count: 0,
            value,
        }
    }
}

impl From<Refused> for IntegerAnswer {
    ghost from_gives = { λ refused a. a ≡ refusal (number_of refused.refusal) refused.place };

    fn from(refused: Refused) -> IntegerAnswer {
        IntegerAnswer {
            number: refused.refusal as u32,
            place: refused.place,
            count: 0,
            value: 0,
        }
    }
}
