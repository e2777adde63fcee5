// The forms of a level.
#![tactic(auto)]

ghost use Rattle.level.specs.Levels.{Collects, LevelFound};

use lexicon::Head;
use moves::{Forms, Style};
use reading::{Refusal, Refused};

// The forms of the level of this number. A number that is no level's is refused.
pub fn level_of(number: u32) -> Result<Forms, Refused>
    ensures { LevelFound number result }
{
    match number {
        1 => Ok(Forms {
            arrays: false,
            sets: false,
            bags: false,
            intervals: false,
            leftward: true,
        }),
        2 => Ok(Forms {
            arrays: true,
            sets: true,
            bags: true,
            intervals: true,
            leftward: true,
        }),
        _ => Err(Refused {
            refusal: Refusal::Level,
            place: 0,
        }),
    }
}

// The collection that a head begins, if the level has it.
pub fn collection_of(forms: Forms, head: Head) -> Option<Style>
    ensures { Collects forms head result }
{
    match head {
        Head::Array => forms.arrays.then_some(Style::Array),
        Head::Set => forms.sets.then_some(Style::Set),
        Head::Bag => forms.bags.then_some(Style::Bag),
        _ => None,
    }
}
