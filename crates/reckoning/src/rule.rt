// The rules for a plan file, as the second reader knows them.
ghost use Rattle.std.specs.Prelude.{◌≡◌};
ghost use Rattle.reckoning.specs.Answers.{number_of};

use words::{Layer, Refusal};

// A rule, by the number of its refusal. The lower number is the graver.
#[derive(Clone, Copy, PartialEq, Eq, PartialOrd, Ord)]
pub enum Rule {
    Ended = 1,
    Misplaced = 2,
    Range = 3,
    TooMany = 4,
    Pair = 5,
    Overfull = 6,
    End = 7,
}

impl Rule {
    pub(crate) fn at(self, place: usize) -> Complaint
        ensures { (result.rule ≡ self) × (result.place ≡ place) }
    {
        Complaint { rule: self, place }
    }
}

// A rule that is broken, and where. The graver rule comes first, then the earlier place.
#[derive(Clone, Copy, PartialEq, Eq, PartialOrd, Ord)]
pub struct Complaint {
    pub rule: Rule,
    pub place: usize,
}

impl From<Complaint> for Refusal {
    ghost from_gives = { λ c r. (r.number ≡ number_of c.rule) × (r.place ≡ c.place) };

    fn from(complaint: Complaint) -> Refusal {
        let Complaint { rule, place } = complaint;
        let layer = match rule {
            Rule::Ended | Rule::Misplaced => Layer::Words,
            _ => Layer::Records,
        };
        Refusal {
            number: rule as u32,
            layer,
            place,
        }
    }
}
