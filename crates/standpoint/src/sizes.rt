// How many names a vocabulary has.
ghost use Rattle.standpoint.specs.Refusals.{Tested};
ghost use Rattle.standpoint.specs.Sizes.{InRange};
ghost use Rattle.standpoint.specs.declared.refusal.Refusal.TheVariants.{SizesOutOfRange};

use crate::refusal::Refusal;

// The number of standpoints, concepts, roles and individuals, each sort numbered from 0.
#[derive(Clone, Copy, Default)]
pub struct Sizes {
    // Standpoint 0 is that of all.
    pub standpoints: u16,
    // Concept 0 is top, 1 is bottom.
    pub concepts: u16,
    pub roles: u16,
    // The individuals are the concepts from 2 on.
    pub individuals: u16,
}

impl Sizes {
    // Refuses sizes outside their ranges.
    pub fn check(&self) -> Result<(), Refusal>
        ensures { Tested (InRange self.now) SizesOutOfRange result }
    {
        let standpoints = (1..=16).contains(&self.standpoints);
        let concepts = (2..=64).contains(&self.concepts);
        let individuals = self.individuals <= 16 && self.individuals + 2 <= self.concepts;
        if standpoints && concepts && self.roles <= 16 && individuals {
            Ok(())
        } else {
            Err(Refusal::SizesOutOfRange)
        }
    }
}
