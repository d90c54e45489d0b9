// Odds: by what share of 255 a statement is thought to hold.
ghost use Rattle.std.specs.Prelude.{◌≡◌, ◌*◌, ◌/◌};
ghost use Rattle.standpoint.specs.Grades.{odds};
ghost use Rattle.standpoint.specs.GradeLaws.{odds_laws};

use crate::kinds::Kind;
use crate::kinds::grades::OddsGrade;

// Larger is better; a join is the product as a share of 255, the fraction dropped.
#[derive(Clone, Copy)]
pub struct Odds;

impl Kind for Odds {
    type Grade = OddsGrade;

    ghost algebra = { λ _. odds };

    ghost lawful = { λ k. odds_laws };

    fn start(&self) -> OddsGrade {
        OddsGrade { value: 255 }
    }

    fn no_worse(&self, a: OddsGrade, b: OddsGrade) -> bool {
        a >= b
    }

    fn join(&self, a: OddsGrade, b: OddsGrade) -> OddsGrade {
        OddsGrade {
            value: share(a.value, b.value),
        }
    }
}

fn share(a: u8, b: u8) -> u8
    ensures { result ≡ a * b / 255 }
{
    (u16::from(a) * u16::from(b) / 255) as u8
}
