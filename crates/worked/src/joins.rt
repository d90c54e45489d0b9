// Joins of a few grades.
ghost use Rattle.std.specs.Prelude.{◌≡◌};
ghost use Rattle.worked.specs.Cases.{joins};

use crate::grades::{odds, tally};
use standpoint::{Kind, Odds, Surcharge, Tally};

// What the joins come to.
#[derive(Clone, Copy)]
pub struct Joins {
    // 100 with 100, and that with 7.
    pub odds_once: u8,
    pub odds_from_left: u8,
    // 100 with 7, and 100 with that: odds do not associate.
    pub odds_other: u8,
    pub odds_from_right: u8,
    // 200 with 230, surcharged with 250.
    pub surcharge: u8,
    // The largest tally with 1.
    pub tally_held: u32,
}

pub(crate) fn joined() -> Joins
    ensures { result ≡ joins }
{
    let once = Odds.join(odds(100), odds(100));
    let other = Odds.join(odds(100), odds(7));
    let surcharged = Surcharge {
        below: Odds,
        extra: odds(250),
    };
    Joins {
        odds_once: once.value,
        odds_from_left: Odds.join(once, odds(7)).value,
        odds_other: other.value,
        odds_from_right: Odds.join(odds(100), other).value,
        surcharge: surcharged.join(odds(200), odds(230)).value,
        tally_held: Tally.join(tally(u32::MAX), tally(1)).value,
    }
}
