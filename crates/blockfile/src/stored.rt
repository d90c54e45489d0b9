// Kinds whose grades can stand in a file.
ghost use Rattle.std.specs.Prelude.{◌≡◌, ℕ, Some, Option};
ghost use Rattle.std.proofs.Common.{ap, rules};
ghost use Rattle.blockfile.specs.Codes.{or_no_grade, tally_code, tally_of, letter_code, letter_of, odds_code, odds_of};
ghost use Rattle.standpoint.specs.Grades.{tally_grade, odds_grade};
ghost use Rattle.blockfile.specs.Coded.{bounded_some, bounded_only};

use standpoint::{
    Kind, Letter, LetterGrade, Odds, OddsGrade, Refusal, Surcharge, Tally, TallyGrade,
};

// A kind with a byte that names it and a code for each grade.
pub trait StoredKind: Kind {
    // The kind byte of every block.
    const KIND_BYTE: u8;

    ghost KIND_BYTE: { ℕ };

    ghost coded: { Self.Grade → ℕ };

    ghost decoded: { ℕ → Option Self.Grade };

    // The code of a grade.
    fn encode(grade: Self::Grade) -> u32
        ensures { result ≡ coded grade };

    // The grade of a code; refuses a code that is no grade.
    fn decode(code: u32) -> Result<Self::Grade, Refusal>
        ensures { result ≡ or_no_grade (decoded code) };

    // The code of a grade gives that grade, and nothing else decodes.
    ghost back: { (x : Self.Grade) → decoded (coded x) ≡ Some x };

    ghost forth: { (n : ℕ) (x : Self.Grade) → decoded n ≡ Some x → coded x ≡ n };
}

impl StoredKind for Tally {
    const KIND_BYTE: u8 = b'T';

    ghost KIND_BYTE = { 84 };

    ghost coded = { tally_code };

    ghost decoded = { tally_of };

    ghost back = { λ x. bounded_some 4294967295 tally_grade x.value x.within };

    ghost forth = { λ n x is. ap tally_code (bounded_only 4294967295 tally_grade n x is).1 };

    fn encode(grade: TallyGrade) -> u32 {
        grade.value
    }

    fn decode(code: u32) -> Result<TallyGrade, Refusal> {
        Ok(TallyGrade { value: code })
    }
}

impl StoredKind for Letter {
    const KIND_BYTE: u8 = b'L';

    ghost KIND_BYTE = { 76 };

    ghost coded = { letter_code };

    ghost decoded = { letter_of };

    ghost back = { Prim.search rules };

    ghost forth = { Prim.search rules };

    fn encode(grade: LetterGrade) -> u32 {
        grade as u32
    }

    // A match, since the letters stand in a crate that knows no codes: it has no TryFrom<u32>.
    fn decode(code: u32) -> Result<LetterGrade, Refusal> {
        match code {
            0 => Ok(LetterGrade::A),
            1 => Ok(LetterGrade::B),
            2 => Ok(LetterGrade::C),
            3 => Ok(LetterGrade::D),
            4 => Ok(LetterGrade::E),
            _ => Err(Refusal::NoGrade),
        }
    }
}

// Beside tallies an impl of its own: each kind names its grade's type, and the ranges of the values differ.
impl StoredKind for Odds {
    const KIND_BYTE: u8 = b'O';

    ghost KIND_BYTE = { 79 };

    ghost coded = { odds_code };

    ghost decoded = { odds_of };

    ghost back = { λ x. bounded_some 255 odds_grade x.value x.within };

    ghost forth = { λ n x is. ap odds_code (bounded_only 255 odds_grade n x is).1 };

    fn encode(grade: OddsGrade) -> u32 {
        u32::from(grade.value)
    }

    fn decode(code: u32) -> Result<OddsGrade, Refusal> {
        let value = u8::try_from(code).map_err(|_| Refusal::NoGrade)?;
        Ok(OddsGrade { value })
    }
}

impl<K: StoredKind + Drop> StoredKind for Surcharge<K> {
    const KIND_BYTE: u8 = K::KIND_BYTE;

    ghost KIND_BYTE = { K.StoredKind.KIND_BYTE };

    ghost coded = { K.StoredKind.coded };

    ghost decoded = { K.StoredKind.decoded };

    ghost back = { Prim.search rules };

    ghost forth = { Prim.search rules };

    fn encode(grade: K::Grade) -> u32 {
        K::encode(grade)
    }

    fn decode(code: u32) -> Result<K::Grade, Refusal> {
        K::decode(code)
    }
}
