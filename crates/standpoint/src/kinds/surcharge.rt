// A surcharge on every join of any kind.
ghost use Rattle.standpoint.specs.Grades.{surcharged};
ghost use Rattle.standpoint.specs.GradeLaws.{surcharge_laws};

use crate::kinds::Kind;

// The kind below, with one fixed grade joined, as second part, to every join's result.
#[derive(Drop)]
pub struct Surcharge<K: Kind + Drop> {
    pub below: K,
    pub extra: K::Grade,
}

impl<K: Kind + Drop> Kind for Surcharge<K> {
    type Grade = K::Grade;

    ghost algebra = { λ s. surcharged (K.Kind.algebra s.below) s.extra };

    ghost lawful = { λ s. surcharge_laws (K.Kind.algebra s.below) s.extra (K.Kind.lawful s.below) };

    fn start(&self) -> K::Grade {
        self.below.start()
    }

    fn no_worse(&self, a: K::Grade, b: K::Grade) -> bool {
        self.below.no_worse(a, b)
    }

    fn join(&self, a: K::Grade, b: K::Grade) -> K::Grade {
        let plain = self.below.join(a, b);
        self.below.join(plain, self.extra)
    }
}
