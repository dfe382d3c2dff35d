// Pairings: two grades kept side by side.
ghost use Rattle.std.specs.Prelude.{◌≡◌};
ghost use Rattle.grades.specs.Pairs.{paired, pair_with, pair_covers, pair_taking, pair_reading, pair_writing};
ghost use Rattle.grades.specs.PairLaws.{pair_laws};
ghost use Rattle.grades.specs.PairWords.{pair_text};

use crate::algebra::{Algebra, Written};
use text::put_bytes;

// A grade of one algebra with a grade of another.
#[derive(Clone, Copy, Debug, PartialEq, Eq)]
pub struct Pair<A, B> {
    pub first: A,
    pub second: B,
}

impl<A, B> Pair<A, B> {
    // The pair of the first parts under one operation, and of the second parts under another.
    fn combined<F: FnOnce(A, A) -> A, G: FnOnce(B, B) -> B>(
        self,
        other: Pair<A, B>,
        f: F,
        g: G,
    ) -> Pair<A, B>
        requires first { F.pre f self.first other.first }
        requires second { G.pre g self.second other.second }
        ensures first { F.post f self.first other.first result.first }
        ensures second { G.post g self.second other.second result.second }
    {
        Pair {
            first: f(self.first, other.first),
            second: g(self.second, other.second),
        }
    }
}

impl<A: Algebra, B: Algebra> Algebra for Pair<A, B> {
    ghost nil = { paired A.Algebra.nil B.Algebra.nil };

    ghost unit = { paired A.Algebra.unit B.Algebra.unit };

    ghost plus = { pair_with A.Algebra.plus B.Algebra.plus };

    ghost times = { pair_with A.Algebra.times B.Algebra.times };

    ghost lub = { pair_with A.Algebra.lub B.Algebra.lub };

    ghost permits = { pair_covers A.Algebra.permits B.Algebra.permits };

    ghost taking = { pair_taking A.Algebra.taking B.Algebra.taking };

    ghost kept = { pair_laws A.Algebra.kept B.Algebra.kept };

    fn zero() -> Pair<A, B> {
        Pair {
            first: A::zero(),
            second: B::zero(),
        }
    }

    fn one() -> Pair<A, B> {
        Pair {
            first: A::one(),
            second: B::one(),
        }
    }

    fn sum(self, other: Pair<A, B>) -> Pair<A, B> {
        self.combined(other, A::sum, B::sum)
    }

    fn product(self, other: Pair<A, B>) -> Pair<A, B> {
        self.combined(other, A::product, B::product)
    }

    fn join(self, other: Pair<A, B>) -> Pair<A, B> {
        self.combined(other, A::join, B::join)
    }

    // `&&` of two calls is shorter here and in `covers` than a function over two closures.
    fn same(self, other: Pair<A, B>) -> bool {
        self.first.same(other.first) && self.second.same(other.second)
    }

    fn covers(self, other: Pair<A, B>) -> bool {
        self.first.covers(other.first) && self.second.covers(other.second)
    }

    fn take(self) -> Option<Pair<A, B>> {
        let first = self.first.take()?;
        let second = self.second.take()?;
        Some(Pair { first, second })
    }
}

impl<A: Written, B: Written> Written for Pair<A, B> {
    ghost reading = { pair_reading A.Written.reading B.Written.reading };

    ghost writing = { pair_writing A.Written.writing B.Written.writing };

    ghost text = { pair_text A.Written.text B.Written.text };

    fn read(bytes: &[u8]) -> Option<(Pair<A, B>, usize)> {
        let (first, len) = A::read(bytes)?;
        let rest = bytes.get(len..)?.strip_prefix(b"|")?;
        let (second, more) = B::read(rest)?;
        if more > rest.len() {
            return None;
        }
        Some((Pair { first, second }, len + (1 + more)))
    }

    fn room_after(self, room: usize) -> Option<usize> {
        let room = self.first.room_after(room)?;
        let room = text::room_after(1, room)?;
        self.second.room_after(room)
    }

    fn write(self, out: &mut [u8], at: usize) -> Option<usize> {
        let room = out.len().checked_sub(at)?;
        self.room_after(room)?;
        let at = self.first.write(out, at)?;
        let at = put_bytes(b"|", out, at)?;
        self.second.write(out, at)
    }
}
