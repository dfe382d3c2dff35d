// Usages: how often each open binder is used.
ghost use Rattle.std.specs.Prelude.{◌≡◌, ◌<◌, ◌≤◌, length, take, replicate, slice_index_or, slice_set};
ghost use Rattle.typing.specs.Usages.{binder_by_binder, sum, join, product};
ghost use Rattle.judge.specs.Newest.{newest};

use grades::Algebra;

// No more than 31 binders are open: eight inputs, and 23 functions around a term of depth 24.
const OPEN: usize = 32;

// A grade for each open binder, the outermost first; what stands behind the open ones does not count. An array and no `Vec`,
// since a session takes no memory once it is made.
#[derive(Clone, Copy, PartialEq, Eq, Debug)]
pub(crate) struct Usage<G> {
    grades: [G; OPEN],
}

impl<G: Algebra> Usage<G> {
    // No binder is used.
    pub(crate) fn none() -> Usage<G>
        ensures { result.grades ≡ replicate 32 G.Algebra.nil }
    {
        Usage {
            grades: [G::zero(); OPEN],
        }
    }

    // The binder at `level`, from the outermost inwards, is used once.
    pub(crate) fn once(level: usize) -> Usage<G>
        requires { level < 32 }
        ensures { result.grades ≡ slice_set (replicate 32 G.Algebra.nil) level G.Algebra.unit }
    {
        let mut usage = Usage::none();
        usage.grades[level] = G::one();
        usage
    }

    // How often the binder at `level` is used.
    pub(crate) fn get(&self, level: usize) -> G
        requires { level < 32 }
        ensures { result ≡ slice_index_or self.now.grades level G.Algebra.nil }
    {
        self.grades[level]
    }

    // The usages of the first binders.
    pub(crate) fn first(&self, n: usize) -> &[G]
        requires { n ≤ 32 }
        ensures usages { result.now ≡ take n self.now.grades }
        ensures many { length result.now ≡ n }
    {
        &self.grades[..n]
    }

    // The usage is combined with another, binder by binder, for the first `count` binders.
    fn combine_with<F: Fn(G, G) -> G>(&mut self, other: &Usage<G>, count: usize, combine: F)
        requires few { count ≤ 32 }
        requires callable { F.IsAlwaysCallable combine }
        ensures { (f : G → G → G) → ((p q r : G) → F.post combine p q r → r ≡ f p q) → newest G.Algebra.nil self.new.grades count ≡ binder_by_binder f (newest G.Algebra.nil self.old.grades count) (newest G.Algebra.nil other.now.grades count) }
    {
        // by index: after `iter_mut` a proof knows the length alone
        for i in 0..count {
            self.grades[i] = combine(self.grades[i], other.grades[i]);
        }
    }

    // Adds the usage of another part, where both are run, for the first `count` binders.
    pub(crate) fn add(&mut self, other: &Usage<G>, count: usize)
        requires few { count ≤ 32 }
        ensures { newest G.Algebra.nil self.new.grades count ≡ sum G.Algebra (newest G.Algebra.nil self.old.grades count) (newest G.Algebra.nil other.now.grades count) }
    {
        self.combine_with(other, count, G::sum);
    }

    // Joins the usage of another part, where one of the two is run, for the first `count` binders.
    pub(crate) fn join(&mut self, other: &Usage<G>, count: usize)
        requires few { count ≤ 32 }
        ensures { newest G.Algebra.nil self.new.grades count ≡ join G.Algebra (newest G.Algebra.nil self.old.grades count) (newest G.Algebra.nil other.now.grades count) }
    {
        self.combine_with(other, count, G::join);
    }

    // Takes the usage as often as the grade says, for the first `count` binders.
    pub(crate) fn scale(&mut self, grade: G, count: usize)
        requires few { count ≤ 32 }
        ensures { newest G.Algebra.nil self.new.grades count ≡ product G.Algebra grade (newest G.Algebra.nil self.old.grades count) }
    {
        for i in 0..count {
            self.grades[i] = grade.product(self.grades[i]);
        }
    }
}
