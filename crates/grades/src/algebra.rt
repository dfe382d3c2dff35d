// The two traits: an algebra of usage, and one whose grades have a text.
ghost use Rattle.std.specs.Prelude.{◌≡◌, ℕ, Bool, List, length, Decides, Option};
ghost use Rattle.grades.specs.Laws.{Laws};
ghost use Rattle.grades.specs.Texts.{Text};
ghost use Rattle.text.specs.Put.{room_left, put};

// Grades say how often a name may be read. The operations answer by their operands alone, and only `take` can refuse.
pub trait Algebra: Copy {
    ghost nil: { Self };

    ghost unit: { Self };

    ghost plus: { Self → Self → Self };

    ghost times: { Self → Self → Self };

    ghost lub: { Self → Self → Self };

    ghost permits: { Self → Self → Bool };

    ghost taking: { Self → Option Self };

    // The grade of a name that is not read.
    fn zero() -> Self
        ensures { result ≡ nil };

    // The grade of one read.
    fn one() -> Self
        ensures { result ≡ unit };

    // The usage of two parts that are both run.
    fn sum(self, other: Self) -> Self
        ensures { result ≡ plus self other };

    // The usage `other`, as often as `self` says.
    fn product(self, other: Self) -> Self
        ensures { result ≡ times self other };

    // The least grade that covers both.
    fn join(self, other: Self) -> Self
        ensures { result ≡ lub self other };

    // Whether the two are the same grade. A method and no `Eq` bound, since it decides equality itself (`Decides`), which the
    // laws of `Eq` alone do not say.
    fn same(self, other: Self) -> bool
        ensures { Decides result (self ≡ other) };

    // Whether the declaration `self` permits the usage `other`.
    fn covers(self, other: Self) -> bool
        ensures { result ≡ permits self other };

    // What is left of the allowance `self` after one read, or nothing where the read is refused.
    fn take(self) -> Option<Self>
        ensures { result ≡ taking self };

    // the seven laws
    ghost kept: { Laws nil unit plus times lub permits taking };
}

// An algebra whose grades have a text.
pub trait Written: Algebra {
    ghost reading: { List ℕ → Option (Self × ℕ) };

    ghost writing: { Self → List ℕ };

    // The grade at the front of `bytes`, with the number of bytes of its text.
    fn read(bytes: &[u8]) -> Option<(Self, usize)>
        ensures { result ≡ reading bytes.now };

    // What is left of `room` bytes after the text of `self`, or nothing where it does not fit: so a text of several parts is
    // measured whole before `write` is called, which goes on at the place that the part before answers.
    fn room_after(self, room: usize) -> Option<usize>
        ensures { result ≡ room_left room (length (writing self)) };

    // Writes the text of `self` into `out` from the place `at` on, and answers the place after it.
    // Where it does not fit, nothing is written.
    fn write(self, out: &mut [u8], at: usize) -> Option<usize>
        ensures { (result, out.new) ≡ put out.old at (writing self) };

    // bytes are read as a grade exactly when they are its writing, and no writing holds `}`
    ghost text: { Text reading writing };
}
