// What follows from the laws, for every algebra: none is empty of reads.
ghost use Rattle.std.specs.Prelude.{◌≡◌, None, ◌≢◌};

use crate::algebra::Algebra;

// Taking one read from the grade of one read is not refused.
pub fn one_is_taken<A: Algebra>()
    ensures { A.Algebra.taking A.Algebra.unit ≢ None }
{}

// The grade of a name that is not read is not the grade of one read.
pub fn zero_is_not_one<A: Algebra>()
    ensures { A.Algebra.nil ≢ A.Algebra.unit }
{}
