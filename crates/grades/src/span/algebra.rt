// The algebra of spans.
ghost use Rattle.std.specs.Prelude.{◌≡◌, ◌≤◌};
ghost use Rattle.grades.specs.Spans.{spanned, span_between, span_sum, span_product, span_join, span_covers, span_taking};
ghost use Rattle.grades.specs.SpanLaws.{span_laws};

use super::{MOST, NO_LIMIT, Span};
use crate::algebra::Algebra;

impl Span {
    // The span between two ends, where `None` is no limit. Nothing where an end is above 9,999 or the upper end below the lower.
    pub fn new(lower: u16, upper: Option<u16>) -> Option<Span>
        ensures { result ≡ span_between lower upper }
    {
        match upper {
            Some(upper) if lower <= upper && upper <= MOST => Some(Span { lower, upper }),
            None if lower <= MOST => Some(Span {
                lower,
                upper: NO_LIMIT,
            }),
            _ => None,
        }
    }

    // The span of two ends of any size: above 9,999 a lower end becomes 9,999, and an upper end no limit.
    #[tactic(auto, using(crate::specs::Ends::same_span))]
    fn rounded(lower: u16, upper: u16) -> Span
        requires { lower ≤ upper }
        ensures { result ≡ spanned lower upper }
    {
        Span {
            lower: lower.min(MOST),
            upper: upper.min(NO_LIMIT),
        }
    }
}

#[tactic(auto, using(crate::specs::Ends::same_span))]
impl Algebra for Span {
    ghost nil = { spanned 0 0 };

    ghost unit = { spanned 1 1 };

    ghost plus = { span_sum };

    ghost times = { span_product };

    ghost lub = { span_join };

    ghost permits = { span_covers };

    ghost taking = { span_taking };

    ghost kept = { span_laws };

    fn zero() -> Span {
        Span { lower: 0, upper: 0 }
    }

    fn one() -> Span {
        Span { lower: 1, upper: 1 }
    }

    fn sum(self, other: Span) -> Span {
        Span::rounded(self.lower + other.lower, self.upper + other.upper)
    }

    fn product(self, other: Span) -> Span {
        Span::rounded(
            self.lower.saturating_mul(other.lower),
            self.upper.saturating_mul(other.upper),
        )
    }

    fn join(self, other: Span) -> Span {
        Span {
            lower: self.lower.min(other.lower),
            upper: self.upper.max(other.upper),
        }
    }

    fn same(self, other: Span) -> bool {
        self == other
    }

    fn covers(self, other: Span) -> bool {
        self.lower <= other.lower && other.upper <= self.upper
    }

    fn take(self) -> Option<Span> {
        if self.upper == 0 {
            return None;
        }
        let lower = self.lower.saturating_sub(1);
        let upper = if self.upper == NO_LIMIT {
            NO_LIMIT
        } else {
            self.upper - 1
        };
        Some(Span { lower, upper })
    }
}
