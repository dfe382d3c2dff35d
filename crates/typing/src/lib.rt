// Types, usages and derivations, and the theorem that judging accepts exactly the acceptable rules.
#![tactic(auto)]

ghost use Rattle.typing.specs.Verdicts.{Exact};

use grades::Algebra;

// For every algebra: judging accepts a rule exactly when some derivation makes it acceptable, and the usages that it
// reports are the least of any derivation.
pub fn judging_is_exact<G: Algebra>()
    ensures { Exact G.Algebra }
{}
