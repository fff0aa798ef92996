//! Laws of limits, for readers of the contracts that say which limit is passed first.

ghost use Rattle.std.specs.Prelude.{List, None};
ghost use Rattle.mv_ast.specs.declared.limit.PassedLimit.{PassedLimit};
ghost use Rattle.mv_ast.specs.Limits.{soonest};
ghost use Rattle.mv_limits.specs.Firsts.{IsFirst};

/// The soonest of some passed limits is one of them, and none of them is sooner. There is no soonest if and only if no
/// limit is passed.
#[tactic(auto, using(crate::proofs::Least::is_first))]
pub fn soonest_is_first()
    ensures { (ps : List PassedLimit) → IsFirst ps (soonest None ps) }
{}
