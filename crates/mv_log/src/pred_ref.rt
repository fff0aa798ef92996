//! Predicates that a log lends.

ghost use Rattle.std.specs.Prelude.{◌≡◌, ◌<◌, Some, length, map, slice_get};
ghost use Rattle.mv_log.specs.Heads.{pred_of};
ghost use Rattle.mv_log.specs.Fitting.{AskedFit, AskedFits, marks_of};

use crate::head::Asked;
use crate::lists::Lists;
use mv_values::pred_ref::PredRef;
use std::marker::Model;

/// Predicates that are lent, in order. Contracts see their list.
#[derive(Drop)]
pub struct Preds<'a> {
    asked: &'a [Asked],
    lists: &'a Lists,
}

impl<'a> Model for Preds<'a> {
    ghost use Rattle.std.specs.Prelude.{List as Seq, map};
    ghost use Rattle.mv_values.specs.declared.pred.Pred.{Pred};

    ghost Value = { Seq Pred };

    ghost use Rattle.mv_log.specs.Heads.{pred_of};
    ghost use Rattle.mv_log.specs.Fitting.{AskedFit, marks_of};

    ghost view = { λ p. map (pred_of p.lists.now) p.asked.now };

    ghost invariant = { λ p. AskedFit (marks_of p.lists.now) p.asked.now };
}

/// Returns the fixed part of a predicate.
#[tactic(auto, using(crate::proofs::Lending::get_at, crate::proofs::Lending::asked_at))]
fn asked_at(asked: &[Asked], at: usize, lists: &Lists) -> Asked
    requires within { at < length asked.now }
    requires fit { AskedFit (marks_of lists.now) asked.now }
    ensures there { slice_get asked.now at ≡ Some result }
    ensures fits { AskedFits (marks_of lists.now) result }
{
    asked[at]
}

impl<'a> Preds<'a> {
    /// Lends the predicates with these fixed parts.
    pub(crate) fn of(asked: &'a [Asked], lists: &'a Lists) -> Preds<'a>
        requires { AskedFit (marks_of lists.now) asked.now }
        ensures { result ≡ map (pred_of lists.now) asked.now }
    {
        Preds { asked, lists }
    }

    /// Returns the number of predicates.
    #[tactic(auto, using(crate::proofs::Lending::length_map))]
    pub fn len(&self) -> usize
        ensures { result ≡ length self.now }
    {
        self.asked.len()
    }

    /// Lends a predicate.
    #[tactic(auto, using(crate::proofs::Lending::length_map, crate::proofs::Lending::map_at))]
    pub fn get(&self, at: usize) -> PredRef<'a>
        requires { at < length self.now }
        ensures { slice_get self.now at ≡ Some result }
    {
        let asked = asked_at(self.asked, at, self.lists);
        PredRef::new(
            asked.table,
            self.lists.tests.part(asked.tests),
            self.lists.columns.part(asked.columns),
        )
    }
}
