//! The records of a log, lent as a list.

ghost use Rattle.std.specs.Prelude.{◌≡◌, ◌<◌, ◌≤◌, Some, length, map, take, slice_get};
ghost use Rattle.mv_log.specs.Fitting.{sizes, HeadFits, HeadsFit, AreSound};
ghost use Rattle.mv_log.specs.Heads.{record_at};

use crate::head::Head;
use crate::lists::Lists;
use crate::record_ref::RecordRef;
use std::marker::Model;

/// Records that are lent, in order. Contracts see their list.
#[derive(Drop)]
pub struct Records<'a> {
    heads: &'a [Head],
    lists: &'a Lists,
}

impl<'a> Model for Records<'a> {
    ghost use Rattle.std.specs.Prelude.{List as Seq, map};
    ghost use Rattle.mv_record.specs.declared.record.Record.{Record};

    ghost Value = { Seq Record };

    ghost use Rattle.mv_log.specs.Heads.{record_at};
    ghost use Rattle.mv_log.specs.Fitting.{sizes, HeadsFit, AreSound};

    ghost view = { λ r. map (record_at r.lists.now) r.heads.now };

    ghost invariant = { λ r. AreSound r.lists.now × HeadsFit (sizes r.lists.now) r.heads.now };
}

/// Lends a head.
#[tactic(auto, using(crate::proofs::Lending::get_at, crate::proofs::Lending::head_fits))]
fn head_at<'a>(heads: &'a [Head], at: usize, lists: &Lists) -> &'a Head
    requires within { at < length heads.now }
    requires fit { HeadsFit (sizes lists.now) heads.now }
    ensures there { slice_get heads.now at ≡ Some result.now }
    ensures fits { HeadFits (sizes lists.now) result.now }
{
    &heads[at]
}

/// Returns the first heads, so many, or all of them.
fn front(heads: &[Head], len: usize) -> &[Head]
    ensures { result.now ≡ take len heads.now }
{
    if len < heads.len() {
        &heads[..len]
    } else {
        heads
    }
}

impl<'a> Records<'a> {
    /// Lends the records with these heads.
    pub(crate) fn of(heads: &'a [Head], lists: &'a Lists) -> Records<'a>
        requires sound { AreSound lists.now }
        requires fit { HeadsFit (sizes lists.now) heads.now }
        ensures { result ≡ map (record_at lists.now) heads.now }
    {
        Records { heads, lists }
    }

    /// Returns the number of records.
    #[tactic(auto, using(crate::proofs::Lending::length_map))]
    pub fn len(&self) -> usize
        ensures { result ≡ length self.now }
    {
        self.heads.len()
    }

    /// Lends a record.
    #[tactic(auto, using(crate::proofs::Lending::length_map, crate::proofs::Lending::map_at))]
    pub fn get(&self, at: usize) -> RecordRef<'a>
        requires { at < length self.now }
        ensures { slice_get self.now at ≡ Some result }
    {
        RecordRef::of(self.lists, head_at(self.heads, at, self.lists))
    }

    /// Lends the first records, so many, or all of them.
    #[tactic(auto, using(crate::proofs::Lending::map_take, crate::proofs::Lending::heads_take))]
    pub fn first(&self, len: usize) -> Records<'a>
        ensures { result ≡ take len self.now }
    {
        Records {
            heads: front(self.heads, len),
            lists: self.lists,
        }
    }
}
