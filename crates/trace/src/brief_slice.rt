//! A slice of a log in brief, lent: what is left of one group, and the groups after it.

ghost use Rattle.std.specs.Prelude.{◌≡◌, ◌<◌, ◌∷◌, ◌↔◌, ◌++◌, [], drop, length, map, slice_index_or, IfNone, IfSome, IsTrue};
ghost use Rattle.trace.specs.Briefs.{in_turn, widened};

use crate::brief_access::BriefAccess;
use crate::brief_group::BriefGroup;
use round_schedule::Access;
use std::marker::Model;

/// The accesses of groups that are left to give.
#[derive(Drop)]
pub(crate) struct BriefSlice<'a> {
    base: u64,
    briefs: &'a [BriefAccess],
    groups: &'a [BriefGroup],
}

impl<'a> Model for BriefSlice<'a> {
    ghost use Rattle.std.specs.Prelude.{List, ◌++◌, map};
    ghost use Rattle.round_schedule.specs.declared.access.Access.{Access as AccessOf};
    ghost use Rattle.trace.specs.Briefs.{in_turn, widened};

    ghost Value = { List AccessOf };

    ghost view = { λ r. map (widened r.base) r.briefs.now ++ in_turn r.groups.now };
}

impl<'a> BriefSlice<'a> {
    /// Those of all these groups.
    pub(crate) fn new(groups: &'a [BriefGroup]) -> BriefSlice<'a>
        ensures { result ≡ in_turn groups.now }
    {
        BriefSlice {
            base: 0,
            briefs: &[],
            groups,
        }
    }

    /// The access at an index.
    pub(crate) fn get(&self, index: usize) -> Access
        requires { index < length self.now }
        ensures { result ≡ slice_index_or self.now index result }
    {
        if index < self.briefs.len() {
            self.briefs[index].access(self.base)
        } else {
            access_in(self.groups, index - self.briefs.len())
        }
    }

    /// Those from an index on.
    pub(crate) fn from(self, index: usize) -> BriefSlice<'a>
        ensures { result ≡ drop index self.entry }
    {
        if index < self.briefs.len() {
            BriefSlice {
                base: self.base,
                briefs: &self.briefs[index..],
                groups: self.groups,
            }
        } else {
            rest_of(self.groups, index - self.briefs.len())
        }
    }

    /// Whether there are none.
    #[inline]
    pub(crate) fn is_empty(&self) -> bool
        ensures { IsTrue result ↔ (length self.now ≡ 0) }
    {
        match self.briefs {
            [] => are_empty(self.groups),
            _ => false,
        }
    }

    /// Takes the first access out.
    #[inline(always)]
    pub(crate) fn take_first(&mut self) -> Option<Access>
        ensures none { IfNone result ((self.old ≡ []) × (self.new ≡ [])) }
        ensures some { IfSome result (λ a. self.old ≡ a ∷ self.new) }
    {
        if self.briefs.is_empty() {
            open_group(&mut self.base, &mut self.briefs, &mut self.groups);
        }
        let (brief, briefs) = self.briefs.split_first()?;
        self.briefs = briefs;
        Some(brief.access(self.base))
    }
}

/// Opens the first of the groups that has an access, after the one of these briefs. It stands apart and answers nothing, so
/// that what takes the accesses one by one stays short.
#[cold]
#[inline(never)]
fn open_group<'a>(base: &mut u64, briefs: &mut &'a [BriefAccess], groups: &mut &'a [BriefGroup])
    requires { length briefs.old.now ≡ 0 }
    ensures same { map (widened base.new) briefs.new.now ++ in_turn groups.new.now ≡
        in_turn groups.old.now }
    ensures none { length briefs.new.now ≡ 0 → in_turn groups.new.now ≡ [] }
{
    while let Some((group, others)) = groups.split_first() {
        *groups = others;
        if !group.briefs.is_empty() {
            *base = group.base;
            *briefs = &group.briefs;
            return;
        }
    }
}

/// Whether groups have no access.
fn are_empty(groups: &[BriefGroup]) -> bool
    ensures { IsTrue result ↔ (length (in_turn groups.now) ≡ 0) }
{
    match groups {
        [] => true,
        [first, rest @ ..] => match first.briefs.as_slice() {
            [] => are_empty(rest),
            _ => false,
        },
    }
}

/// The access at an index of groups.
fn access_in(groups: &[BriefGroup], index: usize) -> Access
    requires { index < length (in_turn groups.now) }
    ensures { result ≡ slice_index_or (in_turn groups.now) index result }
{
    let Some((group, others)) = groups.split_first() else {
        unreachable!()
    };
    if index < group.briefs.len() {
        group.briefs[index].access(group.base)
    } else {
        access_in(others, index - group.briefs.len())
    }
}

/// The accesses of groups from an index on.
fn rest_of<'a>(groups: &'a [BriefGroup], index: usize) -> BriefSlice<'a>
    ensures { result ≡ drop index (in_turn groups.now) }
{
    let Some((group, others)) = groups.split_first() else {
        return BriefSlice::new(groups);
    };
    if index < group.briefs.len() {
        BriefSlice {
            base: group.base,
            briefs: &group.briefs[index..],
            groups: others,
        }
    } else {
        rest_of(others, index - group.briefs.len())
    }
}
