//! A group of accesses in brief, whose places are counted from one base.

ghost use Rattle.std.specs.Prelude.{◌≡◌, IfOk, IfSome};

use crate::brief_access::BriefAccess;
use pages::OutOfMemory;
use round_schedule::Access;
use std::alloc::Global;
use std::marker::Model;

/// Accesses in brief, one after another, whose places are counted from one base.
#[derive(Drop)]
pub(crate) struct BriefGroup {
    pub(crate) base: u64,
    pub(crate) briefs: Vec<BriefAccess>,
}

impl Model for BriefGroup {
    ghost use Rattle.std.specs.Prelude.{List, map};
    ghost use Rattle.round_schedule.specs.declared.access.Access.{Access as AccessOf};
    ghost use Rattle.trace.specs.Briefs.{widened};

    ghost Value = { List AccessOf };

    ghost view = { λ s. map (widened s.base) s.briefs.items };
}

impl BriefGroup {
    /// These accesses, if each has a form in brief with its place counted from `base`.
    pub(crate) fn of(
        alloc: Global,
        accesses: &[Access],
        base: u64,
    ) -> Result<Option<BriefGroup>, OutOfMemory>
        ensures { IfOk result (λ r. IfSome r (λ s. s ≡ accesses.now)) }
    {
        let mut briefs = Vec::with_capacity(alloc, accesses.len())?;
        for access in accesses {
            let Some(brief) = BriefAccess::of(access, base) else {
                return Ok(None);
            };
            briefs.push_reserved(brief);
        }
        Ok(Some(BriefGroup { base, briefs }))
    }
}
