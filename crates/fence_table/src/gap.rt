use crate::site::Site;

/// A gap where a fence is missing: between two instructions of one hart, the first of which is the earlier one in the program.
#[derive(Drop)]
pub struct NamedGap {
    pub earlier: Site,
    pub later: Site,
}
