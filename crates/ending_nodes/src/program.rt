use early_reads::EarlyPoint;
use pages::Pages;
use run_places::OwnDoubleword;

/// A program, and maps of the code of its harts.
#[derive(Clone, Copy)]
pub struct MappedProgram<'a> {
    /// Memory as it begins.
    pub pages: &'a Pages,
    /// The bytes that one hart alone touches.
    pub owned: &'a [OwnDoubleword],
    /// For each hart a map of its code that is right.
    pub maps: &'a [Vec<EarlyPoint>],
    /// So many instructions of each hart are followed.
    pub steps: u64,
    /// By so many places at most stores are put behind.
    pub most: usize,
}
