/// The most harts that a machine has.
pub const MOST_HARTS: u32 = 64;

/// The most workers, threads at work at the same time, that a run or a family of runs takes.
pub const MOST_WORKERS: u32 = 16;
