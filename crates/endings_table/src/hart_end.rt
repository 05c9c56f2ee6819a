ghost use Rattle.std.specs.Prelude.{◌≡◌};
ghost use Rattle.endings_table.specs.Endings.{ends_well};

use hart_step::Stop;

/// How a hart ends.
#[derive(Clone, Copy, PartialEq, Eq)]
pub enum HartEnd {
    /// It stops.
    Stopped(Stop),
    /// It waits for ever, in a loop whose least address this is.
    Waits(u64),
}

impl HartEnd {
    /// Whether it exits with 0.
    pub fn is_well(self) -> bool
        ensures { result ≡ ends_well self }
    {
        match self {
            HartEnd::Stopped(stop) => stop.code == 1 && stop.value == 0,
            HartEnd::Waits(_) => false,
        }
    }
}
