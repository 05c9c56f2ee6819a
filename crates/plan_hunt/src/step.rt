ghost use Rattle.std.specs.Prelude.{◌≡◌, ◌≤◌};
ghost use Rattle.plan_hunt.specs.Numbers.{change_at, step_at, way_at};
ghost use Rattle.plan_hunt.specs.Steps.{has_hart, smaller};

/// How a quota is made smaller. It stays 1 or more.
#[derive(Clone, Copy)]
pub enum Way {
    /// It becomes 1.
    ToOne,
    /// It becomes half of it, rounded up.
    ToHalf,
    /// It becomes one less.
    OneLess,
}

/// What becomes of a row.
#[derive(Clone, Copy)]
pub enum Change {
    /// The row is left out.
    LeftOut,
    /// Its least quota becomes that of all harts.
    Least,
    /// Each of its quotas is made smaller.
    Each(Way),
    /// One of its quotas is made smaller.
    Single(usize, Way),
}

/// A single step to a smaller plan.
#[derive(Clone, Copy)]
pub struct Step {
    /// The row that is changed, counted from 0.
    pub row: usize,
    pub change: Change,
}

impl Way {
    /// The way of a number.
    fn at(number: usize) -> Way
        ensures { result ≡ way_at number }
    {
        match number {
            0 => Way::ToOne,
            1 => Way::ToHalf,
            _ => Way::OneLess,
        }
    }

    /// A quota that was made smaller.
    pub(crate) fn smaller(self, quota: u32) -> u32
        ensures { result ≡ smaller self quota }
    {
        match self {
            Way::ToOne => 1,
            Way::ToHalf => quota / 2 + quota % 2,
            Way::OneLess => quota.saturating_sub(1).max(1),
        }
    }
}

impl Change {
    /// The change of a number: 5 of the whole row, then 3 of each hart's quota.
    fn at(number: usize) -> Change
        ensures { result ≡ change_at number }
    {
        match number {
            0 => Change::LeftOut,
            1 => Change::Least,
            2 | 3 | 4 => Change::Each(Way::at(number - 2)),
            _ => Change::Single((number - 5) / 3, Way::at((number - 5) % 3)),
        }
    }

    /// Whether the hart is there whose quota is changed.
    pub(crate) fn has_hart(self, harts: u32) -> bool
        ensures { result ≡ has_hart harts self }
    {
        match self {
            Change::Single(hart, _) => hart < harts as usize,
            _ => true,
        }
    }
}

impl Step {
    /// The step of a number, for so many rows. First come all rows with change 0, then all with change 1, and so on.
    pub(crate) fn at(rows: usize, number: usize) -> Step
        requires { 1 ≤ rows }
        ensures { result ≡ step_at rows number }
    {
        Step {
            row: number % rows,
            change: Change::at(number / rows),
        }
    }
}
