ghost use Rattle.std.specs.Prelude.{◌≡◌, ◌<◌, ◌^◌, map};
ghost use Rattle.std.specs.List.{sum};
ghost use Rattle.plan_hunt.specs.Steps.{least, size};

/// The sum of a row's quotas.
fn sum_of(row: &[u32]) -> u64
    requires { sum row.now < 2 ^ 64 }
    ensures { result ≡ sum row.now }
{
    let mut total = 0;
    for quota in row {
        total += u64::from(*quota);
    }
    total
}

/// How many rows there are, and the sum of their quotas.
pub(crate) fn size(rows: &[Vec<u32>]) -> u64
    requires { size (map (λ r. r.items) rows.now) < 2 ^ 64 }
    ensures { result ≡ size (map (λ r. r.items) rows.now) }
{
    let mut total = 0;
    for row in rows {
        total += 1 + sum_of(row);
    }
    total
}

/// The least quota of a row.
pub(crate) fn least(row: &[u32]) -> u32
    ensures { result ≡ least row.now }
{
    let mut least = 1_000_000;
    for quota in row {
        least = least.min(*quota);
    }
    least
}
