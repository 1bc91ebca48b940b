// Numbers of a pool, TEIDs or addresses: the pool is its first number and its size, its map has a bit for each number.
ghost use Rattle.std.specs.Prelude.{◌≡◌, not, ◌&&◌, ◌*◌, ◌-◌, ◌≤◌, length};
ghost use Rattle.plan.specs.RowRules.{in_range};
ghost use Rattle.rules.specs.Sound.{marked};

// Does a number lie outside the pool?
pub fn outside(n: u64, first: u64, size: u64) -> bool
    ensures { result ≡ not (in_range first size n) }
{
    n < first || size <= n - first
}

// Is it a number of the pool that the map has marked?
pub fn is_taken(n: u64, first: u64, size: u64, taken: &[u64]) -> bool
    requires { size ≤ 64 * length taken.now }
    ensures { result ≡ (in_range first size n && marked taken.now (n - first)) }
{
    !outside(n, first, size) && pool::is_marked(taken, (n - first) as usize)
}
