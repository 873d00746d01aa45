// Lock sets: lock l is in the set where bit l is set (`bundle::chunk::holds_lock`).
ghost use Rattle.std.specs.Prelude.{◌≡◌};
ghost use Rattle.bundle.specs.Locks.{common_lock};

// Whether two sets have a lock in common.
pub fn common(first: u64, second: u64) -> bool
    ensures { result ≡ common_lock first second }
{
    (first & second) != 0
}
