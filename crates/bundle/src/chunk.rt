// The state of a chunk while it is read.
ghost use Rattle.std.specs.Prelude.{◌≡◌, cond, not, ◌&&◌, ltb};
ghost use Rattle.bundle.specs.Locks.{holds};
ghost use Rattle.bundle.specs.Chunks.{fresh, after_barrier, after_join, after_acquire, after_release};

// The barriers passed, the regions joined and the locks held (lock l is held where bit l is set).
#[derive(Clone, Copy)]
pub struct ChunkState {
    pub barriers: u32,
    pub regions: u32,
    pub locks: u64,
}

// Whether a lock is in the set.
pub fn holds_lock(locks: u64, lock: u8) -> bool
    ensures { result ≡ holds lock locks }
{
    if 64 <= lock {
        return false;
    }
    (locks >> lock) % 2 == 1
}

// The state after a command. Where a count is at its limit, the lock to acquire is held or no lock, or the one to release is not held,
// the state stays as it is; the scan refuses all of these. Each test stays an `if` of its own: joined by `||`, check of a bundle of locks took 2.5 times as long.
impl ChunkState {
    pub fn fresh() -> Self
        ensures { result ≡ fresh }
    {
        ChunkState {
            barriers: 0,
            regions: 0,
            locks: 0,
        }
    }

    // Stays apart from `after_join`: each counts in a field of its own.
    pub fn after_barrier(self) -> Self
        ensures { result ≡ cond (ltb self.barriers 4294967295) (after_barrier self) self }
    {
        let barriers = self.barriers;
        if barriers < 4294967295 {
            return ChunkState {
                barriers: barriers + 1,
                ..self
            };
        }
        self
    }

    pub fn after_join(self) -> Self
        ensures { result ≡ cond (ltb self.regions 4294967295) (after_join self) self }
    {
        let regions = self.regions;
        if regions < 4294967295 {
            return ChunkState {
                regions: regions + 1,
                ..self
            };
        }
        self
    }

    // Stays apart from `after_release`: one sets a bit that is not set, the other takes away one that is.
    pub fn after_acquire(self, lock: u8) -> Self
        ensures { result ≡ cond (ltb lock 64 && not (holds lock self.locks)) (after_acquire lock self) self }
    {
        let locks = self.locks;
        if 64 <= lock {
            return self;
        }
        if holds_lock(locks, lock) {
            return self;
        }
        ChunkState {
            locks: locks + (1 << lock),
            ..self
        }
    }

    pub fn after_release(self, lock: u8) -> Self
        ensures { result ≡ cond (holds lock self.locks) (after_release lock self) self }
    {
        let locks = self.locks;
        if 64 <= lock {
            return self;
        }
        if holds_lock(locks, lock) {
            return ChunkState {
                locks: locks - (1 << lock),
                ..self
            };
        }
        self
    }
}
