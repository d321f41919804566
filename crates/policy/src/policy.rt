ghost use Rattle.std.specs.Prelude.{◌≡◌, ℕ, ◌+◌, ◌≤◌, Option};
ghost use Rattle.policy.specs.Policies.{held, held_by};

// When a slot closes: from its stamp on, and no more than the bound after it. Asking changes
// nothing.
pub trait Policy {
    ghost bound: { Self → ℕ };

    ghost closing: { Self → ℕ → Option ℕ → ℕ };

    // The bound, in microseconds.
    fn longest_wait(&self) -> u64
        ensures { result ≡ bound self.now };

    // The reading at which the slot of a stamp closes, by the first arrival in it, if there is one.
    fn closes_at(&self, stamp: u64, arrival: Option<u64>) -> u64
        ensures { result ≡ closing self.now (held stamp) (held_by arrival) };

    ghost bounded: { (s : Self) → bound s ≤ 60000000 };

    ghost from: { (s : Self) (stamp : ℕ) (a : Option ℕ) → stamp ≤ closing s stamp a };

    ghost upto: { (s : Self) (stamp : ℕ) (a : Option ℕ) → closing s stamp a ≤ stamp + bound s };
}
