ghost use Rattle.std.specs.Prelude.{◌≡◌, min};
ghost use Rattle.policy.specs.Laws.{SoonerIgnores};
ghost use Rattle.std.proofs.Common.{rules};

use crate::policy::Policy;

// A slot closes as soon as one of two policies says so.
#[derive(Clone, Copy, PartialEq, Eq, Hash, Debug, Drop)]
pub struct Sooner<A, B> {
    one: A,
    other: B,
}

impl<A: Policy, B: Policy> Sooner<A, B> {
    pub fn new(one: A, other: B) -> Sooner<A, B>
        ensures first { result.one ≡ one }
        ensures second { result.other ≡ other }
        ensures ignores { SoonerIgnores (A.Policy.closing one) (B.Policy.closing other) }
    {
        Sooner { one, other }
    }
}

impl<A: Policy, B: Policy> Policy for Sooner<A, B> {
    ghost bound = { λ s. min (A.Policy.bound s.one) (B.Policy.bound s.other) };

    ghost closing = { λ s stamp a. min (A.Policy.closing s.one stamp a) (B.Policy.closing s.other stamp a) };

    ghost bounded = { Prim.search rules };

    ghost from = { Prim.search rules };

    ghost upto = { Prim.search rules };

    fn longest_wait(&self) -> u64 {
        self.one.longest_wait().min(self.other.longest_wait())
    }

    fn closes_at(&self, stamp: u64, arrival: Option<u64>) -> u64 {
        self.one
            .closes_at(stamp, arrival)
            .min(self.other.closes_at(stamp, arrival))
    }
}
