ghost use Rattle.choice.specs.Policies.{by_choice, by_each};
ghost use Rattle.std.specs.Prelude.{◌≡◌};

use policy::Policy;

// The one of two policies that was chosen. An own enum and not `either::Either`: only the crate `policy`,
// which needs no other crate, could make that one a `Policy`.
#[derive(Clone, Copy, Drop)]
pub enum Chosen<A, B> {
    One(A),
    Other(B),
}

impl<A: Policy, B: Policy> Policy for Chosen<A, B> {
    ghost bound = { λ p. by_choice A.Policy.bound B.Policy.bound p };

    ghost closing = { λ p stamp a. by_choice A.Policy.closing B.Policy.closing p stamp a };

    ghost bounded = { by_each _ A.Policy.bounded B.Policy.bounded };

    ghost from = { by_each _ A.Policy.from B.Policy.from };

    ghost upto = { by_each _ A.Policy.upto B.Policy.upto };

    fn longest_wait(&self) -> u64 {
        match self {
            Chosen::One(policy) => policy.longest_wait(),
            Chosen::Other(policy) => policy.longest_wait(),
        }
    }

    fn closes_at(&self, stamp: u64, arrival: Option<u64>) -> u64 {
        match self {
            Chosen::One(policy) => policy.closes_at(stamp, arrival),
            Chosen::Other(policy) => policy.closes_at(stamp, arrival),
        }
    }
}
