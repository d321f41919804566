ghost use Rattle.std.specs.Prelude.{◌≡◌, ℕ, ◌+◌, ◌≤◌, [], Option, ⊤};
ghost use Rattle.feed.specs.Feeds.{AllCarried};

use engine::Engine;
use feed::Feed;
use policy::Policy;
use std::alloc::AllocError;

// A concentrator: its feed, its wait policy, and the state of its slots. All that waits can be carried,
// and a slot closes by its stamp plus the policy's bound.
// No model: its value would hold what the feed means and when slots close, and functions have no code.
#[derive(Copy, Drop)]
pub struct Concentrator<F: Feed, P: Policy> {
    pub(crate) feed: F,
    pub(crate) policy: P,
    pub(crate) engine: Engine,
    ghost carried: { ∥ AllCarried ((F.meaning feed).waits []) ∥₁ },
    ghost bounded: { (stamp : ℕ) (arrival : Option ℕ) → P.closing policy stamp arrival ≤ stamp + P.bound policy },
}

// Written out, since a generic type with ghost fields cannot derive it.
impl<F: Feed + Copy, P: Policy + Copy> Clone for Concentrator<F, P> {
    ghost is_clone = { λ concentrator copy. copy ≡ concentrator };

    ghost is_infallible = { λ _. ⊤ };

    fn clone(&self) -> Result<Self, AllocError> {
        Ok(*self)
    }
}
