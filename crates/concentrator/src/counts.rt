ghost use Rattle.concentrator.specs.Calls.{counts_said};
ghost use Rattle.concentrator.specs.Wholes.{whole};
ghost use Rattle.engine.specs.Views.{counts_by};
ghost use Rattle.std.specs.Prelude.{◌≡◌};

use crate::concentrator::Concentrator;
use common::Fault;
use engine::Counts;
use feed::Feed;
use policy::Policy;

impl<F: Feed, P: Policy> Concentrator<F, P> {
    // What was counted so far: frames accepted, slots written, and frames refused by number.
    pub fn counts(&self) -> Result<Counts, Fault>
        ensures { counts_by result ≡ counts_said (whole self.now) }
    {
        self.engine.counts()
    }
}
