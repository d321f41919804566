ghost use Rattle.laws.specs.Journal.{Journal};
ghost use Rattle.laws.specs.Machine.{onto};
ghost use Rattle.runs.specs.Entries.{all_due, left_by};
ghost use Rattle.runs.specs.Events.{events_of};
ghost use Rattle.runs.specs.Given.{entries_of, requests_of, standing};
ghost use Rattle.runs.specs.Kept.{Kept};
ghost use Rattle.runs.specs.Standing.{LeftBySome, Opening, Reached};
ghost use Rattle.std.specs.Prelude.{◌≡◌, IfOk, OnErr};

use crate::call::Call;
use crate::entry::Entry;
use crate::host::Host;
use feed::Feed;
use policy::Policy;
use std::alloc::{AllocError, Global};

impl<F: Feed, P: Policy> Host<F, P> {
    // Makes the calls, one after the other, and answers their journal. Whatever the calls are, and whatever
    // feed and policy the concentrator has, the law over runs holds of the journal from the opening on.
    pub fn run<'a>(
        &mut self,
        heap: Global,
        calls: &[Call<'a>],
    ) -> Result<Vec<Entry<'a>>, AllocError>
        ensures answers { IfOk result (λ journal. entries_of journal ≡ all_due (standing self.old) (requests_of calls.now)) }
        ensures next { IfOk result (λ journal. standing self.new ≡ left_by (standing self.old) (requests_of calls.now)) }
        ensures law { IfOk result (λ journal. (o : Opening) (before : Journal) → Reached o before (standing self.old) → Kept o (onto before (events_of (entries_of journal))) (standing self.new)) }
        ensures goes_on { IfOk result (λ journal. (o : Opening) (before : Journal) → Reached o before (standing self.old) → Reached o (onto before (events_of (entries_of journal))) (standing self.new)) }
        ensures err { OnErr result (LeftBySome (standing self.old) calls.now (standing self.new)) }
    {
        // as long as it will be, so that it is made once
        let mut journal = Vec::with_capacity(heap, calls.len())?;
        for call in calls {
            let entry = self.make(heap, *call)?;
            journal.push(entry)?;
        }
        Ok(journal)
    }
}
