ghost use Rattle.std.specs.Prelude.{◌≡◌, ◌≤◌};
ghost use Rattle.plan.specs.Ports.{body_length, body_spans};
ghost use Rattle.plan.specs.Views.{plan_of};

use crate::plan::Plan;
use crate::span::Span;
use common::IdCode;

impl Plan {
    // The code of the combined stream.
    pub fn id(&self) -> IdCode
        ensures { result.0 ≡ (plan_of self.now).id }
    {
        self.id
    }

    // The rate, in frames a second; one out of range is that of a plan without ports.
    pub fn rate(&self) -> u16
        ensures { result ≡ (plan_of self.now).rate }
    {
        self.rate
    }

    // Where each port's body stands in a combined data frame, in the order of the ports. As a slice: who asks
    // has shown that the plan has the port, and would take an `Option` apart once more.
    pub fn body_spans(&self) -> &[Span]
        ensures { result.now ≡ body_spans (plan_of self.now).ports }
    {
        self.spans.as_slice()
    }

    // The length of a combined data frame's body.
    pub fn body_len(&self) -> usize
        ensures length { result ≡ body_length (plan_of self.now).ports }
        ensures few { result ≤ 1024 }
    {
        self.body
    }
}
