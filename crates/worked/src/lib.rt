// The worked examples of the rules, as one fact about the definitions that all contracts rest on.
#![tactic(auto)]

ghost use Rattle.worked.specs.Examples.{Examples};

use policy::Relative;

// The policy of the examples on closing: 20 ms after the first arrival, and 150 ms after the stamp at
// the latest.
pub fn worked_policy() -> Relative
    ensures { Examples result }
{
    Relative::new(20_000, 150_000)
}
