// The law over runs of a concentrator: what holds of every sequence of calls and their answers, as theorems.
#![tactic(auto)]

ghost use Rattle.laws.specs.Laws.{RunsStand};
ghost use Rattle.laws.specs.Example.{ExampleStands};

// The law over runs stands.
pub fn runs_stand() -> u8
    ensures { RunsStand }
{
    0
}

// Two runs over two feeds meet what the agreement asks.
pub fn example_stands() -> u8
    ensures { ExampleStands }
{
    0
}
