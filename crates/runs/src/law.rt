ghost use Rattle.runs.specs.Laws.{CallsKeepTheLaw};

// Whatever opens, with closings within a bound and a feed of any kind, each list of calls is answered as
// is due, and the law holds of what it answers.
pub fn calls_keep_the_law() -> u8
    ensures { CallsKeepTheLaw }
{
    0
}
