// When slots close, by each wait policy.
use policy::{Absolute, Policy, Relative, Sooner};

// A stamp and three first arrivals: before it, soon after it, and late.
#[test]
fn worked_closings(rt: HostRuntime) {
    let policy = Relative::new(20_000, 150_000);
    assert_eq!(rt; policy.closes_at(1_000_000, Some(990_000)), 1_020_000);
    assert_eq!(rt; policy.closes_at(1_000_000, Some(1_010_000)), 1_030_000);
    assert_eq!(rt; policy.closes_at(1_000_000, Some(1_140_000)), 1_150_000);
    assert_eq!(rt; policy.closes_at(1_000_000, None), 1_150_000);
    assert_eq!(rt; policy.longest_wait(), 150_000);
}

#[test]
fn past_the_limits(rt: HostRuntime) {
    let absolute = Absolute::new(u64::MAX);
    assert_eq!(rt; absolute.longest_wait(), 60_000_000);
    assert_eq!(rt; absolute.closes_at(0, Some(u64::MAX)), 60_000_000);
    assert_eq!(rt; absolute.closes_at(u64::MAX, None), 5_000_000_060_000_000);
    let relative = Relative::new(u64::MAX, u64::MAX);
    assert_eq!(rt; relative.longest_wait(), 60_000_000);
    assert_eq!(rt; relative.closes_at(7, Some(u64::MAX)), 60_000_007);
    assert_eq!(rt;
        relative.closes_at(u64::MAX, Some(u64::MAX)),
        5_000_000_060_000_000
    );
    let prompt = Relative::new(1, 60_000_001);
    assert_eq!(rt; prompt.longest_wait(), 60_000_000);
    assert_eq!(rt;
        prompt.closes_at(5_000_000_000_000_001, Some(u64::MAX)),
        5_000_000_000_000_001
    );
    assert_eq!(rt;
        prompt.closes_at(4_999_999_999_999_999, Some(u64::MAX)),
        5_000_000_000_000_001
    );
}

#[test]
fn sooner_of_two(rt: HostRuntime) {
    let policy = Sooner::new(Absolute::new(40_000), Relative::new(20_000, 150_000));
    assert_eq!(rt; policy.longest_wait(), 40_000);
    assert_eq!(rt; policy.closes_at(1_000_000, Some(1_010_000)), 1_030_000);
    assert_eq!(rt; policy.closes_at(1_000_000, Some(1_030_000)), 1_040_000);
    assert_eq!(rt; policy.closes_at(1_000_000, None), 1_040_000);
}

#[test]
fn sooner_of_three(rt: HostRuntime) {
    let two = Sooner::new(Relative::new(30_000, 90_000), Absolute::new(70_000));
    let policy = Sooner::new(two, Relative::new(10_000, 80_000));
    assert_eq!(rt; policy.longest_wait(), 70_000);
    assert_eq!(rt; policy.closes_at(2_000_000, Some(1_900_000)), 2_010_000);
    assert_eq!(rt; policy.closes_at(2_000_000, Some(2_050_000)), 2_060_000);
    assert_eq!(rt; policy.closes_at(2_000_000, Some(2_065_000)), 2_070_000);
    assert_eq!(rt; policy.closes_at(2_000_000, None), 2_070_000);
}
