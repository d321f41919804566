use crate::build::Hub;
use engine::Engine;
use std::mem::size_of;

#[test]
fn a_box_fits_in_64_kib(rt: HostRuntime) {
    assert!(rt; size_of::<Engine>() <= 65_536);
    assert!(rt; size_of::<Hub>() <= 65_536);
}
