// The frame that a host wrote for a slot, and the reading of its clock then.
#[derive(Clone, Copy)]
pub struct WrittenSlot<'a> {
    pub slot: u64,
    pub reading: u64,
    pub frame: &'a [u8],
}
