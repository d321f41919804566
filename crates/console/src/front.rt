// The front of a buffer, or all of it where it is shorter.
pub fn front(buffer: &mut [u8], len: usize) -> &mut [u8] {
    let end = len.min(buffer.len());
    &mut buffer[..end]
}
