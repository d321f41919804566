use common::Port;

// A call on a concentrator, as a value. A `room` is the length of the buffer that is lent to it, and a
// write names the ticket that it spends by its number, be it one that is out or not.
#[derive(Clone, Copy, Debug)]
pub enum Call<'a> {
    Tick { reading: u64, room: usize },
    Admit { port: Port, frame: &'a [u8] },
    Pull { room: usize },
    Take,
    Write { ticket: u64, room: usize },
    Counts,
}
