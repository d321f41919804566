use crate::bytes::bytes_of;
use crate::number::{decimal, sixteen};
use crate::reason::Reason;
use common::{IdCode, Port};
use std::alloc::Global;
use std::num::TryFromIntError;
use std::str::Split;

// The longest buffer that a call may ask for.
pub const MOST_ROOM: usize = 70_000;

// The words of a line that are still to be read, with a space between each two, and the heap that the
// bytes among them go to.
#[derive(Drop)]
pub struct Words<'a> {
    heap: Global,
    words: Split<'a, char>,
}

impl<'a> Words<'a> {
    // All words of a line.
    pub fn of(heap: Global, line: &'a str) -> Words<'a> {
        Words {
            heap,
            words: line.split(' '),
        }
    }

    // The next word.
    pub fn next(&mut self) -> Result<&'a str, Reason> {
        self.words.next().ok_or(Reason::TooFewWords)
    }

    // Refuses a line that has words left.
    pub fn end(mut self) -> Result<(), Reason> {
        self.words
            .next()
            .map_or(Ok(()), |_| Err(Reason::TooManyWords))
    }

    // The next word, as a number of 64 bits.
    pub fn number(&mut self) -> Result<u64, Reason> {
        decimal(self.next()?)
    }

    // A number of a smaller type.
    fn small<T: TryFrom<u64, Error = TryFromIntError>>(&mut self) -> Result<T, Reason> {
        Ok(T::try_from(self.number()?)?)
    }

    // The next word, as a rate.
    pub fn rate(&mut self) -> Result<u16, Reason> {
        self.small()
    }

    // The next word, as the code of a sender.
    pub fn id(&mut self) -> Result<IdCode, Reason> {
        Ok(IdCode(self.small()?))
    }

    // The next word, as the number of a line.
    pub fn port(&mut self) -> Result<Port, Reason> {
        Ok(Port(self.small()?))
    }

    // The length of a buffer.
    pub fn room(&mut self) -> Result<usize, Reason> {
        let room = self.small()?;
        if room > MOST_ROOM {
            return Err(Reason::OutOfRange);
        }
        Ok(room)
    }

    // The bytes that the next word gives in hex.
    pub fn bytes(&mut self) -> Result<Vec<u8>, Reason> {
        bytes_of(self.heap, self.next()?)
    }

    // The sixteen shifts that the next word lists.
    pub fn shifts(&mut self) -> Result<[i32; 16], Reason> {
        sixteen(self.next()?)
    }
}
