// The check word of a frame: CRC-CCITT, byte by byte from a stored table.
#![tactic(auto)]

ghost use Rattle.crc.specs.CheckWord.{Example, check_word_of, taken, table_rule};
ghost use Rattle.crc.specs.Words.{value_of};
ghost use Rattle.std.specs.Prelude.{◌≡◌, bit_xor};

mod table;

use table::Word;

// A register, and the byte that it takes in next.
#[derive(Clone, Copy)]
struct Pending {
    register: Word,
    byte: u8,
}

impl Pending {
    // The stored word that the byte picks with the register's high byte.
    fn word(self) -> Word
        ensures { value_of result ≡ table_rule (bit_xor self.register.high self.byte) }
    {
        Word::stored(self.register.high ^ self.byte)
    }

    // The same a byte further. The register's low byte, which is to meet that byte, is joined to it at once:
    // then each word that is read waits for the one before it, and for nothing more.
    fn next(self, byte: u8) -> Pending
        ensures { taken (value_of result.register) result.byte ≡ taken (taken (value_of self.register) self.byte) byte }
    {
        Pending {
            register: self.word(),
            byte: self.register.low ^ byte,
        }
    }

    // The register with the byte taken in.
    fn last(self) -> u16
        ensures { result ≡ taken (value_of self.register) self.byte }
    {
        let Word { high, low } = self.word();
        u16::from_be_bytes([self.register.low ^ high, low])
    }
}

// The check word of `bytes`. Byte by byte, and four of them in each turn of the loop.
// As one `fold` it was tried, and took a third more instructions.
pub fn check_word(bytes: &[u8]) -> u16
    ensures { result ≡ check_word_of bytes.now }
{
    let register = Word {
        high: 0xff,
        low: 0xff,
    };
    let Some((byte, mut rest)) = bytes.split_first() else {
        return 0xffff;
    };
    let mut pending = Pending {
        register,
        byte: *byte,
    };
    while let Some(([a, b, c, d], behind)) = rest.split_first_chunk::<4>() {
        pending = pending.next(*a).next(*b).next(*c).next(*d);
        rest = behind;
    }
    for byte in rest {
        pending = pending.next(*byte);
    }
    pending.last()
}

// The worked example of the definition: the digits 1 to 9 have the check word 29B1h.
pub fn check_word_example() -> u16
    ensures { Example result }
{
    0x29b1
}
