ghost use Rattle.std.specs.Prelude.{◌≡◌, ◌<◌, ◌≤◌, length, vec_len, IfOk, IfSome, Err};

use std::alloc::Global;
use std::io::{self, Read};
use thiserror::Error;

// The longest capture that is taken, in bytes.
const MOST: u64 = 65_536;

// Why an input is not taken.
#[derive(Debug, Drop, Error)]
pub enum InputError {
    #[error("the input has more than 65536 bytes, the most that a capture may have")]
    TooLong,
    #[error(transparent)]
    Read(io::Error),
}

// All bytes of an input, or an error where they are more than a capture may have.
pub fn read_capture<R: Read + Drop>(alloc: Global, input: R) -> Result<Vec<u8>, InputError>
    ensures few { IfOk result (λ bytes. vec_len bytes ≤ 65536) }
    ensures whole { IfOk result (λ bytes. IfSome (R.remaining input) (λ xs. bytes.items ≡ xs)) }
    ensures long { result ≡ Err InputError.TooLong → IfSome (R.remaining input) (λ xs. 65536 < length xs) }
{
    let mut bytes = Vec::new(alloc);
    let mut input = input.take(MOST + 1);
    input.read_to_end(&mut bytes).map_err(InputError::Read)?;
    if bytes.len() as u64 > MOST {
        return Err(InputError::TooLong);
    }
    Ok(bytes)
}
