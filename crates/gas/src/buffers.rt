//! Putting bytes at the start of a caller's buffer.
ghost use Rattle.std.specs.Prelude.{◌≡◌};
ghost use Rattle.gas.specs.Buffers.{buffer_with, put_answer, write_number};

use crate::messages::message;
use std::error::Error;
use std::fmt;

/// Why nothing is put into a caller's buffer, by the number of the refusal (`docs/ACCOUNT.md`).
#[derive(Clone, Copy, Debug, PartialEq, Eq)]
pub enum WriteFault {
    /// The caller's buffer is shorter than what is to stand in it.
    BufferTooShort = 10,
}

impl WriteFault {
    /// The number of the refusal (`docs/ACCOUNT.md`).
    pub fn number(self) -> u8
        ensures { result ≡ write_number self }
    {
        self as u8
    }
}

impl fmt::Display for WriteFault {
    fn fmt<W: fmt::Write>(&self, f: &mut fmt::Formatter<W>) -> fmt::Result {
        f.write_str(message(self.number()))
    }
}

impl Error for WriteFault {}

/// Puts bytes at the start of a buffer and answers how many they are; what stands behind them
/// stays. Refused with 10 where the buffer is too short, which then stays whole (`docs/JOURNAL.md`
/// for a record, `docs/STATEMENTS.md` for a statement).
pub fn put_at_start(buffer: &mut [u8], bytes: &[u8]) -> Result<usize, WriteFault>
    ensures answers { result ≡ put_answer bytes.now buffer.old }
    ensures leaves { buffer.new ≡ buffer_with bytes.now buffer.old }
{
    let count = bytes.len();
    if count > buffer.len() {
        return Err(WriteFault::BufferTooShort);
    }
    buffer[..count].copy_from_slice(bytes);
    Ok(count)
}
