//! A whole journal from a stream.
ghost use Rattle.std.specs.Prelude.{◌≡◌, ◌≤◌, IfSome, IfOk, SomeIff, vec_len, vec_items};
ghost use Rattle.std.specs.Option.{option_map};
ghost use Rattle.journal.specs.declared.input.TheConstants.{MOST_BYTES};
ghost use Rattle.journal.specs.Inputs.{taken_input};

use std::alloc::Global;
use std::io;
use std::io::Read;

/// The most bytes that a program takes for a journal (`docs/JOURNAL.md`).
pub const MOST_BYTES: usize = 65_536;

// The bytes, or none where they are more than a program takes.
fn not_too_long(bytes: Vec<u8>) -> Option<Vec<u8>>
    ensures { SomeIff result (vec_len bytes ≤ MOST_BYTES) bytes }
{
    (bytes.len() <= MOST_BYTES).then_some(bytes)
}

/// All that the stream holds, or none where it holds more than a program takes, 65,536 bytes. Of a
/// longer stream no more than one byte too many is read (`docs/JOURNAL.md`).
pub fn load<R: Read + Drop>(alloc: Global, input: R) -> io::Result<Option<Vec<u8>>>
    ensures within { IfOk result (λ o. IfSome o (λ bytes. vec_len bytes ≤ MOST_BYTES)) }

    ensures most { MOST_BYTES ≡ 65536 }

    // where the stream's bytes are known, as those of a slice are
    ensures whole { IfSome (R.remaining input) (λ all.
        IfOk result (λ o. option_map vec_items o ≡ taken_input all)) }
{
    let mut bytes = Vec::new(alloc);
    input.take(MOST_BYTES as u64 + 1).read_to_end(&mut bytes)?;
    Ok(not_too_long(bytes))
}
