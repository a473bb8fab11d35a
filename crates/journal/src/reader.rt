//! A reader over the bytes of a journal.
ghost use Rattle.std.specs.Prelude.{◌≡◌, ◌≤◌, length};

use crate::bodies::front;
use crate::faults::ReadFault;
use crate::kinds::Located;

/// A reader over a journal's bytes, which stands at the offset of the next record
/// (`docs/JOURNAL.md`).
#[derive(Debug, Drop)]
pub struct Reader<'a> {
    bytes: &'a [u8],
    at: usize,
    ghost inside: { at ≤ length bytes.now },
}

impl<'a> Reader<'a> {
    ghost use Rattle.journal.specs.Reading.{answer_at, offset_after};
    ghost use Rattle.journal.specs.RoundTrips.{Rewrites};

    /// A reader that stands at the journal's first byte.
    pub fn new(bytes: &'a [u8]) -> Reader<'a>
        ensures bytes { result.bytes.now ≡ bytes.now }
        ensures offset { result.at ≡ 0 }
    {
        Reader { bytes, at: 0 }
    }

    /// The offset of the next record: how many bytes have been read.
    pub fn offset(&self) -> usize
        ensures { result ≡ self.now.at }
    {
        self.at
    }

    /// The next record with its offset, or none at the journal's end. Refused with 1 where the kind
    /// byte is none, then with 2 where the journal ends inside the record. Only a record moves the
    /// reader on (`docs/JOURNAL.md`).
    pub fn next(&mut self) -> Result<Option<Located>, ReadFault>
        ensures answers { result ≡ answer_at self.old.bytes.now self.old.at }
        ensures moves { self.new.at ≡ offset_after self.old.bytes.now self.old.at }
        ensures rewrites { Rewrites self.old.bytes.now result }
        ensures same { self.new.bytes ≡ self.old.bytes }
    {
        let offset = self.at;
        let Some(record) = front(&self.bytes[offset..])? else {
            return Ok(None);
        };
        self.at += record.len();
        Ok(Some(Located { offset, record }))
    }
}
