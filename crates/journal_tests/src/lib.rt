//! Tests of the journal's reader and writer: damaged journals, tight buffers, and bytes put down by
//! hand.
#![tactic(auto)]

#[cfg(test)]
mod tests {
    use gas::{ClosingNumbers, DayNumbers, WriteFault};
    use journal::*;
    use std::process::Abort;
    use std::test::Fail;

    // A record of each kind beside its bytes, worked out by hand from the format.
    const OPEN: Record = Record::Open {
        leap: 1,
        increase: 137,
        first: 2,
        last: 11,
    };

    const OPEN_BYTES: &[u8] = b"\x01\x01\x89\x00\x02\x0b";

    const DAY: Day = Day {
        month: 11,
        day: 31,
        numbers: DayNumbers {
            kind: 3,
            curtailed: 1,
            nomination: 0x0403_0201,
            receipts: 200_000,
            reading: 0x0100_0000,
            after_notice: 0xffff_ffff,
            supply_cost: 256,
            variance_rate: 65_536,
        },
    };

    const POST: Record = Record::Post { day: DAY };

    const POST_BYTES: &[u8] =
        b"\x02\x0b\x1f\x03\x01\x01\x02\x03\x04\x40\x0d\x03\x00\x00\x00\x00\x01\xff\xff\xff\xff\x00\x01\x00\x00\x00\x00\x01\x00";

    const CORRECT: Record = Record::Correct { day: DAY };

    const CORRECT_BYTES: &[u8] =
        b"\x03\x0b\x1f\x03\x01\x01\x02\x03\x04\x40\x0d\x03\x00\x00\x00\x00\x01\xff\xff\xff\xff\x00\x01\x00\x00\x00\x00\x01\x00";

    const CLOSE: Record = Record::Close {
        month: 0,
        numbers: ClosingNumbers {
            index: 30_000,
            interruptible: 1_000,
            firm: 2_000_000,
        },
    };

    const CLOSE_BYTES: &[u8] = b"\x04\x00\x30\x75\x00\x00\xe8\x03\x00\x00\x80\x84\x1e\x00";

    const PAY: Record = Record::Pay {
        amount: 0x0807_0605_0403_0201,
    };

    const PAY_BYTES: &[u8] = b"\x05\x01\x02\x03\x04\x05\x06\x07\x08";

    const SETTLE: Record = Record::Settle {
        final_increase: 100,
        interest: 258,
    };

    const SETTLE_BYTES: &[u8] = b"\x06\x64\x00\x02\x01";

    const KINDS: [(Record, &[u8]); 6] = [
        (OPEN, OPEN_BYTES),
        (POST, POST_BYTES),
        (CORRECT, CORRECT_BYTES),
        (CLOSE, CLOSE_BYTES),
        (PAY, PAY_BYTES),
        (SETTLE, SETTLE_BYTES),
    ];

    // Cut at every length the bytes are refused and the reader stays; whole they give the record,
    // and then the end.
    fn reads(rt: &impl Abort, record: Record, bytes: &[u8]) {
        for n in 1..bytes.len() {
            let mut reader = Reader::new(&bytes[0..n]);
            assert_eq!(rt; reader.next(), Err(ReadFault::CutShort));
            assert_eq!(rt; reader.offset(), 0);
        }
        let mut reader = Reader::new(bytes);
        assert_eq!(rt; reader.next(), Ok(Some(Located { offset: 0, record })));
        assert_eq!(rt; reader.offset(), bytes.len());
        assert_eq!(rt; reader.next(), Ok(None));
    }

    #[test]
    fn every_kind_is_read_whole_and_refused_at_every_cut(rt: HostRuntime) {
        for (record, bytes) in KINDS {
            reads(&rt, record, bytes);
        }
    }

    // In a buffer of every length up to 40 the record is written just where it fits, and nothing
    // behind it or after a refusal changes.
    fn writes(rt: &impl Abort, record: Record, bytes: &[u8]) {
        let size = bytes.len();
        assert_eq!(rt; record.len(), size);
        assert!(rt; size <= 40);
        for room in 0..41 {
            let mut buffer = [0xaa; 40];
            let mut left = [0xaa; 40];
            let mut answer = Err(WriteFault::BufferTooShort);
            if size <= room {
                left[0..size].copy_from_slice(bytes);
                answer = Ok(size);
            }
            assert_eq!(rt; write(&record, &mut buffer[0..room]), answer);
            assert_eq!(rt; buffer, left);
        }
    }

    #[test]
    fn every_kind_is_written_where_it_fits(rt: HostRuntime) {
        for (record, bytes) in KINDS {
            writes(&rt, record, bytes);
        }
    }

    #[test]
    fn unknown_kinds_are_refused_however_long_the_rest(rt: HostRuntime) {
        for kind in [0, 7, 255] {
            let mut bytes = [0; 40];
            bytes[0] = kind;
            for n in 1..41 {
                let mut reader = Reader::new(&bytes[0..n]);
                assert_eq!(rt; reader.next(), Err(ReadFault::UnknownKind));
                assert_eq!(rt; reader.offset(), 0);
            }
        }
    }

    #[test]
    fn the_empty_journal_ends_at_once(rt: HostRuntime) {
        let mut reader = Reader::new(b"");
        assert_eq!(rt; reader.next(), Ok(None));
        assert_eq!(rt; reader.next(), Ok(None));
        assert_eq!(rt; reader.offset(), 0);
    }

    #[test]
    fn a_refusal_behind_whole_records_is_met_again_at_its_offset(rt: HostRuntime) {
        let mut reader = Reader::new(b"\x06\x64\x00\x02\x01\x05\x01\x02");
        assert_eq!(rt;
            reader.next(),
            Ok(Some(Located {
                offset: 0,
                record: SETTLE,
            }))
        );
        assert_eq!(rt; reader.next(), Err(ReadFault::CutShort));
        assert_eq!(rt; reader.next(), Err(ReadFault::CutShort));
        assert_eq!(rt; reader.offset(), 5);
    }

    #[test]
    fn refusals_have_their_numbers(rt: HostRuntime) {
        assert_eq!(rt; ReadFault::UnknownKind.number(), 1);
        assert_eq!(rt; ReadFault::CutShort.number(), 2);
        assert_eq!(rt; WriteFault::BufferTooShort.number(), 10);
    }

    // A byte for each offset, so that no two runs of the stream look alike.
    fn patterned() -> [u8; 70_000] {
        let mut bytes = [0; 70_000];
        for (i, b) in bytes.iter_mut().enumerate() {
            *b = (i % 251) as u8;
        }
        bytes
    }

    #[test]
    fn a_stream_is_taken_whole_up_to_its_longest(rt: HostRuntime) -> Result<(), Fail> {
        let bytes = patterned();
        for n in [0, 1, 65_535, 65_536] {
            let taken = load(rt.alloc(), &bytes[0..n])?.ok_or("none")?;
            assert!(rt; taken.as_slice() == &bytes[0..n]);
        }
        Ok(())
    }

    #[test]
    fn a_longer_stream_is_left_after_one_byte_too_many(rt: HostRuntime) -> Result<(), Fail> {
        let bytes = patterned();
        let mut stream = &bytes[0..];
        assert!(rt; load(rt.alloc(), &mut stream)?.is_none());
        assert_eq!(rt; stream.len(), 70_000 - 65_537);
        Ok(())
    }
}
