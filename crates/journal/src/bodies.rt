//! From bytes to the record that they begin with.
ghost use Rattle.std.specs.Prelude.{◌≡◌};
ghost use Rattle.journal.specs.Reading.{read_body, read_day, read_front, read_record};
ghost use Rattle.journal.specs.RoundTrips.{BeginsWith};

use crate::faults::ReadFault;
use crate::kinds::{Day, Record};
use gas::{ClosingNumbers, DayNumbers};

fn open(body: &[u8]) -> Result<Record, ReadFault>
    ensures { result ≡ read_body 1 body.now }
{
    let [leap, i0, i1, first, last, ..] = body else {
        return Err(ReadFault::CutShort);
    };
    Ok(Record::Open {
        leap: *leap,
        increase: u16::from_le_bytes([*i0, *i1]),
        first: *first,
        last: *last,
    })
}

// The day that post and correct carry.
fn day(body: &[u8]) -> Result<Day, ReadFault>
    ensures { result ≡ read_day body.now }
{
    let [
        month,
        day,
        kind,
        curtailed,
        n0,
        n1,
        n2,
        n3,
        r0,
        r1,
        r2,
        r3,
        m0,
        m1,
        m2,
        m3,
        a0,
        a1,
        a2,
        a3,
        s0,
        s1,
        s2,
        s3,
        v0,
        v1,
        v2,
        v3,
        ..
    ] = body
    else {
        return Err(ReadFault::CutShort);
    };
    Ok(Day {
        month: *month,
        day: *day,
        numbers: DayNumbers {
            kind: *kind,
            curtailed: *curtailed,
            nomination: u32::from_le_bytes([*n0, *n1, *n2, *n3]),
            receipts: u32::from_le_bytes([*r0, *r1, *r2, *r3]),
            reading: u32::from_le_bytes([*m0, *m1, *m2, *m3]),
            after_notice: u32::from_le_bytes([*a0, *a1, *a2, *a3]),
            supply_cost: u32::from_le_bytes([*s0, *s1, *s2, *s3]),
            variance_rate: u32::from_le_bytes([*v0, *v1, *v2, *v3]),
        },
    })
}

fn close(body: &[u8]) -> Result<Record, ReadFault>
    ensures { result ≡ read_body 4 body.now }
{
    let [month, i0, i1, i2, i3, t0, t1, t2, t3, f0, f1, f2, f3, ..] = body else {
        return Err(ReadFault::CutShort);
    };
    Ok(Record::Close {
        month: *month,
        numbers: ClosingNumbers {
            index: u32::from_le_bytes([*i0, *i1, *i2, *i3]),
            interruptible: u32::from_le_bytes([*t0, *t1, *t2, *t3]),
            firm: u32::from_le_bytes([*f0, *f1, *f2, *f3]),
        },
    })
}

fn pay(body: &[u8]) -> Result<Record, ReadFault>
    ensures { result ≡ read_body 5 body.now }
{
    let [a0, a1, a2, a3, a4, a5, a6, a7, ..] = body else {
        return Err(ReadFault::CutShort);
    };
    Ok(Record::Pay {
        amount: u64::from_le_bytes([*a0, *a1, *a2, *a3, *a4, *a5, *a6, *a7]),
    })
}

fn settle(body: &[u8]) -> Result<Record, ReadFault>
    ensures { result ≡ read_body 6 body.now }
{
    let [f0, f1, i0, i1, ..] = body else {
        return Err(ReadFault::CutShort);
    };
    Ok(Record::Settle {
        final_increase: u16::from_le_bytes([*f0, *f1]),
        interest: u16::from_le_bytes([*i0, *i1]),
    })
}

// The record of a kind, from the bytes behind its kind byte.
fn record_of(kind: u8, body: &[u8]) -> Result<Record, ReadFault>
    ensures { result ≡ read_record kind body.now }
{
    match kind {
        1 => open(body),
        2 => Ok(Record::Post { day: day(body)? }),
        3 => Ok(Record::Correct { day: day(body)? }),
        4 => close(body),
        5 => pay(body),
        6 => settle(body),
        _ => Err(ReadFault::UnknownKind),
    }
}

/// The record that the bytes begin with, or none where there is no byte; refused with 1 where the
/// first is no kind, then with 2 where the body is cut short (`docs/JOURNAL.md`).
#[tactic(auto, using(crate::proofs::RoundTrips::begins))]
pub fn front(bytes: &[u8]) -> Result<Option<Record>, ReadFault>
    ensures reads { result ≡ read_front bytes.now }
    ensures begins { BeginsWith bytes.now result }
{
    let [kind, body @ ..] = bytes else {
        return Ok(None);
    };
    Ok(Some(record_of(*kind, body)?))
}
