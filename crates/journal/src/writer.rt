//! Writing records at the start of a caller's buffer.
ghost use Rattle.std.specs.Prelude.{◌≡◌, ◌∷◌, take, IfOk};
ghost use Rattle.journal.specs.Format.{bytes_of_day, close_widths, day_fields, day_widths};
ghost use Rattle.journal.specs.Format.{fields_of, record_bytes};
ghost use Rattle.journal.specs.Numbers.{Fit};
ghost use Rattle.journal.specs.declared.kinds.Record.TheVariants.{Open, Close, Pay, Settle};
ghost use Rattle.journal.specs.RoundTrips.{ReadsBack};
ghost use Rattle.journal.specs.Writing.{write_answer, buffer_after};

use crate::kinds::{Day, Record};
use gas::{ClosingNumbers, WriteFault, put_at_start};

// The bytes of a record of the kind that carries a day.
fn day_bytes(kind: u8, day: Day) -> [u8; 29]
    ensures bytes { result ≡ kind ∷ bytes_of_day day }
    ensures within { Fit day_widths (day_fields day) }
{
    let [n0, n1, n2, n3] = day.numbers.nomination.to_le_bytes();
    let [r0, r1, r2, r3] = day.numbers.receipts.to_le_bytes();
    let [m0, m1, m2, m3] = day.numbers.reading.to_le_bytes();
    let [a0, a1, a2, a3] = day.numbers.after_notice.to_le_bytes();
    let [s0, s1, s2, s3] = day.numbers.supply_cost.to_le_bytes();
    let [v0, v1, v2, v3] = day.numbers.variance_rate.to_le_bytes();
    [
        kind,
        day.month,
        day.day,
        day.numbers.kind,
        day.numbers.curtailed,
        n0,
        n1,
        n2,
        n3,
        r0,
        r1,
        r2,
        r3,
        m0,
        m1,
        m2,
        m3,
        a0,
        a1,
        a2,
        a3,
        s0,
        s1,
        s2,
        s3,
        v0,
        v1,
        v2,
        v3,
    ]
}

fn open_bytes(leap: u8, increase: u16, first: u8, last: u8) -> [u8; 6]
    ensures { result ≡ record_bytes (Open leap increase first last) }
{
    let [i0, i1] = increase.to_le_bytes();
    [1, leap, i0, i1, first, last]
}

fn close_bytes(month: u8, numbers: ClosingNumbers) -> [u8; 14]
    ensures bytes { result ≡ record_bytes (Close month numbers) }
    ensures within { Fit close_widths (fields_of (Close month numbers)) }
{
    let [i0, i1, i2, i3] = numbers.index.to_le_bytes();
    let [t0, t1, t2, t3] = numbers.interruptible.to_le_bytes();
    let [f0, f1, f2, f3] = numbers.firm.to_le_bytes();
    [4, month, i0, i1, i2, i3, t0, t1, t2, t3, f0, f1, f2, f3]
}

fn pay_bytes(amount: u64) -> [u8; 9]
    ensures { result ≡ record_bytes (Pay amount) }
{
    let [a0, a1, a2, a3, a4, a5, a6, a7] = amount.to_le_bytes();
    [5, a0, a1, a2, a3, a4, a5, a6, a7]
}

fn settle_bytes(final_increase: u16, interest: u16) -> [u8; 5]
    ensures { result ≡ record_bytes (Settle final_increase interest) }
{
    let [f0, f1] = final_increase.to_le_bytes();
    let [i0, i1] = interest.to_le_bytes();
    [6, f0, f1, i0, i1]
}

/// Puts the record's bytes at the start of the buffer and answers how many they are; what stands
/// behind them stays. Refused with 10 where the buffer is too short, which then stays whole
/// (`docs/JOURNAL.md`).
pub fn write(record: &Record, buffer: &mut [u8]) -> Result<usize, WriteFault>
    ensures answers { result ≡ write_answer «record».now buffer.old }
    ensures leaves { buffer.new ≡ buffer_after «record».now buffer.old }
    ensures reads_back { IfOk result (λ n. ReadsBack «record».now (take n buffer.new)) }
{
    match *record {
        Record::Open {
            leap,
            increase,
            first,
            last,
        } => put_at_start(buffer, &open_bytes(leap, increase, first, last)),
        Record::Post { day } => put_at_start(buffer, &day_bytes(2, day)),
        Record::Correct { day } => put_at_start(buffer, &day_bytes(3, day)),
        Record::Close { month, numbers } => put_at_start(buffer, &close_bytes(month, numbers)),
        Record::Pay { amount } => put_at_start(buffer, &pay_bytes(amount)),
        Record::Settle {
            final_increase,
            interest,
        } => put_at_start(buffer, &settle_bytes(final_increase, interest)),
    }
}
