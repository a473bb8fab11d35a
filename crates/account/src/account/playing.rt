//! A whole journal played into an account.
ghost use Rattle.std.specs.Prelude.{◌≡◌, IfOk, OnErr, vec_items};
ghost use Rattle.gas.specs.Tariffs.{Tariff};
ghost use Rattle.ledger.specs.Runs.{RunsAddUp, state_after, refusal_by};
ghost use Rattle.journal.specs.Reading.{answer_at, offset_after};
ghost use Rattle.account.specs.Journals.{call_of, answer_of_entry, read_at};
ghost use Rattle.account.specs.Playing.{Played};

use crate::account::Account;
use crate::faults::{JournalFault, Refusal};
use gas::Schedule;
use journal::{Located, Reader};
use std::alloc::{AllocError, Global};

// How many bytes the shortest record has.
const LEAST_LENGTH: usize = 5;

// The next record of a journal, or none at its end; a refusal comes with the offset.
fn next_record(reader: &mut Reader) -> Result<Option<Located>, JournalFault>
    ensures answers { result ≡
        read_at reader.old.at (answer_at reader.old.bytes.now reader.old.at) }
    ensures moves { reader.new.at ≡ offset_after reader.old.bytes.now reader.old.at }
    ensures same { reader.new.bytes ≡ reader.old.bytes }
{
    let offset = reader.offset();
    Ok(reader.next().map_err(|fault| (offset, fault))?)
}

impl<S: Schedule> Account<S> {
    /// Takes in a record of a journal, and answers nothing or its refusal with the record's byte
    /// offset. With a reader it plays a journal without memory of its own (`docs/ACCOUNT.md`).
    pub fn enter_located(&mut self, located: &Located) -> Result<(), JournalFault>
        ensures answers { result ≡
            answer_of_entry located.now.offset
            (refusal_by (S.tariff self.old.schedule) (call_of located.now.«record»)
            self.old.state) }
        ensures leaves { self.new.state ≡
            state_after (S.tariff self.old.schedule) (call_of located.now.«record») self.old.state }
        ensures schedule { self.new.schedule ≡ self.old.schedule }
        ensures unchanged { OnErr result (self.new ≡ self.old) }
    {
        self.enter(&located.record)
            .map_err(|fault| (located.offset, fault))?;
        Ok(())
    }

    /// Plays every record of a journal in order. A record that is refused is passed over and
    /// answered with its number and offset; one that cannot be read is the last. Fails only where
    /// there is no memory for the refusals, and then plays nothing (`docs/ACCOUNT.md`).
    ///
    /// The law of all runs stands here: whole, and of this account by every history that it goes on
    /// from (`docs/LEDGER.md`).
    pub fn play(&mut self, alloc: Global, journal: &[u8]) -> Result<Vec<Refusal>, AllocError>
        ensures played { IfOk result (λ refusals.
            Played (S.tariff self.old.schedule) journal.now self.old.state self.new.state
            (vec_items refusals)) }
        ensures schedule { self.new.schedule ≡ self.old.schedule }
        ensures unchanged { OnErr result (self.new ≡ self.old) }
        ensures law { RunsAddUp }
    {
        // room for the refusal of every record and of one that cannot be read, so that no later
        // step wants memory
        let mut refusals = Vec::with_capacity(alloc, journal.len() / LEAST_LENGTH + 1)?;
        let mut reader = Reader::new(journal);
        for number in 1.. {
            match next_record(&mut reader) {
                Ok(Some(located)) => {
                    if let Err(fault) = self.enter_located(&located) {
                        refusals.push(Refusal { number, fault }).unwrap();
                    }
                }
                Ok(None) => break,
                Err(unread) => {
                    let last = Refusal {
                        number,
                        fault: unread,
                    };
                    refusals.push(last).unwrap();
                    break;
                }
            }
        }
        Ok(refusals)
    }
}
