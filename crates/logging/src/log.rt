// A journal by value, for programs that keep one.
ghost use Rattle.std.specs.Prelude.{◌≡◌, length};
ghost use Rattle.journal.specs.Journal.{record_at, appended};
ghost use Rattle.journal.specs.Log.{blank_log};

use crate::record::blank;
use crate::writing::append;
use journal::{Batch, JOURNAL_LENGTH, Log, Record};

// A journal with no record in it.
pub fn blank_log() -> Log
    ensures { result ≡ blank_log }
{
    Log {
        records: [blank(); JOURNAL_LENGTH],
    }
}

// How many records it has.
pub fn log_length(records: [Record; JOURNAL_LENGTH]) -> usize
    ensures { result ≡ length records }
{
    JOURNAL_LENGTH
}

// The record of number i; the blank one past the end.
pub fn log_at(log: Log, i: usize) -> Record
    ensures { result ≡ record_at log.records i }
{
    if i < JOURNAL_LENGTH {
        log.records[i]
    } else {
        blank()
    }
}

// The log with the records of the batch from place `at` on; as it is where they do not all fit.
pub fn log_with(mut log: Log, at: usize, batch: Batch) -> Log
    ensures { result.records ≡ appended log.records at batch }
{
    append(&mut log.records, at, batch);
    log
}
