// The journal as bytes: records of five, and writing a batch of them.
ghost use Rattle.std.specs.Prelude.{◌≡◌};
ghost use Rattle.journal.specs.Journal.{appended};
ghost use Rattle.encoding.specs.JournalBytes.{record_bytes, records_in, with_records};

use journal::{Batch, Record};
use part::put;

pub const RECORD_LENGTH: usize = 5;

// Writes the records of the batch from record `at` on, and nothing where they do not all fit.
#[tactic(auto, using(journal::proofs::Appended::fitting_few))]
pub fn append(bytes: &mut [u8], at: usize, batch: Batch)
    ensures { bytes.new
        ≡ with_records bytes.old (appended (records_in bytes.old) at batch) }
{
    let n = logging::fitting(bytes.len() / RECORD_LENGTH, at, batch.n);
    let entries = &batch.items[..n];
    for (k, entry) in entries.iter().enumerate() {
        put(&record_bytes(*entry), bytes, RECORD_LENGTH * (at + k));
    }
}

fn record_bytes(entry: Record) -> [u8; RECORD_LENGTH]
    ensures { result ≡ record_bytes entry }
{
    [
        entry.kind,
        entry.train.0,
        entry.from.0,
        entry.to.0,
        entry.track.0,
    ]
}
