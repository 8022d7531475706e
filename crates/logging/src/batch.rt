// A batch of records, made one by one: as many places as one frame can need, and a count, since
// nothing here is on a heap.
ghost use Rattle.std.specs.Prelude.{◌≡◌};
ghost use Rattle.journal.specs.Journal.{empty_batch, with_record};

use crate::record::blank;
use journal::{BATCH_LENGTH, Batch, Record};

// A batch with no record.
pub fn empty() -> Batch
    ensures { result ≡ empty_batch }
{
    Batch {
        items: [blank(); BATCH_LENGTH],
        n: 0,
    }
}

// The batch with one record more; a full one stays as it is.
#[tactic(auto, using(journal::proofs::Batches::with_room, journal::proofs::Batches::with_full))]
pub fn with(mut batch: Batch, next: Record) -> Batch
    ensures { result ≡ with_record batch next }
{
    if batch.n < BATCH_LENGTH {
        batch.items[batch.n] = next;
        batch.n += 1;
    }
    batch
}
