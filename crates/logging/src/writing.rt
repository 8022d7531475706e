// Writing to the lent journal.
ghost use Rattle.std.specs.Prelude.{◌≡◌};
ghost use Rattle.journal.specs.Journal.{fit, fitting, appended};

use journal::{BATCH_LENGTH, Batch, Record};

// Writes the records of the batch from place `at` on, and nothing where they do not all fit.
#[tactic(auto, using(journal::proofs::Appended::fitting_few, journal::proofs::Appended::written_more))]
pub fn append(journal: &mut [Record], at: usize, batch: Batch)
    ensures { journal.new ≡ appended journal.old at batch }
{
    let n = fitting(journal.len(), at, batch.n);
    for k in 0..n {
        journal[at + k] = batch.items[k];
    }
}

// How many of n records are written from place `at` on in a journal of `len` records: all or none.
#[tactic(auto, unfolding(journal::specs::Journal::fitting))]
pub fn fitting(len: usize, at: usize, n: usize) -> usize
    ensures { result ≡ fitting len at n }
{
    if fit(len, at, n) { n } else { 0 }
}

// Whether they are no more than one frame adds, and there is room for them.
fn fit(len: usize, at: usize, n: usize) -> bool
    ensures { result ≡ fit len at n }
{
    n <= BATCH_LENGTH && n <= len && at <= len - n
}
