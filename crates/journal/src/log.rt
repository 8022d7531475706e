// A journal by value, for programs that keep one.
use crate::JOURNAL_LENGTH;
use crate::record::Record;

#[derive(Clone, Copy)]
pub struct Log {
    pub records: [Record; JOURNAL_LENGTH],
}
