// Records of one ranking in memory that is lent.
ghost use Rattle.std.specs.Prelude.{◌≤◌, length};

// The records in use stand at the front of the memory, as many as the file counts: the memory is lent and fixed, so no `Vec` keeps the count.
// Their order is promised by each call and is no invariant of the type, a form that docs/DECISIONS.md settles. A model that shows only the records
// would hide the rest of the memory, which a refusal leaves as it was; what a call keeps, of the length or of all, speaks of two files, not of one.
#[derive(Drop)]
pub struct OrderedFile<'a, T> {
    pub(crate) memory: &'a mut [T],
    pub(crate) count: usize,
    pub ghost sized: { count ≤ length memory.now },
}

// Why a record is not filed.
#[derive(Clone, Copy, Debug, PartialEq, Eq)]
pub enum InsertFault {
    // A record of its rank is there already.
    Present,
    // The memory has no place left.
    Full,
}
