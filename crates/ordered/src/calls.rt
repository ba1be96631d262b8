// The calls on an ordered file.
ghost use Rattle.std.specs.Prelude.{◌≡◌, ℕ, ◌+◌, ◌-◌, ◌<◌, ◌≤◌, true, false, [], length, take, is_err, is_some, Some, None, MatchOption, MatchResult, slice_get, slice_set};
ghost use Rattle.std.specs.List.{insert, remove};
ghost use Rattle.ordered.specs.Files.{in_use, room, Ascends, place, located, ToldByPlace, insertion, SameRank, standing, told, left};

use crate::file::{InsertFault, OrderedFile};
use crate::rank::{Rank, Void};

impl<'a, T: Rank + Copy> OrderedFile<'a, T> {
    // An empty file over any memory.
    pub fn open(memory: &'a mut [T]) -> Self
        ensures empty { result.count ≡ 0 }
        ensures memory { result.memory.now ≡ memory.old }
    {
        OrderedFile { memory, count: 0 }
    }

    // The records in use, in ascending order.
    pub fn used(&self) -> &[T]
        ensures value { result.now ≡ in_use self.now }
    {
        &self.memory[..self.count]
    }

    // The place of the key's rank: `Ok` where a record has it, `Err` with the place where one would have to go.
    pub fn find(&self, key: &T) -> Result<usize, usize>
        ensures value { Ascends T.before (in_use self.now) → result ≡ located T.before key.now (in_use self.now) }
        ensures cases { Ascends T.before (in_use self.now) → ToldByPlace T.before T.fields key.now (in_use self.now) result }
        ensures bound { MatchResult result (λ i. i < length (in_use self.now)) (λ i. i ≤ length (in_use self.now)) }
    {
        self.used().binary_search_by(|record| record.rank(key))
    }

    // Files a record in its place. Refused where its rank is there already, then where no place is left.
    pub fn insert(&mut self, item: T) -> Result<(), InsertFault>
        ensures answers { Ascends T.before (in_use self.old) → result ≡ told (insertion T.before (room self.old) (in_use self.old) item) }
        ensures items { Ascends T.before (in_use self.old) → in_use self.new ≡ left (in_use self.old) (insertion T.before (room self.old) (in_use self.old) item) }
        ensures ascends { Ascends T.before (in_use self.old) → Ascends T.before (in_use self.new) }
        ensures same { is_err result ≡ true → self.new ≡ self.old }
        ensures memory { room self.new ≡ room self.old }
    {
        let Err(at) = self.find(&item) else {
            return Err(InsertFault::Present);
        };
        if self.count == self.memory.len() {
            return Err(InsertFault::Full);
        }
        put_in(&mut self.memory[..=self.count], at, item);
        self.count += 1;
        Ok(())
    }

    // Puts a record in the place of one of the same rank, and gives the one that stood there. At another rank, or where no record is in use,
    // nothing changes.
    pub fn update(&mut self, at: usize, item: T) -> Option<T>
        ensures value { MatchOption result (SameRank T.fields (in_use self.old) at item → ⊥) (λ there. SameRank T.fields (in_use self.old) at item × (slice_get (in_use self.old) at ≡ Some there)) }
        ensures items { is_some result ≡ true → in_use self.new ≡ slice_set (in_use self.old) at item }
        ensures ascends { Ascends T.before (in_use self.old) → Ascends T.before (in_use self.new) }
        ensures same { result ≡ None → self.new ≡ self.old }
        ensures memory { room self.new ≡ room self.old }
    {
        let there = *self.used().get(at)?;
        if item.rank(&there).is_ne() {
            return None;
        }
        self.memory[at] = item;
        Some(there)
    }

    // Removes the record at a place, and gives it. Where no record is in use there, nothing changes.
    pub fn remove(&mut self, at: usize) -> Option<T>
        ensures value { result ≡ slice_get (in_use self.old) at }
        ensures items { is_some result ≡ true → in_use self.new ≡ remove (in_use self.old) at }
        ensures ascends { Ascends T.before (in_use self.old) → Ascends T.before (in_use self.new) }
        ensures same { result ≡ None → self.new ≡ self.old }
        ensures memory { room self.new ≡ room self.old }
    {
        let gone = *self.used().get(at)?;
        take_out(&mut self.memory[..self.count], at);
        self.count -= 1;
        Some(gone)
    }
}

impl<'a, T: Rank + Void + Copy> OrderedFile<'a, T> {
    // Drops the records that are void and keeps the others in their order, in one pass.
    pub fn compact(&mut self)
        ensures items { in_use self.new ≡ standing T.void (in_use self.old) }
        ensures ascends { Ascends T.before (in_use self.old) → Ascends T.before (in_use self.new) }
        ensures same { standing T.void (in_use self.old) ≡ in_use self.old → self.new ≡ self.old }
        ensures memory { room self.new ≡ room self.old }
    {
        self.count = sweep(&mut self.memory[..self.count]);
    }
}

// Puts a record in at a place. The last place is free, and the records from the given place on move up by one.
fn put_in<T: Copy>(records: &mut [T], at: usize, item: T)
    requires { at < length records.old }
    ensures { records.new ≡ insert (take (length records.old - 1) records.old) at item }
{
    records[at..].rotate_right(1);
    records[at] = item;
}

// Takes the record at a place out of the others, which then stand before it.
fn take_out<T>(records: &mut [T], at: usize)
    requires { at < length records.old }
    ensures { take (length records.old - 1) records.new ≡ remove records.old at }
{
    records[at..].rotate_left(1);
}

// Moves the records that are not void to the front, and says how many there are.
fn sweep<T: Void + Copy>(records: &mut [T]) -> usize
    ensures front { take result records.new ≡ standing T.void records.old }
    ensures bound { result ≤ length records.old }
    ensures same { result ≡ length records.old → records.new ≡ records.old }
{
    // By index: a record is read and another written in the same memory, which no iterator lends for both.
    let mut to = 0;
    for i in 0..records.len() {
        let item = records[i];
        if !item.is_void() {
            records[to] = item;
            to += 1;
        }
    }
    to
}
