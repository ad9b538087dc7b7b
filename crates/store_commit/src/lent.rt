// A lent store that is written.
ghost use Rattle.std.specs.Prelude.{◌≡◌};
ghost use Rattle.store_memtable.specs.Versions.{bytes_of, commit_one};
ghost use Rattle.store_memtable.specs.Rows.{RoomForOne, Valid, value_if};

use crate::commit;
use store_memtable::store::Store;

// The lent words and bytes of a valid store.
#[derive(Drop)]
pub struct StoreMut<'a> {
    pub words: &'a mut [u64],
    pub bytes: &'a mut [u8],
    pub ghost valid: { Valid words.now bytes.now },
}

impl<'a> StoreMut<'a> {
    ghost use Rattle.store_commit.specs.Leaving.{Leaves, store_of};

    // The same store, to be read.
    pub fn read(&self) -> Store<'_>
        ensures words { result.words.now ≡ self.now.words.now }
        ensures bytes { result.bytes.now ≡ self.now.bytes.now }
    {
        Store {
            words: self.words,
            bytes: self.bytes,
        }
    }

    // Commits one write at the sequence after the last: the value, or a tombstone where the write is not live.
    pub fn commit_one(&mut self, name: &[u8], value: &[u8], live: bool)
        requires { RoomForOne self.old.words.now name.now (bytes_of (value_if live value.now)) }
        ensures { Leaves (commit_one (name.now, value_if live value.now) (store_of self.old)) self.old self.new }
    {
        commit::commit_one(self.words, self.bytes, name, value, live);
    }
}
