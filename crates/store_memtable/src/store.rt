// A lent store that is valid, and what is read of it.
ghost use Rattle.std.specs.Prelude.{◌≡◌, ◌↔◌, ◌-◌, ◌<◌, length, IsTrue, IsSome, IfSome, option_copied};
ghost use Rattle.store_memtable.specs.Versions.{find_from, moved, newest, read_at, table};
ghost use Rattle.store_memtable.specs.Layout.{count_word, valid_store, value_part, version_at};
ghost use Rattle.store_memtable.specs.Rows.{Valid, live_found, place_of};
ghost use Rattle.store_memtable.specs.Walk.{next_live};

use crate::{LAST, live, read, valid};

// The lent words and bytes of a valid store.
#[derive(Clone, Copy)]
pub struct Store<'a> {
    pub words: &'a [u64],
    pub bytes: &'a [u8],
    pub ghost valid: { Valid words.now bytes.now },
}

impl<'a> Store<'a> {
    ghost use Rattle.store_memtable.specs.Reading.{versions_of};

    // The store in these words and bytes, if they are valid by the layout.
    pub fn new(words: &'a [u64], bytes: &'a [u8]) -> Option<Store<'a>>
        ensures valid { IsSome result ↔ IsTrue (valid_store words.now bytes.now) }
        ensures words { IfSome result (λ s. s.words.now ≡ words.now) }
        ensures bytes { IfSome result (λ s. s.bytes.now ≡ bytes.now) }
    {
        if valid::validate(words, bytes) {
            Some(Store { words, bytes })
        } else {
            None
        }
    }

    // The bytes of version i's key.
    pub fn key(&self, i: usize) -> &'a [u8]
        requires { i < count_word self.now.words.now }
        ensures { result.now ≡ (version_at self.now.words.now self.now.bytes.now i).key }
    {
        read::key_of(self.words, self.bytes, i)
    }

    // The bytes of version i's value: none of a tombstone.
    pub fn value(&self, i: usize) -> &'a [u8]
        requires { i < count_word self.now.words.now }
        ensures { result.now ≡ value_part self.now.words.now self.now.bytes.now i }
    {
        read::value_of(self.words, self.bytes, i)
    }

    // How many versions come before `name` at `seq`: the place to insert it, and to find it.
    pub fn place(&self, name: &[u8], seq: u64) -> usize
        ensures { result ≡ place_of name.now seq (versions_of self.now) }
    {
        read::place_in(self.words, self.bytes, read::word(self.words, 0), name, seq)
    }

    // The place of the version that a read of `name` at `seq` finds.
    pub fn find(&self, name: &[u8], seq: u64) -> Option<usize>
        ensures { result ≡ find_from 0 (versions_of self.now) name.now seq }
    {
        let i = self.place(name, seq);
        if i < read::word(self.words, 0) && read::is_of(self.words, self.bytes, i, name) {
            Some(i)
        } else {
            None
        }
    }

    // The place of the value that a read of `name` at `seq` gives: none where it finds a tombstone.
    pub fn find_value(&self, name: &[u8], seq: u64) -> Option<usize>
        ensures { result ≡ live_found self.now.words.now (find_from 0 (versions_of self.now) name.now seq) }
    {
        match self.find(name, seq) {
            Some(i) if !read::is_tombstone(self.words, i) => Some(i),
            _ => None,
        }
    }

    // The value that a read of `name` at `seq` gives.
    pub fn get(&self, name: &[u8], seq: u64) -> Option<&'a [u8]>
        ensures { option_copied result ≡ read_at seq (versions_of self.now) name.now }
    {
        Some(self.value(self.find_value(name, seq)?))
    }

    // The highest sequence among the versions of `name`, tombstones included; 0 where it has none.
    pub fn newest(&self, name: &[u8]) -> u64
        ensures { result ≡ newest (versions_of self.now) name.now }
    {
        match self.find(name, self.words[LAST]) {
            Some(i) => read::seq_of(self.words, i),
            None => 0,
        }
    }

    // Has `name` a version above `seq`?
    pub fn moved(&self, name: &[u8], seq: u64) -> bool
        ensures { result ≡ moved seq (versions_of self.now) name.now }
    {
        seq < self.newest(name)
    }

    // The first live place from `from` on.
    pub fn next_live(&self, from: usize) -> Option<usize>
        ensures { result ≡ next_live self.now.words.now self.now.bytes.now from (count_word self.now.words.now - from) }
    {
        live::next_live(self.words, self.bytes, from)
    }

    // How many keys are live.
    pub fn count_live(&self) -> usize
        ensures { result ≡ length (table (versions_of self.now)) }
    {
        // A `filter` and a `count` of the places were tried: they took more than twice as long.
        let mut live = 0;
        for i in 0..read::word(self.words, 0) {
            if live::live_at(self.words, self.bytes, i) {
                live += 1;
            }
        }
        live
    }
}
