// The walk over the live keys, ascending. These ask for less than a valid store, so they take slices.
ghost use Rattle.std.specs.Prelude.{◌≡◌, ◌-◌, length};
ghost use Rattle.base_key.specs.Keys.{same_key};
ghost use Rattle.store_memtable.specs.Versions.{table};
ghost use Rattle.store_memtable.specs.Layout.{count_word, version_at};
ghost use Rattle.store_memtable.specs.Rows.{Readable, RowIn, Valid, versions_in};
ghost use Rattle.store_memtable.specs.Walk.{live_at, next_live};

use crate::read;

// Have the versions i and j one key?
fn same_key(words: &[u64], bytes: &[u8], i: usize, j: usize) -> bool
    requires row_in { RowIn words.now bytes.now i }
    requires row_in_2 { RowIn words.now bytes.now j }
    ensures { result ≡ same_key (version_at words.now bytes.now i).key (version_at words.now bytes.now j).key }
{
    base_key::same(read::key_of(words, bytes, i), read::key_of(words, bytes, j))
}

// Is version i its key's newest, and no tombstone?
pub fn live_at(words: &[u64], bytes: &[u8], i: usize) -> bool
    requires row_in { RowIn words.now bytes.now i }
    requires row_in_2 { RowIn words.now bytes.now (i - 1) }
    ensures { result ≡ live_at words.now bytes.now i }
{
    !read::is_tombstone(words, i) && (i == 0 || !same_key(words, bytes, i - 1, i))
}

// The first live place from `from` on.
pub fn next_live(words: &[u64], bytes: &[u8], from: usize) -> Option<usize>
    requires { Readable words.now bytes.now }
    ensures { result ≡ next_live words.now bytes.now from (count_word words.now - from) }
{
    for i in from..read::word(words, 0) {
        if live_at(words, bytes, i) {
            return Some(i);
        }
    }
    None
}
