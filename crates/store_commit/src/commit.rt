// Committing one write: a merge of one.
ghost use Rattle.std.specs.Prelude.{◌≡◌};
ghost use Rattle.store_memtable.specs.Versions.{bytes_of, commit_one};
ghost use Rattle.store_memtable.specs.Layout.{store_in, leave_words, leave_bytes};
ghost use Rattle.store_memtable.specs.Rows.{RoomForOne, Valid, value_if};

use crate::merge;
use store_memtable::{Front, LAST, read};

// Commits one write at the sequence after the last: the value, or a tombstone where the write is not live.
pub fn commit_one(words: &mut [u64], bytes: &mut [u8], name: &[u8], value: &[u8], live: bool)
    requires valid { Valid words.old bytes.old }
    requires room_for_one { RoomForOne words.old name.now (bytes_of (value_if live value.now)) }
    ensures words_after { words.new ≡ leave_words (commit_one (name.now, value_if live value.now) (store_in words.old bytes.old)) words.old }
    ensures bytes_after { bytes.new ≡ leave_bytes (commit_one (name.now, value_if live value.now) (store_in words.old bytes.old)) bytes.old }
{
    let rows = read::word(words, 0);
    let used = read::word(words, 1);
    let seq = words[LAST] + 1;
    let gap = name.len() + merge::kept(live, value).len();
    let front = Front { rows, used, gap };
    merge::merge_one(words, bytes, name, value, live, 1, seq, front);
    merge::renew_header(words, rows + 1, used + gap, seq);
}
