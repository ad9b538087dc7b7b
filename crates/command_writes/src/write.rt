// Setting the write of a key: its row is replaced, or the rows behind its place move up once.
ghost use Rattle.std.specs.Prelude.{◌≡◌, [], ◌∷◌, ◌+◌, ◌-◌, ◌*◌, ◌≤◌, length};
ghost use Rattle.base_key.specs.Bytes.{part, moved_up, put_at};
ghost use Rattle.store_memtable.specs.Layout.{value_of_word};
ghost use Rattle.command_writes.specs.Own.{Own};
ghost use Rattle.command_writes.specs.Changes.{RowFits, OwnPut};

use crate::own::OwnWrites;
use store_memtable::read;

// Moves the rows from row `from` up to row `to` by one: `copy_within`, with what it leaves told in rows.
fn shift_up(own: &mut [u64], from: usize, to: usize)
    requires from_le_to { from ≤ to }
    requires to_in_bounds { 4 * to + 4 ≤ length own.old }
    ensures { own.new ≡ moved_up (4 * from) (4 * to) 4 own.old }
{
    own.copy_within(4 * from..4 * to, 4 * from + 4);
}

// Writes the four words of row i.
fn set_row(
    own: &mut [u64],
    i: usize,
    key_start: usize,
    key_len: usize,
    value_start: usize,
    word: usize,
)
    requires { 4 * i + 4 ≤ length own.old }
    ensures { own.new ≡ put_at (4 * i) (key_start ∷ key_len ∷ value_start ∷ word ∷ []) own.old }
{
    let row = 4 * i;
    // A `copy_from_slice` of an array of the four was tried: it goes by way of the stack, and took more than twice as long.
    own[row] = read::wide(key_start);
    own[row + 1] = read::wide(key_len);
    own[row + 2] = read::wide(value_start);
    own[row + 3] = read::wide(word);
}

// Sets the write of a key, and answers how many rows there are then. `word` is 0 for a tombstone, else the value's length + 1.
// A struct of `own`, `n` and `data` that keeps `Own` was tried: it does not hold between the shift of the rows and the write of the row.
pub fn put(
    own: &mut [u64],
    n: usize,
    data: &[u8],
    key_start: usize,
    key_len: usize,
    value_start: usize,
    word: usize,
) -> usize
    requires own { Own own.old «data».now n }
    requires n_in_bounds { 4 * n + 4 ≤ length own.old }
    requires row_fits { RowFits «data».now key_start key_len value_start word }
    ensures { OwnPut own.old own.new «data».now n (part key_start key_len «data».now) (value_of_word word (part value_start (word - 1) «data».now)) result }
{
    let end = key_start + key_len;
    let name = &data[key_start..end];
    let writes = OwnWrites { own, rows: n, data };
    let i = writes.place(name);
    if writes.holds(i, name) {
        set_row(own, i, key_start, key_len, value_start, word);
        return n;
    }
    shift_up(own, i, n);
    set_row(own, i, key_start, key_len, value_start, word);
    n + 1
}
