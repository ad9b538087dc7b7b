// Merging writes of ascending keys into a store, from the last to the first: each row and byte moves at most once. These take slices, not a
// `StoreMut`: between the writes the store is not valid.
ghost use Rattle.std.specs.Prelude.{◌≡◌, [], ◌∷◌, ℕ, ◌+◌, ◌*◌, ◌^◌, ◌≤◌, ◌<◌, length, set};
ghost use Rattle.store_memtable.specs.Versions.{bytes_of};
ghost use Rattle.store_memtable.specs.Layout.{start_word, key_word, value_word, seq_word, word_of_value};
ghost use Rattle.store_memtable.specs.Rows.{value_if};
ghost use Rattle.base_key.specs.Bytes.{put_at};
ghost use Rattle.store_memtable.specs.Moves.{rows_moved};
ghost use Rattle.store_memtable.specs.Merging.{Mergeable, start_in, row_merged, bytes_merged, front_after, words_after, bytes_after};

use store_memtable::{COUNT, Front, LAST, USED, read};

// Where the version at place `at` of the front starts, or would.
fn start_in(words: &[u64], at: usize, rows: usize, used: usize) -> usize
    requires { 5 + 4 * rows ≤ length words.now }
    ensures { result ≡ start_in rows used words.now at }
{
    if at < rows {
        read::word(words, 5 + 4 * at)
    } else {
        used
    }
}

// Writes `src` into `dst` at `at`.
pub fn put(dst: &mut [u8], at: usize, src: &[u8])
    requires { at + length src.now ≤ length dst.old }
    ensures { dst.new ≡ put_at at src.now dst.old }
{
    base_writing::put_at(dst, at, src);
}

// Writes the four words of a version at `at`.
fn write_row(words: &mut [u64], at: usize, start: u64, key_len: u64, value_word: u64, seq: u64)
    requires { at + 4 ≤ length words.old }
    ensures { words.new ≡ put_at at (start ∷ key_len ∷ value_word ∷ seq ∷ []) words.old }
{
    // A `copy_from_slice` of an array of the four was tried: it goes by way of the stack, and took three times as long.
    words[at] = start;
    words[at + 1] = key_len;
    words[at + 2] = value_word;
    words[at + 3] = seq;
}

// Copies version i up by `by` places, its start more by `size`.
fn move_row(words: &mut [u64], i: usize, by: usize, size: u64)
    requires by_in_bounds { 5 + 4 * i + 4 * by + 4 ≤ length words.old }
    requires size_bound { start_word words.old i + size < 2 ^ 64 }
    ensures { words.new ≡ put_at (5 + 4 * i + 4 * by) ((start_word words.old i + size) ∷ key_word words.old i ∷ value_word words.old i ∷ seq_word words.old i ∷ []) words.old }
{
    let row = 5 + 4 * i;
    let start = words[row] + size;
    let key_len = words[row + 1];
    let value_word = words[row + 2];
    let seq = words[row + 3];
    write_row(words, row + 4 * by, start, key_len, value_word, seq);
}

// Moves the versions from place `from` up to `to` by `by` places, the last first.
fn move_rows(words: &mut [u64], from: usize, to: usize, by: usize, size: u64)
    requires from_le_to { from ≤ to }
    requires by_in_bounds { 5 + 4 * to + 4 * by ≤ length words.old }
    requires by_index { (i : ℕ) → i < to → start_word words.old i + size < 2 ^ 64 }
    ensures { words.new ≡ rows_moved from to by size words.old }
{
    for j in (from..to).rev() {
        move_row(words, j, by, size);
    }
}

// Moves the versions from place `at` up to `rows` by `by` places, and writes a row in front of them.
fn merge_row(
    words: &mut [u64],
    at: usize,
    rows: usize,
    by: usize,
    start: u64,
    key_len: u64,
    value_word: u64,
    seq: u64,
    gap: u64,
)
    requires at_le_rows { at ≤ rows }
    requires le_by { 1 ≤ by }
    requires by_in_bounds { 5 + 4 * rows + 4 * by ≤ length words.old }
    requires by_index { (i : ℕ) → i < rows → start_word words.old i + gap < 2 ^ 64 }
    ensures { words.new ≡ row_merged at rows by start key_len value_word seq gap words.old }
{
    move_rows(words, at, rows, by, gap);
    write_row(
        words,
        5 + 4 * (at + (by - 1)),
        start,
        key_len,
        value_word,
        seq,
    );
}

// Moves the bytes from `start` up to `used` by `gap` places, and writes a key and a value in front of them; `rest` of the gap is left.
fn merge_bytes(
    bytes: &mut [u8],
    start: usize,
    used: usize,
    gap: usize,
    rest: usize,
    name: &[u8],
    value: &[u8],
)
    requires start_le_used { start ≤ used }
    requires gap_in_bounds { used + gap ≤ length bytes.old }
    requires value_value { rest + (length name.now + length value.now) ≡ gap }
    ensures { bytes.new ≡ bytes_merged start used gap rest name.now value.now bytes.old }
{
    let at = start + rest;
    base_writing::shift_up(bytes, start, used, gap);
    base_writing::put_at(bytes, at, name);
    base_writing::put_at(bytes, at + name.len(), value);
}

// The value word of what is written: 0 of a tombstone.
fn value_word(live: bool, value: &[u8]) -> u64
    ensures { result ≡ word_of_value (value_if live value.now) }
{
    if live { read::wide(value.len() + 1) } else { 0 }
}

// The bytes of what is written: none of a tombstone.
pub fn kept<'a>(live: bool, value: &'a [u8]) -> &'a [u8]
    ensures { result.now ≡ bytes_of (value_if live value.now) }
{
    if live { value } else { &[] }
}

// Merges the last of `by` writes, whose sequence is `seq`: the value, or a tombstone where the write is not live. Returns what is left in front.
pub fn merge_one(
    words: &mut [u64],
    bytes: &mut [u8],
    name: &[u8],
    value: &[u8],
    live: bool,
    by: usize,
    seq: u64,
    front: Front,
) -> Front
    requires { Mergeable words.old bytes.old by (length name.now + length (bytes_of (value_if live value.now))) front }
    ensures value { result ≡ front_after (name.now, value_if live value.now) seq front words.old bytes.old }
    ensures words_after { words.new ≡ words_after (name.now, value_if live value.now) seq by front result words.old }
    ensures bytes_after { bytes.new ≡ bytes_after (name.now, value_if live value.now) front result bytes.old }
{
    let Front { rows, used, gap } = front;
    let at = read::place_in(words, bytes, rows, name, seq);
    let start = start_in(words, at, rows, used);
    let data = kept(live, value);
    let word = value_word(live, value);
    let rest = gap - (name.len() + data.len());
    merge_bytes(bytes, start, used, gap, rest, name, data);
    merge_row(
        words,
        at,
        rows,
        by,
        read::wide(start + rest),
        read::wide(name.len()),
        word,
        seq,
        read::wide(gap),
    );
    Front {
        rows: at,
        used: start,
        gap: rest,
    }
}

// Renews the count of versions, the bytes used and the last sequence.
pub fn renew_header(words: &mut [u64], count: usize, used: usize, last: u64)
    requires { 5 ≤ length words.old }
    ensures { words.new ≡ set (set (set words.old 0 count) 1 used) 2 last }
{
    words[COUNT] = read::wide(count);
    words[USED] = read::wide(used);
    words[LAST] = last;
}
