// The parts of the lent data: keys and values by their places in the table.
ghost use Rattle.std.specs.Prelude.{◌≡◌, true, ◌-◌};
ghost use Rattle.base_key.specs.Bytes.{part};
ghost use Rattle.store_memtable.specs.Rows.{value_if};
ghost use Rattle.group_spec.specs.Members.{value_inside, write_at};
ghost use Rattle.group_spec.specs.Settling.{key_part, KeyIn, WriteIn};

use store_memtable::read;

// A write: its key, and its value where it is live, else a tombstone.
#[derive(Clone, Copy)]
pub struct Write<'d> {
    pub name: &'d [u8],
    pub value: &'d [u8],
    pub live: bool,
}

// A lent table of parts, over the bytes that they lie in. A part lasts as long as the bytes.
#[derive(Clone, Copy)]
pub struct Parts<'t, 'd> {
    pub table: &'t [u64],
    pub data: &'d [u8],
}

impl<'t, 'd> Parts<'t, 'd> {
    // The key whose place stands at `at` of the table. `KeyIn` is about the place that is given, another at each call: no struct keeps it.
    pub fn key(&self, at: usize) -> &'d [u8]
        requires { KeyIn self.now.table.now self.now.«data».now at }
        ensures { result.now ≡ key_part self.now.table.now self.now.«data».now at }
    {
        let start = read::word(self.table, at);
        let end = start + read::word(self.table, at + 1);
        &self.data[start..end]
    }

    // The value that starts at `start` and has this value word, one more than its length: no bytes of a tombstone.
    pub fn value(&self, start: usize, word: usize) -> &'d [u8]
        requires { value_inside start word self.now.«data».now ≡ true }
        ensures { result.now ≡ part start (word - 1) self.now.«data».now }
    {
        if word == 0 {
            &[]
        } else {
            &self.data[start..start + (word - 1)]
        }
    }

    // Write j. `WriteIn` is about the write that is given, as `KeyIn` is.
    pub fn write_at(&self, j: usize) -> Write<'d>
        requires { WriteIn self.now.table.now self.now.«data».now j }
        ensures { write_at self.now.table.now self.now.«data».now j ≡ (result.name.now, value_if result.live result.value.now) }
    {
        let at = 4 * j;
        let word = read::word(self.table, at + 3);
        Write {
            name: self.key(at),
            value: self.value(read::word(self.table, at + 2), word),
            live: word != 0,
        }
    }
}
