// What a command reads through: its own writes over a lent store at a sequence.
ghost use Rattle.std.specs.Prelude.{◌≡◌, option_copied};
ghost use Rattle.store_memtable.specs.Versions.{read_at};
ghost use Rattle.store_memtable.specs.Layout.{last_word};

use command_writes::own::OwnWrites;
use store_memtable::LAST;
use store_memtable::store::Store;

// A command's own writes over the store at `seq`. They are lent apart, each for a lifetime of its own.
#[derive(Clone, Copy)]
pub struct Reader<'o, 'd, 's> {
    pub writes: OwnWrites<'o, 'd>,
    pub store: Store<'s>,
    pub seq: u64,
}

impl<'o, 'd, 's> Reader<'o, 'd, 's> {
    ghost use Rattle.store_memtable.specs.Reading.{versions_of};
    ghost use Rattle.command_lookup.specs.Reads.{read_through};

    // Reads a store at its last sequence, through no writes.
    pub fn last(store: &Store<'s>) -> Reader<'o, 'd, 's>
        ensures { read_through result ≡ read_at (last_word store.now.words.now) (versions_of store.now) }
    {
        let writes = OwnWrites {
            own: &[],
            rows: 0,
            data: &[],
        };
        Reader {
            writes,
            store: *store,
            seq: store.words[LAST],
        }
    }
}

// At one lifetime for the data of the writes and the store, so that what is read lasts as long as both.
impl<'o, 'a> Reader<'o, 'a, 'a> {
    ghost use Rattle.command_lookup.specs.Reads.{read_through};

    // The value that a read of `name` gives.
    pub fn get(&self, name: &[u8]) -> Option<&'a [u8]>
        ensures { option_copied result ≡ read_through self.now name.now }
    {
        if let Some(j) = self.writes.find(name) {
            return self.writes.written(j);
        }
        self.store.get(name, self.seq)
    }
}
