// The writes that an EXEC has made so far, to be read.
ghost use Rattle.std.specs.Prelude.{◌≡◌, ◌<◌, option_copied};
ghost use Rattle.std.proofs.Props.{props};
ghost use Rattle.base_key.specs.Keys.{key_below};
ghost use Rattle.store_memtable.specs.Table.{Ascending-prop};
ghost use Rattle.group_spec.specs.Members.{write_at};
ghost use Rattle.command_writes.specs.Own.{Own, own_writes, OwnFound};
ghost use Rattle.command_writes.specs.Changes.{place_among, held_at};

use group_spec::parts::{Parts, Write};
use std::cmp::Ordering;
use store_memtable::search;

// The first `rows` rows of `own`, parts of `data`. A value lasts as long as `data`.
#[derive(Clone, Copy)]
pub struct OwnWrites<'o, 'd> {
    pub own: &'o [u64],
    pub rows: usize,
    pub data: &'d [u8],
    pub ghost own_writes: { Own own.now «data».now rows } by { Prim.hlevel (props, Ascending-prop) },
}

impl<'o, 'd> OwnWrites<'o, 'd> {
    // Does the key of row i come before `name`?
    #[tactic(auto, unfolding(base_key::specs::Keys::key_below, group_spec::specs::Members::write_at))]
    fn comes_before(&self, i: usize, name: &[u8]) -> bool
        requires { i < self.now.rows }
        ensures { result ≡ key_below (write_at self.now.own.now self.now.«data».now i).0 name.now }
    {
        let parts = Parts {
            table: self.own,
            data: self.data,
        };
        matches!(base_key::compare(parts.key(4 * i), name), Ordering::Less)
    }

    // How many of the keys come before `name`: the place to insert it, and to find it.
    pub fn place(&self, name: &[u8]) -> usize
        ensures { result ≡ place_among name.now (own_writes self.now.own.now self.now.«data».now self.now.rows) }
    {
        search::partition_point(self.rows, |i| self.comes_before(i, name))
    }

    // Is there a row i, and is its key `name`?
    pub fn holds(&self, i: usize, name: &[u8]) -> bool
        ensures { result ≡ held_at self.now.own.now self.now.«data».now self.now.rows name.now i }
    {
        let parts = Parts {
            table: self.own,
            data: self.data,
        };
        i < self.rows && base_key::same(parts.key(4 * i), name)
    }

    // The row of the write of `name`.
    pub fn find(&self, name: &[u8]) -> Option<usize>
        ensures { OwnFound self.now.own.now self.now.«data».now self.now.rows name.now result }
    {
        let i = self.place(name);
        if self.holds(i, name) {
            return Some(i);
        }
        None
    }

    // The value that row j gives: none of a tombstone.
    pub fn written(&self, j: usize) -> Option<&'d [u8]>
        requires { j < self.now.rows }
        ensures { option_copied result ≡ (write_at self.now.own.now self.now.«data».now j).1 }
    {
        let parts = Parts {
            table: self.own,
            data: self.data,
        };
        let Write { value, live, .. } = parts.write_at(j);
        if live { Some(value) } else { None }
    }
}
