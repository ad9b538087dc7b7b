// Live keys: is one, and how many of several are.
ghost use Rattle.std.specs.Prelude.{◌≡◌, ◌-◌, ◌≤◌};
ghost use Rattle.store_memtable.specs.Walk.{is_live};
ghost use Rattle.command_spec.specs.Command.{live};
ghost use Rattle.command_spec.specs.Places.{arguments_at};
ghost use Rattle.command_lookup.specs.Reads.{read_through};

use crate::reader::Reader;
use command_spec::request::Request;

// Is `name` live?
pub fn is_live(reader: &Reader, name: &[u8]) -> bool
    ensures { result ≡ is_live (read_through reader.now name.now) }
{
    reader.get(name).is_some()
}

// How many of the keys from place `from` on are live, a repeated one counted each time.
pub fn count_live(reader: &Reader, request: &Request, from: usize) -> u64
    requires { from ≤ request.now.count }
    ensures { result ≡ live (read_through reader.now) (arguments_at from (request.now.count - from) request.now.places.now request.now.input.now) }
{
    let mut count: u64 = 0;
    for i in from..request.count {
        count += u64::from(is_live(reader, request.argument(i)));
    }
    count
}
