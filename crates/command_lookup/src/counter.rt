// Counters: the number that a key holds.
ghost use Rattle.std.specs.Prelude.{◌≡◌};
ghost use Rattle.command_spec.specs.Command.{held};
ghost use Rattle.command_lookup.specs.Reads.{read_through};

use crate::reader::Reader;
use base_number::integer;

// The number that `name` holds: 0 where it is absent.
pub fn held_number(reader: &Reader, name: &[u8]) -> Option<i64>
    ensures { result ≡ held (read_through reader.now name.now) }
{
    match reader.get(name) {
        Some(value) => integer::int_arg(value),
        None => Some(0),
    }
}
