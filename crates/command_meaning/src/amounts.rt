// Numbers from 0 or from 1 on.
ghost use Rattle.std.specs.Prelude.{◌≡◌};
ghost use Rattle.command_spec.specs.Command.{natural, positive};

// A number from 0 on.
pub fn natural(n: Option<i64>) -> Option<u64>
    ensures { result ≡ natural n }
{
    u64::try_from(n?).ok()
}

// A number from 1 on.
pub fn positive(n: Option<i64>) -> Option<u64>
    ensures { result ≡ positive n }
{
    natural(n).filter(|value| 0 < *value)
}
