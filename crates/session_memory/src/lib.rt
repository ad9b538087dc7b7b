// Words of one session in lent memory (layout at the head of `specs/Sessions.antt` of `command_spec`): one of them, and the sum of several.
#![tactic(auto)]

pub mod session;

ghost use Rattle.std.specs.Prelude.{◌≡◌, ◌+◌, ◌<◌, ◌≤◌, length, ℕ, ◌*◌};
ghost use Rattle.base_key.specs.Bytes.{part, total};
ghost use Rattle.command_spec.specs.Lent.{capped};
ghost use Rattle.session_memory.specs.Every.{every};

pub use store_memtable::read::word;

// The words of a session: inside MULTI or not, failed or not, the counts of watched keys and of queued commands; then where the lengths and the
// sequences of the watched keys, the counts of arguments and the lengths of arguments begin.
pub const IN_MULTI: usize = 0;

pub const FAILED: usize = 1;

pub const WATCHED: usize = 2;

pub const QUEUED: usize = 3;

pub const KEY_LENGTHS: usize = 4;

pub const KEY_SEQUENCES: usize = 36;

pub const COUNTS: usize = 68;

pub const LENGTHS: usize = 132;

// The words and bytes of a session, and where its bytes hold the queued arguments.
pub const WORDS: usize = 644;

pub const BYTES: usize = 10240;

pub const ARGUMENTS: usize = 2048;

// The limits of a session: watched keys and their bytes, queued commands, their arguments and the bytes of these.
pub const MOST_WATCHED: usize = 32;

pub const MOST_KEY_BYTES: usize = 2048;

pub const MOST_QUEUED: usize = 64;

pub const MOST_ARGUMENTS: usize = 512;

pub const MOST_ARGUMENT_BYTES: usize = 8192;

// The sum of `count` words, the first at `from` and each `step` places behind the one before, or one more than `limit` if it is above.
pub fn sum_every(words: &[u64], from: usize, step: usize, count: usize, limit: usize) -> usize
    requires inside { (i : ℕ) → i < count → from + step * i < length words.now }
    requires limit_bound { limit ≤ 8192 }
    ensures { result ≡ capped limit (total (every from step count words.now)) }
{
    let mut sum = 0;
    for i in 0..count {
        let more = word(words, from + step * i);
        if limit - sum < more {
            return limit + 1;
        }
        sum += more;
    }
    sum
}

// The sum of `count` words from `from` on, or one more than `limit` if it is above.
pub fn sum_within(words: &[u64], from: usize, count: usize, limit: usize) -> usize
    requires { (from + count ≤ length words.now) × (limit ≤ 8192) }
    ensures { result ≡ capped limit (total (part from count words.now)) }
{
    sum_every(words, from, 1, count, limit)
}
