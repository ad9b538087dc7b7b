// Reading the head of one session, and the changes that touch its head alone.
#![tactic(auto)]

ghost use Rattle.std.specs.Prelude.{◌≡◌, length, get_or};
ghost use Rattle.command_spec.specs.Session.{marked};
ghost use Rattle.command_spec.specs.Sessions.{yes?};
ghost use Rattle.command_spec.specs.Held.{Left, cleared, opened, unwatched};

use session_memory::{FAILED, IN_MULTI, QUEUED, WATCHED};

// Is the session inside MULTI?
pub fn in_multi(words: &[u64]) -> bool
    requires { length words.now ≡ 644 }
    ensures { result ≡ yes? (get_or words.now 0 0) }
{
    words[IN_MULTI] != 0
}

// Is the session marked failed?
pub fn failed(words: &[u64]) -> bool
    requires { length words.now ≡ 644 }
    ensures { result ≡ yes? (get_or words.now 1 0) }
{
    words[FAILED] != 0
}

// Drops queue, watch and mark.
pub fn clear(words: &mut [u64])
    requires { length words.old ≡ 644 }
    ensures { Left cleared words.old words.new }
{
    words[IN_MULTI] = 0;
    words[FAILED] = 0;
    words[WATCHED] = 0;
    words[QUEUED] = 0;
}

// Marks the session failed. A mark that is set stays as it is.
pub fn mark_failed(words: &mut [u64])
    requires { length words.old ≡ 644 }
    ensures { Left marked words.old words.new }
{
    if words[FAILED] == 0 {
        words[FAILED] = 1;
    }
}

// Opens MULTI, outside of it: an empty queue, and no mark.
pub fn open_multi(words: &mut [u64])
    requires { (length words.old ≡ 644) × (get_or words.old 0 0 ≡ 0) }
    ensures { Left opened words.old words.new }
{
    words[IN_MULTI] = 1;
    words[FAILED] = 0;
}

// Drops the watch.
pub fn unwatch(words: &mut [u64])
    requires { length words.old ≡ 644 }
    ensures { Left unwatched words.old words.new }
{
    words[WATCHED] = 0;
}
