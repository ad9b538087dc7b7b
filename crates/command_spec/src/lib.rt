// Commands and sessions (src/server.rs).
#![tactic(auto)]

pub mod pattern;
pub mod request;

ghost use Rattle.std.specs.Prelude.{◌≡◌};
ghost use Rattle.command_spec.specs.Numbers.{error_number};

// The commands that may be queued.
#[derive(Clone, Copy)]
pub enum Operation {
    Get,
    Set,
    Del,
    Exists,
    Mget,
    Mset,
    Incr,
    Incrby,
    Decr,
    Ping,
    Echo,
}

// What a name means.
#[derive(Clone, Copy)]
pub enum Name {
    Queueable(Operation),
    Dbsize,
    Keys,
    Scan,
    Range,
    Multi,
    Exec,
    Discard,
    Watch,
    Unwatch,
    Quit,
    Unknown,
}

// What a request gives: the bytes used, and the length of the reply.
#[derive(Clone, Copy)]
pub struct Answer {
    pub used: usize,
    pub reply: usize,
}

// Why a call gives nothing. It leaves all, but `QueueFull` marks the session failed.
#[derive(Clone, Copy)]
pub enum CallError {
    NoSession,
    TooManyArguments,
    ReplyTooLong,
    QueueFull,
    WatchFull,
    NoRoom,
    NoSequence,
    GroupUnfit,
    MemoryUnfit,
}

// The numbers of document 01.
impl From<CallError> for u64 {
    ghost from_gives = { λ error number. number ≡ error_number error };

    fn from(error: CallError) -> u64 {
        match error {
            CallError::NoSession => 1,
            CallError::TooManyArguments => 2,
            CallError::ReplyTooLong => 3,
            CallError::QueueFull => 4,
            CallError::WatchFull => 5,
            CallError::NoRoom => 6,
            CallError::NoSequence => 7,
            CallError::GroupUnfit => 8,
            CallError::MemoryUnfit => 9,
        }
    }
}

// The fixed replies.
#[derive(Clone, Copy)]
pub enum Fixed {
    Ok,
    Queued,
    Pong,
    NotInteger,
    Overflow,
    Syntax,
    InvalidCursor,
    BadLimit,
    SetOptions,
    ExecAlone,
    DiscardAlone,
    NestedMulti,
    WatchInside,
    ExecAbort,
}
