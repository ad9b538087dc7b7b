// The table of commands (`specs/Names.antt` of `command_spec`), and what a row says of a command.
#![tactic(auto)]

pub mod named;

ghost use Rattle.std.specs.Prelude.{◌≡◌, eqb};
ghost use Rattle.std.specs.List.{list_all, zip};
ghost use Rattle.resp_spec.specs.Letters.{upper};
ghost use Rattle.command_spec.specs.Names.{same_name, count_right, with_options, operation_of, may_queue, not_above, control_of};
ghost use Rattle.command_names.specs.Rows.{row_meant, TableRight, Looked, control_said};

use command_spec::{Name, Operation};

// A command. The counts are those of the arguments behind its name.
#[derive(Clone, Copy)]
pub struct Row {
    // In capitals.
    pub text: &'static [u8],
    pub name: Name,
    pub least: usize,
    pub most: Option<usize>,
    // Only even counts are right.
    pub pairs: bool,
    pub queueable: bool,
}

// The place of the last row, which stands for every name that is no command.
const UNKNOWN: usize = 21;

// The row of a command that may be queued, and of any other.
macro_rules! row {
    ($text:expr, Queueable($operation:ident), $least:expr, $most:expr, $pairs:expr) => {
        Row {
            text: $text,
            name: Name::Queueable(Operation::$operation),
            least: $least,
            most: $most,
            pairs: $pairs,
            queueable: true,
        }
    };
    ($text:expr, $name:ident, $least:expr, $most:expr) => {
        Row {
            text: $text,
            name: Name::$name,
            least: $least,
            most: $most,
            pairs: false,
            queueable: false,
        }
    };
}

const ROWS: [Row; 22] = [
    row!(b"GET", Queueable(Get), 1, Some(1), false),
    row!(b"SET", Queueable(Set), 2, None, false),
    row!(b"DEL", Queueable(Del), 1, None, false),
    row!(b"EXISTS", Queueable(Exists), 1, None, false),
    row!(b"MGET", Queueable(Mget), 1, None, false),
    row!(b"MSET", Queueable(Mset), 2, None, true),
    row!(b"INCR", Queueable(Incr), 1, Some(1), false),
    row!(b"INCRBY", Queueable(Incrby), 2, Some(2), false),
    row!(b"DECR", Queueable(Decr), 1, Some(1), false),
    row!(b"PING", Queueable(Ping), 0, Some(1), false),
    row!(b"ECHO", Queueable(Echo), 1, Some(1), false),
    row!(b"DBSIZE", Dbsize, 0, Some(0)),
    row!(b"KEYS", Keys, 1, Some(1)),
    row!(b"SCAN", Scan, 1, None),
    row!(b"RANGE", Range, 2, None),
    row!(b"MULTI", Multi, 0, None),
    row!(b"EXEC", Exec, 0, None),
    row!(b"DISCARD", Discard, 0, None),
    row!(b"WATCH", Watch, 1, None),
    row!(b"UNWATCH", Unwatch, 0, None),
    row!(b"QUIT", Quit, 0, None),
    row!(b"", Unknown, 0, None),
];

// The names that steer a session, and all others.
#[derive(Clone, Copy)]
pub enum Control {
    Multi,
    Exec,
    Discard,
    Watch,
    Unwatch,
    Quit,
    Other,
}

// Is `count` not above the most?
fn not_above(most: Option<usize>, count: usize) -> bool
    ensures { result ≡ not_above count most }
{
    match most {
        None => true,
        Some(n) => count <= n,
    }
}

// Is `count` a right number of arguments, the name not counted?
#[tactic(auto, unfolding(command_spec::specs::Names::count_right))]
pub fn count_right(row: Row, count: usize) -> bool
    ensures { result ≡ count_right (row_meant row) count }
{
    row.least <= count && not_above(row.most, count) && (!row.pairs || count % 2 == 0)
}

// The operation of a name that may be queued, and PING for any other: an `Option` would give `kind_at`, whose requests may all be queued, a case
// that cannot come.
pub fn operation_of(name: Name) -> Operation
    ensures { result ≡ operation_of name }
{
    match name {
        Name::Queueable(operation) => operation,
        _ => Operation::Ping,
    }
}

// Is this SET with options, by its `count` of arguments, the name not counted?
#[tactic(auto, unfolding(command_spec::specs::Names::with_options))]
fn set_with_options(operation: Operation, count: usize) -> bool
    ensures { result ≡ with_options operation count }
{
    matches!(operation, Operation::Set) && 2 < count
}

// The same, by its row.
pub fn with_options(row: Row, count: usize) -> bool
    ensures { result ≡ with_options (operation_of row.name) count }
{
    set_with_options(operation_of(row.name), count)
}

// May a command with `count` arguments, the name not counted, be queued as it was sent?
#[tactic(auto, unfolding(command_spec::specs::Names::may_queue))]
pub fn may_queue(row: Row, count: usize) -> bool
    ensures { result ≡ may_queue (row_meant row) count }
{
    row.queueable && count_right(row, count) && !with_options(row, count)
}

// What the command of a row does to a session.
pub fn control_of(row: Row) -> Control
    ensures { control_said result ≡ control_of row.name }
{
    match row.name {
        Name::Multi => Control::Multi,
        Name::Exec => Control::Exec,
        Name::Discard => Control::Discard,
        Name::Watch => Control::Watch,
        Name::Unwatch => Control::Unwatch,
        Name::Quit => Control::Quit,
        _ => Control::Other,
    }
}

// Is each byte of `word`, as a capital, the one of `text` at its place?
fn alike(word: &[u8], text: &[u8]) -> bool
    ensures { result ≡ list_all (λ p. eqb (upper p.0) p.1) (zip word.now text.now) }
{
    word.iter().zip(text).all(|(byte, capital)| resp_sanitize::upper_byte(*byte) == *capital)
}

// Is `word` the name `text`, which is in capitals, in any letter case? `eq_ignore_ascii_case` would also take small letters of `text` for its capitals.
pub fn same(word: &[u8], text: &[u8]) -> bool
    ensures { result ≡ same_name word.now text.now }
{
    word.len() == text.len() && alike(word, text)
}

// The table.
fn table() -> &'static [Row; 22]
    ensures { TableRight result.now }
{
    &ROWS
}

// The row of the command that a word names.
pub fn look_up(word: &[u8]) -> Row
    ensures { Looked word.now result }
{
    let rows = table();
    for row in &rows[..UNKNOWN] {
        if same(word, row.text) {
            return *row;
        }
    }
    rows[UNKNOWN]
}
