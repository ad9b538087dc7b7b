// What a request means: its name, its argument count, then its arguments (`execute` of src/server.rs, without the store).
#![tactic(auto)]

pub mod amounts;
pub mod kinds;
pub mod options;

ghost use Rattle.std.specs.Prelude.{◌≡◌, true, false, ◌-◌, ◌≤◌};
ghost use Rattle.command_spec.specs.Names.{count_right, with_options, operation_of};
ghost use Rattle.command_names.specs.Rows.{row_at};
ghost use Rattle.command_spec.specs.Requests.{arguments_of};
ghost use Rattle.command_meaning.specs.Meant.{ExecutedIs};
ghost use Rattle.command_meaning.specs.Reading.{row_place, MeansAs};

use command_names::named::NamedRequest;
use command_spec::request::Request;
use command_spec::{Fixed, Name};

// A command that lists the table.
#[derive(Clone, Copy)]
pub enum Listing {
    Dbsize,
    Keys,
    Scan {
        from: u64,
        // The argument that holds the pattern, which is `*` where none does.
        pattern: Option<usize>,
        most: u64,
    },
    // At most so many, where there is a limit.
    Range(Option<u64>),
}

// A command that only answers: which reply.
#[derive(Clone, Copy)]
pub enum Read {
    Value,
    Live,
    Values,
    // The reply is argument 1.
    Echo,
    Says(Fixed),
}

// What one of the eleven does, in the terms in which the code runs it.
#[derive(Clone, Copy)]
pub enum Kind {
    Pairs,
    Tombstones,
    // INCR, DECR or INCRBY of argument 1 by this amount.
    Counter(i64),
    Reads(Read),
}

// An error that keeps a request from being carried out.
#[derive(Clone, Copy)]
pub enum Refusal {
    Says(Fixed),
    // A wrong argument count of the command that argument 0 names.
    Arity,
    Unknown,
}

// What a request means. Argument 0 is its name.
#[derive(Clone, Copy)]
pub enum Executed {
    Runs(Kind),
    Lists(Listing),
    Refused(Refusal),
}

// What a name means, for a right argument count and no options.
fn meaning_of(name: Name, request: &Request) -> Executed
    requires le_count { 1 ≤ request.now.count }
    requires count_value { count_right (row_at (row_place name)) (request.now.count - 1) ≡ true }
    requires count_value_2 { with_options (operation_of name) (request.now.count - 1) ≡ false }
    ensures { MeansAs name (arguments_of request.now) request.now.count result }
{
    match name {
        Name::Queueable(operation) => Executed::Runs(kinds::kind_of(operation, request)),
        Name::Dbsize => Executed::Lists(Listing::Dbsize),
        Name::Keys => Executed::Lists(Listing::Keys),
        Name::Scan => options::scan(request),
        Name::Range => options::range(request),
        _ => Executed::Refused(Refusal::Unknown),
    }
}

// What a request means, by the row of its name.
pub fn executed_of(named: &NamedRequest) -> Executed
    ensures { ExecutedIs (arguments_of named.now.request) named.now.request.count result }
{
    let request = &named.request;
    if !command_names::count_right(named.row, request.count - 1) {
        return Executed::Refused(Refusal::Arity);
    }
    if command_names::with_options(named.row, request.count - 1) {
        return Executed::Refused(Refusal::Says(Fixed::SetOptions));
    }
    meaning_of(named.row.name, request)
}
