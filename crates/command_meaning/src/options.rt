// SCAN and RANGE with their options.
ghost use Rattle.std.specs.Prelude.{◌+◌, ◌≤◌, ◌<◌};
ghost use Rattle.command_spec.specs.declared.Name.TheVariants.{Scan, Range};
ghost use Rattle.command_spec.specs.Requests.{arguments_of};
ghost use Rattle.command_meaning.specs.Reading.{MeansAs, OptionIs, ScanIs};

use crate::{Executed, Listing, Refusal, amounts};
use base_number::integer;
use command_spec::Fixed;
use command_spec::request::Request;

// An option of SCAN with its value: MATCH, COUNT with its number, or an error.
#[derive(Clone, Copy)]
pub enum ScanOption {
    Match,
    Count(u64),
    Wrong(Fixed),
}

// The option at argument i, whose value is argument i + 1.
fn scan_option(request: &Request, i: usize) -> ScanOption
    requires i_bound { i + 1 < request.now.count }
    ensures { OptionIs (arguments_of request.now) i result }
{
    let word = request.argument(i);
    if command_names::same(word, b"MATCH") {
        return ScanOption::Match;
    }
    if command_names::same(word, b"COUNT") {
        let value = integer::int_arg(request.argument(i + 1));
        let Some(most) = amounts::positive(value) else {
            return ScanOption::Wrong(Fixed::NotInteger);
        };
        return ScanOption::Count(most);
    }
    ScanOption::Wrong(Fixed::Syntax)
}

// SCAN's options from argument 2 on; the last of each counts.
fn scan_options(request: &Request, from: u64) -> Executed
    requires le_count { 2 ≤ request.now.count }
    ensures { ScanIs (arguments_of request.now) request.now.count from result }
{
    let mut pattern: Option<usize> = None;
    let mut most: u64 = 10;
    for pair in 1..request.count / 2 {
        let i = 2 * pair;
        match scan_option(request, i) {
            ScanOption::Match => pattern = Some(i + 1),
            ScanOption::Count(n) => most = n,
            ScanOption::Wrong(error) => return Executed::Refused(Refusal::Says(error)),
        }
    }
    if request.count % 2 == 1 {
        return Executed::Refused(Refusal::Says(Fixed::Syntax));
    }
    Executed::Lists(Listing::Scan {
        from,
        pattern,
        most,
    })
}

// SCAN: its cursor is argument 1.
pub fn scan(request: &Request) -> Executed
    requires le_count { 2 ≤ request.now.count }
    ensures { MeansAs Scan (arguments_of request.now) request.now.count result }
{
    let cursor = integer::int_arg(request.argument(1));
    let Some(from) = amounts::natural(cursor) else {
        return Executed::Refused(Refusal::Says(Fixed::InvalidCursor));
    };
    scan_options(request, from)
}

// RANGE: its start and end are arguments 1 and 2, and behind them may stand LIMIT with its number.
pub fn range(request: &Request) -> Executed
    requires le_count { 3 ≤ request.now.count }
    ensures { MeansAs Range (arguments_of request.now) request.now.count result }
{
    if request.count == 3 {
        return Executed::Lists(Listing::Range(None));
    }
    if request.count != 5 || !command_names::same(request.argument(3), b"LIMIT") {
        return Executed::Refused(Refusal::Says(Fixed::Syntax));
    }
    let value = integer::int_arg(request.argument(4));
    let Some(most) = amounts::natural(value) else {
        return Executed::Refused(Refusal::Says(Fixed::BadLimit));
    };
    Executed::Lists(Listing::Range(Some(most)))
}
