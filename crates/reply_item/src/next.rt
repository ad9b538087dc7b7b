// One item of a reply, or the line of an array.
ghost use Rattle.resp_spec.specs.Steps.{Inside};
ghost use Rattle.resp_bulk.specs.Arguments.{LineFrom};
ghost use Rattle.reply_item.specs.Steps.{StepIs, BodyIs, item_parsed, item_of_line, item_at};

use crate::{Item, ItemLine, Refusal, Step, item_line};
use resp_bulk::Argument;
use resp_spec::line;
use resp_spec::line::Line;

// The bytes of CR LF.
const CRLF: usize = 2;

// Reads the `size` bytes from `start` on of the bulk that begins at `at`, and the CR LF behind them.
fn read_bulk_text(input: &[u8], at: usize, start: usize, size: usize) -> Step
    requires { Inside input.now start }
    ensures { BodyIs input.now at start size result }
{
    match resp_bulk::read_body(input, start, size) {
        Argument::Unread => Step::Wait,
        Argument::Faulty(_) => Step::Fault(at),
        Argument::Part(from, len) => Step::Next(Item::BulkText(from, len), from + len + CRLF),
    }
}

// Item n, which begins at `at` of the bytes; the table has `places` items' room, and arrays may nest `depth` deep.
#[derive(Clone, Copy)]
pub struct Spot<'a> {
    pub input: &'a [u8],
    pub places: usize,
    pub depth: usize,
    pub n: usize,
    pub at: usize,
    pub ghost inside: { Inside input.now at },
}

impl<'a> Spot<'a> {
    // Goes on behind the item's line, which ends at `end`.
    fn step_parsed(&self, end: usize, parsed: ItemLine) -> Step
        requires { Inside self.now.input.now end }
        ensures { StepIs (item_parsed self.now.places self.now.input.now self.now.n self.now.at end parsed) self.now.input.now self.now.places self.now.n self.now.depth result }
    {
        match parsed {
            ItemLine::Wrong => Step::Fault(self.at),
            ItemLine::ItemsFollow(_) if self.depth == 0 => Step::Refused(Refusal::TooDeep),
            _ if self.places <= self.n => Step::Refused(Refusal::NoPlace),
            ItemLine::Complete(item) => Step::Next(item, end),
            ItemLine::BulkFollows(size) => read_bulk_text(self.input, self.at, end, size),
            ItemLine::ItemsFollow(count) => Step::Opens(count, end),
        }
    }

    // Reads the item whose line has `len` bytes of text and `used` with its end.
    fn step_line(&self, len: usize, used: usize) -> Step
        requires { LineFrom self.now.input.now self.now.at len used }
        ensures { StepIs (item_of_line self.now.places self.now.input.now self.now.n self.now.at len used) self.now.input.now self.now.places self.now.n self.now.depth result }
    {
        let start = self.at;
        let end = start + len;
        let parsed = item_line::read_item_line(&self.input[start..end], start + 1);
        self.step_parsed(start + used, parsed)
    }

    // Reads the item.
    pub fn step(&self) -> Step
        ensures { StepIs (item_at self.now.places self.now.input.now self.now.n self.now.at) self.now.input.now self.now.places self.now.n self.now.depth result }
    {
        let start = self.at;
        match line::read_line(&self.input[start..]) {
            Line::Text(len, used) => self.step_line(len, used),
            Line::Unfinished => Step::Wait,
            Line::TooLong => Step::Fault(self.at),
        }
    }
}
