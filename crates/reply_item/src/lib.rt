// What a console receives: what a reply is to its reader, and one item of it, read.
#![tactic(auto)]

pub mod item_line;
pub mod next;
pub mod sizes;
pub mod whole_number;

ghost use Rattle.std.specs.Prelude.{◌≡◌};
ghost use Rattle.reply_item.specs.Replies.{refusal_number};

// An item of a reply: the start and the length of its bytes, its number as a word of 64 bits (two's complement), or its count.
#[derive(Clone, Copy)]
pub enum Item {
    SimpleText(usize, usize),
    ErrorText(usize, usize),
    WholeNumber(u64),
    BulkText(usize, usize),
    NoBulk,
    NoArray,
    ArrayOf(usize),
}

// A length or a count: a number, `-1` for no bulk or array, or neither.
#[derive(Clone, Copy)]
pub enum Size {
    Of(u64),
    Absent,
    NoSize,
}

// The line of an item: an item that is complete with it, how many bytes or items follow, or a fault.
#[derive(Clone, Copy)]
pub enum ItemLine {
    Complete(Item),
    BulkFollows(usize),
    ItemsFollow(usize),
    Wrong,
}

// What is refused: an item for which the table has no place, or arrays that nest too deep. The value is the number for C.
#[derive(Clone, Copy)]
pub enum Refusal {
    NoPlace = 11,
    TooDeep = 12,
}

impl From<Refusal> for u64 {
    ghost from_gives = { λ refusal result. result ≡ refusal_number refusal };

    #[tactic(auto, unfolding(crate::specs::Replies::refusal_number))]
    fn from(refusal: Refusal) -> u64 {
        refusal as u64
    }
}

// What stands where an item should: not all of it yet, a fault at an offset, a refusal, an item and the offset behind it, or an
// array of so many items and the offset of the first.
#[derive(Clone, Copy)]
pub enum Step {
    Wait,
    Fault(usize),
    Refused(Refusal),
    Next(Item, usize),
    Opens(usize, usize),
}

// What the bytes hold: no whole reply yet; a reply with the bytes it uses and its count of items; a fault with the offset of its
// item; or a refusal.
#[derive(Clone, Copy)]
pub enum ReplyRead {
    Wait,
    Whole(usize, usize),
    Fault(usize),
    Refused(Refusal),
}
