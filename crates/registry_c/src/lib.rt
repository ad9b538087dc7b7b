// The published calls and the readings of a table, for programs in C and Rust. A slice goes over as a pointer and a count.
// Errors are numbers here, and flags, verdicts and states are words, since C has no other form for them.
#![tactic(auto)]

ghost use Rattle.std.specs.Prelude.{◌≡◌, ◌/◌, ◌<◌, length};
ghost use Rattle.store_memtable.specs.Layout.{count_word};
ghost use Rattle.command_spec.specs.Numbers.{answer_numbers, number_of};
ghost use Rattle.exec_decision.specs.Numbers.{preview_numbers};
ghost use Rattle.call_spec.specs.Calls.{GroupPromise, OpenPromise, PreviewPromise, RequestPromise, TablePromise, lent_of};
ghost use Rattle.registry_c.specs.Station.{answer_in, entry_call, last_reading, listed_at, next_listed, no_listed, no_reading, preview_in, read_call, reading_at, reply_answer, ReplyPromise};

use call_numbers::lent::{Lent, LentMut};
use command_spec::{Answer, CallError};
use exec_decision::Preview;
use group_spec::Member;
use reply_item::ReplyRead;
use store_memtable::store::Store;
use store_memtable::{LAST, read};

// What a request returns: 0 or a number of document 01, the bytes used, and the length of the reply.
#[repr(C)]
#[derive(Clone, Copy)]
pub struct Answered {
    pub number: u64,
    pub used: usize,
    pub reply: usize,
}

impl From<Result<Answer, CallError>> for Answered {
    ghost from_gives = { λ answer result. answer_numbers answer ≡ answer_in result };

    fn from(answer: Result<Answer, CallError>) -> Answered {
        match answer {
            Ok(Answer { used, reply }) => Answered {
                number: 0,
                used,
                reply,
            },
            Err(error) => Answered {
                number: error.into(),
                used: 0,
                reply: 0,
            },
        }
    }
}

// What a preview returns: 0 or a number, the verdict (255: none is reached), the length of the reply, and the last sequence that EXEC would leave.
#[repr(C)]
#[derive(Clone, Copy)]
pub struct Previewed {
    pub number: u64,
    pub verdict: u64,
    pub reply: usize,
    pub last: u64,
}

// The verdict of a preview that reached none.
const NONE_REACHED: u64 = 255;

impl From<Result<Preview, CallError>> for Previewed {
    ghost from_gives = { λ preview result. preview_numbers preview ≡ preview_in result };

    fn from(preview: Result<Preview, CallError>) -> Previewed {
        match preview {
            Ok(preview) => Previewed {
                number: 0,
                verdict: u8::from(preview.verdict).into(),
                reply: preview.reply,
                last: preview.last,
            },
            Err(error) => Previewed {
                number: error.into(),
                verdict: NONE_REACHED,
                reply: 0,
                last: 0,
            },
        }
    }
}

// A value: 0 or 9, 1 if it was found, and the part of the store's bytes that holds it.
#[repr(C)]
#[derive(Clone, Copy)]
pub struct Reading {
    pub number: u64,
    pub found: u64,
    pub start: usize,
    pub size: usize,
}

// A live key: 0 or 9, 1 if one was found, the place behind it, and the parts of the store's bytes that hold key and value.
#[repr(C)]
#[derive(Clone, Copy)]
pub struct Listed {
    pub number: u64,
    pub found: u64,
    pub next: usize,
    pub key_start: usize,
    pub key_size: usize,
    pub value_start: usize,
    pub value_size: usize,
}

// What the reader of replies answers: 0, 11 or 12; 0 wait, 1 a whole reply, 2 a fault, 3 with a number; the bytes and the count of items of a whole
// reply, and the offset of a fault.
#[repr(C)]
#[derive(Clone, Copy)]
pub struct ReplyAnswer {
    pub number: u64,
    pub state: u64,
    pub used: usize,
    pub items: usize,
    pub offset: usize,
}

// The states of a reply.
const WAIT: u64 = 0;

const WHOLE: u64 = 1;

const FAULT: u64 = 2;

const REFUSED: u64 = 3;

impl From<ReplyRead> for ReplyAnswer {
    ghost from_gives = { λ read result. result ≡ reply_answer read };

    #[tactic(auto, unfolding(crate::specs::Station::reply_answer))]
    fn from(read: ReplyRead) -> ReplyAnswer {
        match read {
            ReplyRead::Wait => ReplyAnswer {
                number: 0,
                state: WAIT,
                used: 0,
                items: 0,
                offset: 0,
            },
            ReplyRead::Whole(used, items) => ReplyAnswer {
                number: 0,
                state: WHOLE,
                used,
                items,
                offset: 0,
            },
            ReplyRead::Fault(offset) => ReplyAnswer {
                number: 0,
                state: FAULT,
                used: 0,
                items: 0,
                offset,
            },
            ReplyRead::Refused(refusal) => ReplyAnswer {
                number: u64::from(refusal),
                state: REFUSED,
                used: 0,
                items: 0,
                offset: 0,
            },
        }
    }
}

// The number of a call that gives nothing else.
fn number_of(done: Result<(), CallError>) -> u64
    ensures { result ≡ number_of done }
{
    match done {
        Ok(()) => 0,
        Err(error) => error.into(),
    }
}

// Opens an empty store with this last sequence and these capacities: 0, or 9 where the buffers do not hold them.
#[unsafe(no_mangle)]
pub extern "C" fn registry_open(
    words: &mut [u64],
    bytes: &[u8],
    last: u64,
    versions: usize,
    size: usize,
) -> u64
    ensures { OpenPromise last versions size words.old bytes.now result words.new bytes.now }
{
    number_of(registry::open::open(words, bytes, last, versions, size))
}

// Answers the request at the front of `input` for a session. The reply stands in front of `out`, with zero behind it.
#[unsafe(no_mangle)]
pub extern "C" fn registry_request(
    session: usize,
    input: &[u8],
    places: &mut [u64],
    words: &mut [u64],
    bytes: &mut [u8],
    swords: &mut [u64],
    sbytes: &mut [u8],
    out: &mut [u8],
) -> Answered
    ensures request_promise { RequestPromise session input.now (length places.old / 2) out.old (lent_of words.old bytes.old swords.old sbytes.old) (answer_in result) out.new (lent_of words.new bytes.new swords.new sbytes.new) }
    ensures table_promise { TablePromise session input.now (lent_of words.old bytes.old swords.old sbytes.old) places.old places.new }
{
    let lent = &mut LentMut {
        words,
        bytes,
        session_words: swords,
        session_bytes: sbytes,
    };
    registry::request::request(session, input, places, lent, out).into()
}

// What EXEC of a session would give. The reply stands in front of `out`, with zero behind it; store and sessions stay as they are.
#[unsafe(no_mangle)]
pub extern "C" fn registry_preview(
    session: usize,
    words: &[u64],
    bytes: &[u8],
    swords: &[u64],
    sbytes: &[u8],
    out: &mut [u8],
) -> Previewed
    ensures { PreviewPromise session out.old (lent_of words.now bytes.now swords.now sbytes.now) (preview_in result) out.new (lent_of words.now bytes.now swords.now sbytes.now) }
{
    let lent = Lent {
        words,
        bytes,
        session_words: swords,
        session_bytes: sbytes,
    };
    registry::preview::preview(session, &lent, out).into()
}

// Judges a group and commits the accepted members: 0, or 8 or 9, which leave all. A verdict byte is written for each member.
#[unsafe(no_mangle)]
pub extern "C" fn registry_group(
    members: &[Member],
    parts: &[u64],
    data: &[u8],
    verdicts: &mut [u8],
    words: &mut [u64],
    bytes: &mut [u8],
) -> u64
    ensures { GroupPromise members.now parts.now «data».now verdicts.old words.old bytes.old result verdicts.new words.new bytes.new }
{
    number_of(registry::group::group(members, parts, data, verdicts, words, bytes))
}

// The value of version i.
fn value_at(store: &Store, i: usize) -> Reading
    requires { i < count_word store.now.words.now }
    ensures { result ≡ reading_at store.now.words.now i }
{
    let row = 5 + 4 * i;
    let start = read::word(store.words, row) + read::word(store.words, row + 1);
    Reading {
        number: 0,
        found: 1,
        start,
        size: read::value_len(read::word(store.words, row + 2)),
    }
}

// No value, with this number.
fn no_value(number: u64) -> Reading
    ensures { result ≡ no_reading number }
{
    Reading {
        number,
        found: 0,
        start: 0,
        size: 0,
    }
}

// The value of a key at the last sequence.
#[tactic(auto, unfolding(crate::specs::Station::last_reading, crate::specs::Station::reading_of))]
fn value_of(store: &Store, name: &[u8]) -> Reading
    ensures { result ≡ last_reading store.now.words.now store.now.bytes.now name.now }
{
    match store.find_value(name, store.words[LAST]) {
        Some(i) => value_at(store, i),
        None => no_value(0),
    }
}

// The value of a key at the last sequence.
#[tactic(auto, unfolding(crate::specs::Station::read_call))]
#[unsafe(no_mangle)]
pub extern "C" fn registry_read(words: &[u64], bytes: &[u8], name: &[u8]) -> Reading
    ensures { result ≡ read_call words.now bytes.now name.now }
{
    match Store::new(words, bytes) {
        Some(store) => value_of(&store, name),
        None => no_value(CallError::MemoryUnfit.into()),
    }
}

// Key and value of version i.
fn entry_at(store: &Store, i: usize) -> Listed
    requires { i < count_word store.now.words.now }
    ensures { result ≡ listed_at store.now.words.now i }
{
    let row = 5 + 4 * i;
    let start = read::word(store.words, row);
    let size = read::word(store.words, row + 1);
    Listed {
        number: 0,
        found: 1,
        next: i + 1,
        key_start: start,
        key_size: size,
        value_start: start + size,
        value_size: read::value_len(read::word(store.words, row + 2)),
    }
}

// No live key, with this number.
fn no_entry(number: u64) -> Listed
    ensures { result ≡ no_listed number }
{
    Listed {
        number,
        found: 0,
        next: 0,
        key_start: 0,
        key_size: 0,
        value_start: 0,
        value_size: 0,
    }
}

// The first live key at or behind the place `from`.
#[tactic(auto, unfolding(crate::specs::Station::next_listed, crate::specs::Station::listed_of))]
fn entry_from(store: &Store, from: usize) -> Listed
    ensures { result ≡ next_listed store.now.words.now store.now.bytes.now from }
{
    match store.next_live(from) {
        Some(i) => entry_at(store, i),
        None => no_entry(0),
    }
}

// The first live key at or behind the place `from`. A walk begins at 0 and goes on at `next`.
#[tactic(auto, unfolding(crate::specs::Station::entry_call))]
#[unsafe(no_mangle)]
pub extern "C" fn registry_entry_from(words: &[u64], bytes: &[u8], from: usize) -> Listed
    ensures { result ≡ entry_call words.now bytes.now from }
{
    match Store::new(words, bytes) {
        Some(store) => entry_from(&store, from),
        None => no_entry(CallError::MemoryUnfit.into()),
    }
}

// Reads the reply at the front of `input` into the table `items`, four words for an item.
#[unsafe(no_mangle)]
pub extern "C" fn registry_read_reply(input: &[u8], items: &mut [u64]) -> ReplyAnswer
    ensures { ReplyPromise input.now items.old result items.new }
{
    let read = reply_reader::read_reply(input, items);
    ReplyAnswer::from(read)
}
