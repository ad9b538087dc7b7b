// The end of an EXEC: what is decided of it, and that applied: the answer, the commit, and the session cleared.
#![tactic(auto)]

ghost use Rattle.std.specs.Prelude.{ℕ, ◌+◌, ◌*◌, ◌^◌, ◌<◌, ◌≤◌, ◌≡◌, Ok, ltb, length};
ghost use Rattle.store_memtable.specs.Versions.{commit};
ghost use Rattle.store_memtable.specs.Layout.{last_word};
ghost use Rattle.store_memtable.specs.Rows.{room_in};
ghost use Rattle.store_commit.specs.Leaving.{Leaves, SameLent, store_of};
ghost use Rattle.group_spec.specs.Group.{verdict_byte};
ghost use Rattle.group_spec.specs.Settling.{RoomFor, sizes_from};
ghost use Rattle.command_writes.specs.Own.{own_writes};
ghost use Rattle.exec_finish.specs.Leaving.{Closes};
ghost use Rattle.exec_finish.specs.Deciding.{Applies, Concludes, Counted, Judges, prepared_as, prepared_by};
ghost use Rattle.command_spec.specs.Numbers.{answer_numbers, error_number};
ghost use Rattle.exec_finish.specs.Numbers.{prepared_numbers, prepared_with};

use command_spec::{Answer, CallError};
use command_writes::own::OwnWrites;
use group_spec::Verdict;
use group_spec::parts::Parts;
use std::convert::Infallible;
use store_commit::lent::StoreMut;
use store_memtable::LAST;

// An EXEC that is decided and ready to be applied: the verdict (`NotTaken`: none is reached), the length of the reply, the rows of the own writes,
// and the end of the data that they lie in.
#[derive(Clone, Copy)]
pub struct Prepared<V = Verdict> {
    pub verdict: V,
    pub reply: usize,
    pub rows: usize,
    pub end: usize,
}

// The answer of a reply that was put, with the session cleared. Where it does not fit, all stays.
pub fn close(
    session_words: &mut [u64],
    put: Option<usize>,
    used: usize,
) -> Result<Answer, CallError>
    requires { length session_words.old ≡ 644 }
    ensures { Closes put used session_words.old session_words.new (answer_numbers result) }
{
    let answer = command_answer::put_answer(put, used)?;
    session_flags::clear(session_words);
    Ok(answer)
}

// Commits the own writes, if there are any.
fn commit_own(writes: &OwnWrites, store: &mut StoreMut)
    requires { 0 < writes.now.rows → RoomFor store.old.words.now writes.now.rows (sizes_from writes.now.own.now 0 writes.now.rows) }
    ensures { Leaves (commit (own_writes writes.now.own.now writes.now.«data».now writes.now.rows) (store_of store.old)) store.old store.new }
{
    if writes.rows > 0 {
        let parts = Parts {
            table: writes.own,
            data: writes.data,
        };
        group_merge::commit_ascending(parts, 0, writes.rows, store.words, store.bytes);
    }
}

// What is decided where a reply was put, if it fits, with a verdict of any type.
#[tactic(auto, unfolding(crate::specs::Deciding::prepared_as))]
pub fn prepare_any<V: Copy>(
    put: Option<usize>,
    verdict: V,
    rows: usize,
    end: usize,
) -> Result<Prepared<V>, CallError>
    ensures whole { result ≡ prepared_as put verdict rows end }
    ensures numbers { (byte : V → ℕ) → prepared_with byte error_number result ≡ prepared_by put (byte verdict) rows end }
{
    let reply = put.ok_or(CallError::ReplyTooLong)?;
    Ok(Prepared {
        verdict,
        reply,
        rows,
        end,
    })
}

// What is decided where a reply was put, if it fits.
pub fn prepare(
    put: Option<usize>,
    verdict: Verdict,
    rows: usize,
    end: usize,
) -> Result<Prepared, CallError>
    ensures { prepared_numbers result ≡ prepared_by put (verdict_byte verdict) rows end }
{
    prepare_any(put, verdict, rows, end)
}

// What is decided of an EXEC whose queue has run: room and sequences come before the reply.
#[tactic(auto, unfolding(crate::specs::Deciding::judged_by, crate::specs::Deciding::judged_buffer, crate::specs::Numbers::prepared_numbers))]
pub fn judge(
    own: &[u64],
    rows: usize,
    end: usize,
    words: &[u64],
    out: &mut [u8],
    put: Option<usize>,
) -> Result<Prepared, CallError>
    requires rows_in_bounds { 4 * (0 + rows) ≤ length own.now }
    requires counted { Counted words.now }
    ensures { Judges (room_in words.now rows (sizes_from own.now 0 rows)) (ltb (last_word words.now + rows) (2 ^ 64)) put rows end out.old (prepared_numbers result) out.new }
{
    if !group_judge::has_room(own, 0, rows, words) {
        base_writing::clear(out);
        return Err(CallError::NoRoom);
    }
    if !group_judge::has_sequences(words[LAST], rows) {
        base_writing::clear(out);
        return Err(CallError::NoSequence);
    }
    prepare_any(put, Verdict::Accepted, rows, end)
}

// Concludes an EXEC by what was decided, with a verdict and an error of any type: the own writes are committed and the session is cleared. An error
// leaves all.
pub fn conclude<V: Copy, E: Copy>(
    session_words: &mut [u64],
    writes: &OwnWrites,
    store: &mut StoreMut,
    prepared: Result<Prepared<V>, E>,
    used: usize,
) -> Result<Answer, E>
    requires session_words_len { length session_words.old ≡ 644 }
    requires room_for { 0 < writes.now.rows → RoomFor store.old.words.now writes.now.rows (sizes_from writes.now.own.now 0 writes.now.rows) }
    ensures lent { SameLent store.old store.new }
    ensures concludes { Concludes (own_writes writes.now.own.now writes.now.«data».now writes.now.rows) prepared used store.old.words.now store.old.bytes.now session_words.old store.new.words.now store.new.bytes.now session_words.new result }
{
    let prepared = prepared?;
    commit_own(writes, store);
    session_flags::clear(session_words);
    Ok(Answer {
        used,
        reply: prepared.reply,
    })
}

// Applies what was decided: the own writes are committed and the session is cleared.
pub fn apply(
    session_words: &mut [u64],
    writes: &OwnWrites,
    store: &mut StoreMut,
    prepared: Prepared,
    used: usize,
) -> Answer
    requires session_words_len { length session_words.old ≡ 644 }
    requires room_for { 0 < writes.now.rows → RoomFor store.old.words.now writes.now.rows (sizes_from writes.now.own.now 0 writes.now.rows) }
    ensures lent { SameLent store.old store.new }
    ensures applies { Applies (own_writes writes.now.own.now writes.now.«data».now writes.now.rows) (prepared_numbers (Ok prepared)) used store.old.words.now store.old.bytes.now session_words.old store.new.words.now store.new.bytes.now session_words.new (answer_numbers (Ok result)) }
{
    match conclude::<Verdict, Infallible>(session_words, writes, store, Ok(prepared), used) {
        Ok(answer) => answer,
        Err(never) => match never {},
    }
}

#[cfg(test)]
mod tests {
    use super::*;
    use command_writes::write;
    use store_memtable::valid;

    // The write of `v` for the key `k`, in a store of last sequence 7 with room for just that: it is committed at 8, and MULTI is over.
    #[test]
    fn applies_a_write(rt: HostRuntime) {
        let mut words = [0, 0, 7, 1, 2, 0, 0, 0, 0];
        let mut bytes = [0u8; 2];
        let mut session_words = [0u64; 644];
        session_words[0] = 1;
        let data = b"kv";
        let mut own = [0u64; 4];
        let rows = write::put(&mut own, 0, data, 0, 1, 1, 2);
        assert!(rt; valid::validate(&words, &bytes));
        assert!(rt; group_judge::has_room(&own, 0, rows, &words));
        let writes = OwnWrites {
            own: &own,
            rows,
            data,
        };
        let mut store = StoreMut {
            words: &mut words,
            bytes: &mut bytes,
        };
        let prepared = Prepared {
            verdict: Verdict::Accepted,
            reply: 5,
            rows,
            end: 2,
        };
        let answer = apply(&mut session_words, &writes, &mut store, prepared, 9);
        assert_eq!(rt; (answer.used, answer.reply), (9, 5));
        assert_eq!(rt; words, [1, 2, 8, 1, 2, 0, 1, 2, 8]);
        assert_eq!(rt; bytes, *data);
        assert_eq!(rt; session_words[0], 0);
    }

    // A reply of 5 bytes for one row in 2 bytes is prepared, and one that does not fit is 3.
    #[test]
    fn prepares_a_reply(rt: HostRuntime) {
        let Ok(prepared) = prepare(Some(5), Verdict::Conflict, 1, 2) else {
            panic!(rt; "a reply that fits");
        };
        assert_eq!(rt; (prepared.reply, prepared.rows, prepared.end), (5, 1, 2));
        assert!(rt; matches!(prepared.verdict, Verdict::Conflict));
        let full = prepare(None, Verdict::Conflict, 1, 2);
        assert!(rt; matches!(full, Err(CallError::ReplyTooLong)));
    }
}
