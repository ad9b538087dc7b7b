// A group of members, judged and committed in one call.
ghost use Rattle.command_spec.specs.Numbers.{number_of};
ghost use Rattle.call_spec.specs.Calls.{GroupPromise};

use command_spec::CallError;
use group_spec::Member;
use group_spec::parts::Parts;
use store_memtable::LAST;

// Judges a group and commits the accepted members. A verdict byte is written for each member. An error leaves all. The table of parts and its bytes come
// as the C call lends them, one by one.
pub fn group(
    members: &[Member],
    parts: &[u64],
    data: &[u8],
    verdicts: &mut [u8],
    words: &mut [u64],
    bytes: &mut [u8],
) -> Result<(), CallError>
    ensures { GroupPromise members.now parts.now «data».now verdicts.old words.old bytes.old (number_of result) verdicts.new words.new bytes.new }
{
    let parts = Parts { table: parts, data };
    let inside = group_walk::members_inside(members, parts);
    call_numbers::check_group(inside, members.len(), verdicts.len(), words, bytes)?;
    group_walk::settle_all(members, words[LAST], parts, words, bytes, verdicts);
    Ok(())
}
