// The walk over a lent group: its parts are looked at first, then its members are settled one after the other.
#![tactic(auto)]

ghost use Rattle.std.specs.Prelude.{◌≡◌};
ghost use Rattle.store_commit.specs.Leaving.{SameLent};
ghost use Rattle.group_spec.specs.Members.{members_inside};
ghost use Rattle.group_spec.specs.Walked.{GroupReady, GroupLeft};

use group_spec::parts::Parts;
use group_spec::{Member, bounds};
use store_commit::lent::StoreMut;

// Do the parts of all members lie in their buffers?
pub fn members_inside(members: &[Member], parts: Parts) -> bool
    ensures { result ≡ members_inside parts.entry.table.now parts.entry.«data».now members.now }
{
    members
        .iter()
        .all(|member| bounds::member_inside(*member, parts))
}

// Settles all members in order; `began` is the last sequence when the group began.
fn settle_members(
    members: &[Member],
    began: u64,
    parts: Parts,
    store: &mut StoreMut,
    verdicts: &mut [u8],
)
    requires { GroupReady members.now began parts.table.now parts.«data».now store.old.words.now store.old.bytes.now verdicts.old }
    ensures lent { SameLent store.old store.new }
    ensures left { GroupLeft members.now parts.entry.table.now parts.entry.«data».now store.old.words.now store.old.bytes.now verdicts.old store.new.words.now store.new.bytes.now verdicts.new }
{
    let mut room = None;
    for (i, member) in members.iter().enumerate() {
        room = group_judge::settle_next(*member, i, began, room, parts, store, verdicts);
    }
}

// Settles all members of a group in the store of these words and bytes. The loop was tried here: at its end nothing was known of the words.
pub fn settle_all(
    members: &[Member],
    began: u64,
    parts: Parts,
    words: &mut [u64],
    bytes: &mut [u8],
    verdicts: &mut [u8],
)
    requires { GroupReady members.now began parts.table.now parts.«data».now words.old bytes.old verdicts.old }
    ensures { GroupLeft members.now parts.entry.table.now parts.entry.«data».now words.old bytes.old verdicts.old words.new bytes.new verdicts.new }
{
    let store = &mut StoreMut { words, bytes };
    settle_members(members, began, parts, store, verdicts);
}
