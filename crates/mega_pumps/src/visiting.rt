//! A pump reads the group that it picked.
ghost use Rattle.std.specs.Prelude.{◌≡◌, ◌++◌, ◌∷◌, [], IfOk};
ghost use Rattle.std.specs.List.{list_any};
ghost use Rattle.mega_handler.specs.Named.{Meanings};
ghost use Rattle.mega_leases.specs.Tells.{Tells as TellsLeases};
ghost use Rattle.mega_operations.specs.Whole.{whole};
ghost use Rattle.mega_rules.specs.Operations.{Now, Operation as Open, Phase as OpenPhase};
ghost use Rattle.mega_rules.specs.Acting.{ActsAgain, begins_read, read_begun, sends_more, visiting};
ghost use Rattle.mega_voter.specs.Telling.{Tells};
ghost use Rattle.mega_wal.specs.Same.{same_group};

use crate::picking::Picked;
use mega_base::{Copied, GroupId, Items, NoMemory, OpId};
use mega_disk::Records;
use mega_leases::Leases;
use mega_operations::{Heard, Members, Operation, OperationBase, Phase};
use mega_propose::is_same_group;
use mega_read::local_read;
use mega_voter::Voter;
use std::alloc::Global;

/// Whether the group was read before.
fn is_visited(visited: &[GroupId], group: &GroupId) -> bool
    ensures { result ≡ list_any (same_group group.now) visited.now }
{
    visited.iter().any(|other| is_same_group(group, other))
}

/// The read of a group: the first time local where the group is valid and else a poll, and again only a poll that notes no epoch.
pub fn read_begun<R: Records>(
    alloc: Global,
    members: &Members,
    voter: &Voter<R>,
    leases: &Leases,
    op: OpId,
    visited: &[GroupId],
    group: &GroupId,
    asked: Items<u8>,
) -> Result<mega_read::Move, NoMemory>
    ensures { IfOk result (λ made. (me : _) (h : Meanings) (now : Now) (o : Open) → o.id ≡ op → o.visited ≡ visited.now → Tells voter.now.logs.kept now.met → TellsLeases members.now me leases.now now.met →
        made ≡ read_begun (record { cluster = members.now; me = me; handlers = h }) now o group.now asked) }
{
    let who = members.reader(alloc, op, group)?;
    if is_visited(visited, group) {
        let made = who.polled_read(alloc, None, asked, leases.now())?;
        return Ok(made);
    }
    if leases.is_valid(group) {
        let top = voter.top(group).0;
        return Ok(local_read(alloc, asked, top));
    }
    let made = who.polled_read(alloc, leases.serves(), asked, leases.now())?;
    Ok(made)
}

/// The groups that were read, with one more.
fn visited_with(
    alloc: Global,
    visited: &Items<GroupId>,
    group: &GroupId,
) -> Result<Items<GroupId>, NoMemory>
    ensures { IfOk result (λ more. more ≡ visited.now ++ group.now ∷ []) }
{
    let mut more = visited.copy(alloc)?;
    more.push(group.copy(alloc)?)?;
    Ok(more)
}

/// A read that begins, and the groups that were read with it.
struct Visit {
    visited: Items<GroupId>,
    made: mega_read::Move,
}

/// The read of a group by an operation.
fn visit_of<R: Records>(
    alloc: Global,
    members: &Members,
    voter: &Voter<R>,
    leases: &Leases,
    kept: &OperationBase,
    group: &GroupId,
    asked: Items<u8>,
) -> Result<Visit, NoMemory>
    ensures visited { IfOk result (λ visit. visit.visited ≡ kept.now.visited ++ group.now ∷ []) }
    ensures made { IfOk result (λ visit. (me : _) (h : Meanings) (now : Now) (phase : OpenPhase) → Tells voter.now.logs.kept now.met → TellsLeases members.now me leases.now now.met →
        visit.made ≡ read_begun (record { cluster = members.now; me = me; handlers = h }) now (whole kept.now phase) group.now asked) }
{
    let visited = visited_with(alloc, &kept.visited, group)?;
    let seen = kept.visited.as_slice();
    let made = read_begun(alloc, members, voter, leases, kept.id, seen, group, asked)?;
    Ok(Visit { visited, made })
}

/// The operation that reads this group, and what it sends for that.
fn visiting(kept: OperationBase, picked: Picked, visit: Visit) -> Heard
    ensures request { result.operation.request ≡ kept.request }
    ensures heard { (phase : OpenPhase) → visit.visited ≡ kept.visited ++ picked.group ∷ [] → result ≡ record { operation = visiting (whole kept phase) picked.group picked.message visit.made; sends = visit.made.sends } }
{
    let OperationBase {
        id,
        request,
        began,
        visited: before,
        message: last,
    } = kept;
    drop(before);
    drop(last);
    let Picked { group, message } = picked;
    let Visit { visited, made } = visit;
    let mega_read::Move { reading, sends } = made;
    let phase = Phase::Reads { group, reading };
    let operation = Operation {
        id,
        request,
        began,
        visited,
        message,
        phase,
    };
    Heard { operation, sends }
}

/// A pump reads the group that it picked.
pub fn visits<R: Records>(
    alloc: Global,
    members: &Members,
    voter: &Voter<R>,
    leases: &Leases,
    kept: OperationBase,
    picked: Picked,
    asked: Items<u8>,
) -> Result<Heard, NoMemory>
    ensures request { IfOk result (λ heard. heard.operation.request ≡ kept.request) }
    ensures begins { IfOk result (λ heard. (me : _) (h : Meanings) (now : Now) (phase : OpenPhase) → Tells voter.now.logs.kept now.met → TellsLeases members.now me leases.now now.met →
        begins_read (record { cluster = members.now; me = me; handlers = h }) now (whole kept phase) picked.group picked.message asked ≡ ActsAgain (sends_more now heard.sends) heard.operation) }
{
    match visit_of(alloc, members, voter, leases, &kept, &picked.group, asked) {
        Ok(visit) => Ok(visiting(kept, picked, visit)),
        Err(refused) => {
            drop(kept);
            drop(picked);
            Err(refused)
        }
    }
}
