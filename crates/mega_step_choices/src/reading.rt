//! The current read with which an operation begins.
ghost use Rattle.std.specs.Prelude.{◌≡◌, IfOk, []};
ghost use Rattle.mega_handler.specs.Named.{Meanings};
ghost use Rattle.mega_leases.specs.Tells.{Tells as TellsLeases};
ghost use Rattle.mega_rules.specs.Operations.{Now, Operation as Open};
ghost use Rattle.mega_rules.specs.Acting.{read_begun};
ghost use Rattle.mega_voter.specs.Telling.{Tells};
ghost use Rattle.mega_step_choices.specs.Settings.{setting};

use mega_base::{GroupId, Items, NoMemory, OpId};
use mega_disk::Records;
use mega_leases::Leases;
use mega_operations::Members;
use mega_read::local_read;
use mega_voter::Voter;
use std::alloc::Global;

/// The current read with which an operation begins: local where the group is valid, and else a poll.
pub fn read_begun<R: Records>(
    alloc: Global,
    members: &Members,
    voter: &Voter<R>,
    leases: &Leases,
    op: OpId,
    group: &GroupId,
) -> Result<mega_read::Move, NoMemory>
    ensures { IfOk result (λ made. (me : _) (h : Meanings) (now : Now) (o : Open) → o.id ≡ op → o.visited ≡ [] → Tells voter.now.logs.kept now.met → TellsLeases members.now me leases.now now.met →
        made ≡ read_begun (setting members.now me h) now o group.now []) }
{
    let asked = Items::new(alloc);
    if leases.is_valid(group) {
        let top = voter.top(group).0;
        return Ok(local_read(alloc, asked, top));
    }
    let who = members.reader(alloc, op, group)?;
    let made = who.polled_read(alloc, leases.serves(), asked, leases.now())?;
    Ok(made)
}
