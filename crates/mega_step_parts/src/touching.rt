//! The groups of which a step may apply more.
ghost use Rattle.std.specs.Prelude.{◌≡◌, ◌++◌, ◌∷◌, ◌||◌, ℕ, [], List, Option, Some, None, IfOk, OnOk, filter, fold};
ghost use Rattle.std.specs.List.{list_any};
ghost use Rattle.mega_base.specs.declared.names.GroupId.{GroupId as Group};
ghost use Rattle.mega_node_laws.specs.About.{group_in};
ghost use Rattle.mega_node_laws.specs.Acted.{or_settled};
ghost use Rattle.mega_rules.specs.Logs.{groups_of, is_group_before, with_group};
ghost use Rattle.mega_rules.specs.Met.{Met};
ghost use Rattle.mega_rules.specs.Steps.{decision_note, first_settled, onto, told_decision};
ghost use Rattle.mega_replica.specs.Following.{progress_at};
ghost use Rattle.mega_step_work.specs.of_voter.Telling.{Tells};
ghost use Rattle.mega_step_choices.specs.Behind.{Keeps, is_behind};
ghost use Rattle.mega_step_parts.specs.Listening.{unheard};
ghost use Rattle.mega_step_parts.specs.Touching.{asked_groups, begun_groups, named, reaches, roams, told_groups, touched, waits, with_reach};

use crate::deciding::tells_decision;
use crate::listening::Listeners;
use mega_base::{Copied, GroupId, Items, NoMemory};
use mega_disk::{Records, Versions};
use mega_outcome::Request;
use mega_propose::is_same_group;
use mega_replica::StoredRows;
use mega_step_choices::is_behind;
use mega_step_work::is_pump;
use mega_step_work::mega_operations::{Heard, Operation, Phase};
use mega_step_work::mega_voter::Voter;
use mega_wire::Body;
use std::alloc::Global;

/// Whether a group stands before another, by their keys.
fn is_before(group: &GroupId, other: &GroupId) -> bool
    ensures { result ≡ is_group_before group.now other.now }
{
    group.cmp(other).is_lt()
}

/// Adds a group behind these, and the one that waits for its place before it, where that is its place.
fn passes(
    made: &mut Items<GroupId>,
    waiting: Option<GroupId>,
    other: GroupId,
) -> Result<Option<GroupId>, NoMemory>
    ensures { IfOk result (λ left. (rest : List Group) → made.new ++ waits left rest ≡ made.old ++ waits waiting (other ∷ rest)) }
{
    match waiting {
        Some(group) => {
            if is_same_group(&group, &other) {
                made.push(other)?;
                return Ok(None);
            }
            if is_before(&group, &other) {
                made.push(group)?;
                made.push(other)?;
                return Ok(None);
            }
            made.push(other)?;
            Ok(Some(group))
        }
        None => {
            made.push(other)?;
            Ok(None)
        }
    }
}

/// The group that still waits is the last.
fn last_waits(made: Items<GroupId>, waiting: Option<GroupId>) -> Result<Items<GroupId>, NoMemory>
    ensures { IfOk result (λ all. all ≡ made ++ waits waiting []) }
{
    let mut all = made;
    match waiting {
        Some(group) => {
            all.push(group)?;
            Ok(all)
        }
        None => Ok(all),
    }
}

/// These groups and one more, each once and in order.
fn with_group(
    alloc: Global,
    groups: Items<GroupId>,
    group: GroupId,
) -> Result<Items<GroupId>, NoMemory>
    ensures { IfOk result (λ made. made ≡ with_group group groups) }
{
    let mut made = Items::new(alloc);
    let mut waiting = Some(group);
    for other in groups.into_vec() {
        waiting = passes(&mut made, waiting, other)?;
    }
    last_waits(made, waiting)
}

/// The group in which an operation reads or proposes.
fn group_of(alloc: Global, operation: &Operation) -> Result<GroupId, NoMemory>
    ensures { IfOk result (λ group. group ≡ group_in operation.now.phase) }
{
    match &operation.phase {
        Phase::Reads { group, .. } => group.copy(alloc),
        Phase::Proposes { group, .. } => group.copy(alloc),
    }
}

/// Whether an operation reads through a position that it knows: only such a one may store what it needs.
fn reaches(operation: &Operation) -> bool
    ensures { result ≡ reaches operation.now }
{
    match &operation.phase {
        Phase::Reads { reading, .. } => reading.through_of().is_some(),
        Phase::Proposes { .. } => false,
    }
}

/// These groups, and that of an operation that reads through a position.
fn with_reach(
    alloc: Global,
    groups: Items<GroupId>,
    operation: &Operation,
) -> Result<Items<GroupId>, NoMemory>
    ensures { IfOk result (λ made. made ≡ with_reach groups (unheard operation.now)) }
{
    if !reaches(operation) {
        return Ok(groups);
    }
    let group = group_of(alloc, operation)?;
    with_group(alloc, groups, group)
}

/// These groups, and those in which operations read through a position that hear nothing.
fn with_unmoved_reaches(
    alloc: Global,
    groups: Items<GroupId>,
    operations: &[Operation],
) -> Result<Items<GroupId>, NoMemory>
    ensures { IfOk result (λ made. made ≡ fold (λ some o. with_reach some (unheard o)) groups operations.now) }
{
    let mut made = groups;
    for operation in operations {
        made = with_reach(alloc, made, operation)?;
    }
    Ok(made)
}

/// These groups, and those in which operations read through a position that may have heard something.
fn with_heard_reaches(
    alloc: Global,
    groups: Items<GroupId>,
    heard: &[Heard],
) -> Result<Items<GroupId>, NoMemory>
    ensures { IfOk result (λ made. made ≡ fold with_reach groups heard.now) }
{
    let mut made = groups;
    for one in heard {
        made = with_reach(alloc, made, &one.operation)?;
    }
    Ok(made)
}

/// These groups, and those in which operations read through a position.
#[tactic(auto, using(crate::proofs::Parted::reached_of_both))]
fn with_reaches(
    alloc: Global,
    groups: Items<GroupId>,
    heard: &Listeners,
) -> Result<Items<GroupId>, NoMemory>
    ensures { IfOk result (λ made. made ≡ fold with_reach groups heard.now) }
{
    let first = with_unmoved_reaches(alloc, groups, heard.unmoved.as_slice())?;
    with_heard_reaches(alloc, first, heard.heard.as_slice())
}

/// This group alone.
fn only(alloc: Global, group: &GroupId) -> Result<Items<GroupId>, NoMemory>
    ensures { IfOk result (λ groups. groups ≡ group.now ∷ []) }
{
    let mut groups = Items::new(alloc);
    groups.push(group.copy(alloc)?)?;
    Ok(groups)
}

/// This group alone, if there is one.
fn named(alloc: Global, group: &Option<GroupId>) -> Result<Items<GroupId>, NoMemory>
    ensures { IfOk result (λ groups. groups ≡ named group.now) }
{
    match group {
        Some(group) => only(alloc, group),
        None => Ok(Items::new(alloc)),
    }
}

/// All groups with a decided position.
fn all_groups<R: Records>(alloc: Global, voter: &Voter<R>) -> Result<Items<GroupId>, NoMemory>
    ensures { IfOk result (λ groups. (met : List Met) → Tells voter.now.logs.kept met → groups ≡ groups_of met) }
{
    let groups = voter.groups(alloc)?;
    Ok(Items::from_vec(groups))
}

/// These groups, and that of the decision that a message tells.
fn with_told(alloc: Global, groups: Items<GroupId>, body: &Body) -> Result<Items<GroupId>, NoMemory>
    ensures { IfOk result (λ made. (met : List Met) → groups ≡ groups_of met → made ≡ groups_of (onto (decision_note (told_decision body.now)) met)) }
{
    match body {
        Body::Decide { group, .. } => {
            let group = group.copy(alloc)?;
            with_group(alloc, groups, group)
        }
        Body::Have { group, .. } => {
            let group = group.copy(alloc)?;
            with_group(alloc, groups, group)
        }
        _ => Ok(groups),
    }
}

/// These groups, and that of what the first of these operations settled that settled anything.
fn with_settled(
    alloc: Global,
    groups: Items<GroupId>,
    heard: &Listeners,
) -> Result<Items<GroupId>, NoMemory>
    ensures { IfOk result (λ made. (met : List Met) → groups ≡ groups_of met → made ≡ groups_of (onto (decision_note (first_settled heard.now)) met)) }
{
    match heard.first_settled() {
        Some(found) => {
            let group = found.group.copy(alloc)?;
            with_group(alloc, groups, group)
        }
        None => Ok(groups),
    }
}

/// These groups, and that of the decision that a message brings, if it brings one.
fn with_decision(
    alloc: Global,
    groups: Items<GroupId>,
    body: &Body,
    heard: &Listeners,
) -> Result<Items<GroupId>, NoMemory>
    ensures { IfOk result (λ made. (met : List Met) → groups ≡ groups_of met → made ≡ groups_of (onto (decision_note (or_settled (told_decision body.now) (first_settled heard.now))) met)) }
{
    if tells_decision(body) {
        return with_told(alloc, groups, body);
    }
    with_settled(alloc, groups, heard)
}

/// Whether an operation may read any group as it acts: a pump that reads through a position.
fn roams(operation: &Operation) -> bool
    ensures { result ≡ roams (unheard operation.now) }
{
    reaches(operation) && is_pump(&operation.request)
}

/// Whether such a pump is among operations that hear nothing.
fn is_any_unmoved_roaming(operations: &[Operation]) -> bool
    ensures { result ≡ list_any (λ o. roams (unheard o)) operations.now }
{
    operations.iter().any(|operation| roams(operation))
}

/// Whether such a pump is among operations that may have heard something.
fn is_any_heard_roaming(heard: &[Heard]) -> bool
    ensures { result ≡ list_any roams heard.now }
{
    heard.iter().any(|one| roams(&one.operation))
}

/// Whether one of the two holds.
fn either(one: bool, other: bool) -> bool
    ensures { result ≡ (one || other) }
{
    one || other
}

/// Whether such a pump is among the operations.
#[tactic(auto, using(crate::proofs::Parted::any_of_both))]
fn is_any_roaming(heard: &Listeners) -> bool
    ensures { result ≡ list_any roams heard.now }
{
    let unmoved = is_any_unmoved_roaming(heard.unmoved.as_slice());
    either(unmoved, is_any_heard_roaming(heard.heard.as_slice()))
}

/// The group of the decision that a message brings, or all groups and that one.
fn told_groups<R: Records>(
    alloc: Global,
    voter: &Voter<R>,
    body: &Body,
    heard: &Listeners,
    all: bool,
) -> Result<Items<GroupId>, NoMemory>
    ensures { IfOk result (λ groups. (met : List Met) → Tells voter.now.logs.kept met → groups ≡ told_groups all met (or_settled (told_decision body.now) (first_settled heard.now))) }
{
    if all {
        let groups = all_groups(alloc, voter)?;
        return with_decision(alloc, groups, body, heard);
    }
    let told = with_decision(alloc, Items::new(alloc), body, heard)?;
    Ok(told)
}

/// The groups of which a step may apply more in which a message is taken, from what the operations heard.
pub fn touched<R: Records>(
    alloc: Global,
    voter: &Voter<R>,
    body: &Body,
    heard: &Listeners,
) -> Result<Items<GroupId>, NoMemory>
    ensures { IfOk result (λ groups. (met : List Met) → Tells voter.now.logs.kept met → groups ≡ touched met body.now heard.now) }
{
    let first = told_groups(alloc, voter, body, heard, is_any_roaming(heard))?;
    with_reaches(alloc, first, heard)
}

/// Adds a group to those of which not all is applied that is decided, where it is one.
fn add_behind<R: Records, V: Versions>(
    voter: &Voter<R>,
    rows: &StoredRows<V>,
    found: &mut Items<GroupId>,
    group: GroupId,
) -> Result<(), NoMemory>
    ensures { OnOk result ((met : List Met) (stored : Group → ℕ) →
        Keeps voter.now.logs.kept (V.version rows.now.rows) (progress_at rows.now.progress) met stored → found.new ≡ found.old ++ filter (is_behind met stored) (group ∷ [])) }
{
    if is_behind(voter, rows, &group) {
        found.push(group)?;
        return Ok(());
    }
    Ok(())
}

/// Of these groups those of which not all is applied that is decided.
pub fn behind_among<R: Records, V: Versions>(
    alloc: Global,
    voter: &Voter<R>,
    rows: &StoredRows<V>,
    groups: Vec<GroupId>,
) -> Result<Items<GroupId>, NoMemory>
    ensures { IfOk result (λ found. (met : List Met) (stored : Group → ℕ) →
        Keeps voter.now.logs.kept (V.version rows.now.rows) (progress_at rows.now.progress) met stored → found ≡ filter (is_behind met stored) groups.items) }
{
    let mut found = Items::new(alloc);
    for group in groups {
        add_behind(voter, rows, &mut found, group)?;
    }
    Ok(found)
}

/// The group that a request names, if it names one.
fn asked_groups(alloc: Global, request: &Request) -> Result<Items<GroupId>, NoMemory>
    ensures { IfOk result (λ groups. groups ≡ asked_groups request.now) }
{
    match request {
        Request::Txn(txn) => only(alloc, &txn.group),
        Request::Batch(group, _) => only(alloc, group),
        Request::Read(read) => only(alloc, &read.group),
        Request::Find(find) => named(alloc, &find.group),
        _ => Ok(Items::new(alloc)),
    }
}

/// The groups of which a step may apply more in which an operation begins.
pub fn begun_groups<R: Records>(
    alloc: Global,
    voter: &Voter<R>,
    request: &Request,
) -> Result<Items<GroupId>, NoMemory>
    ensures { IfOk result (λ groups. (met : List Met) → Tells voter.now.logs.kept met → groups ≡ begun_groups met request.now) }
{
    if is_pump(request) {
        return all_groups(alloc, voter);
    }
    asked_groups(alloc, request)
}
