//! The requests of a part: to prepare it, to finish it, and to look at its lock.
ghost use Rattle.std.specs.Prelude.{◌≡◌, ◌++◌, IfOk, OnOk};
ghost use Rattle.serde_json.specs.View.{view};
ghost use Rattle.mega_two_driver.specs.Texts.{end_put, finish_text, finish_writes, free_checks, held_check, lock_delete, lock_look, lock_put, holder_check, own_text, own_writes, part_requests, prepare_checks, prepare_text, quoted_ends, quoted_locks, truth_text};

use crate::joins::{bracketed, joined5, joined7, joined9, listed, quoted};
use crate::pieces::{
    end_key, end_table, field_text, key_members, lock_key, lock_table, put_after_commas,
    put_all_deleted, put_before_commas,
};
use crate::plan::PartRequests;
use crate::root::root_name;
use crate::texts::{look_text, transaction_text};
use mega_base::{Bytes, NoMemory};
use mega_schedule::values::list_in;
use mega_schema::Schema;
use mega_two_moves::finish_of;
use serde_json::Value as Json;
use std::alloc::Global;

/// The table of a part's lock, quoted.
fn quoted_locks(alloc: Global, part: &Json) -> Result<Bytes, NoMemory>
    ensures { IfOk result (λ text. text ≡ quoted_locks (view part.now)) }
{
    let name = lock_table(alloc, root_name(part))?;
    quoted(alloc, name.as_slice())
}

/// The table of its end, quoted.
fn quoted_ends(alloc: Global, part: &Json) -> Result<Bytes, NoMemory>
    ensures { IfOk result (λ text. text ≡ quoted_ends (view part.now)) }
{
    let name = end_table(alloc, root_name(part))?;
    quoted(alloc, name.as_slice())
}

/// The part's group has no lock, and no end of this change.
#[tactic(auto, unfolding(crate::specs::Texts::free_checks))]
fn free_checks(alloc: Global, name: &[u8], part: &Json) -> Result<Bytes, NoMemory>
    ensures { IfOk result (λ text. text ≡ free_checks name.now (view part.now)) }
{
    let locks = quoted_locks(alloc, part)?;
    let lock = lock_key(alloc, part)?;
    let ends = quoted_ends(alloc, part)?;
    let end = end_key(alloc, name, part)?;
    joined9(
        alloc,
        br#"{"gone":"#,
        locks.as_slice(),
        br#","key":"#,
        lock.as_slice(),
        br#"},{"gone":"#,
        ends.as_slice(),
        br#","key":"#,
        end.as_slice(),
        b"}",
    )
}

#[tactic(auto, unfolding(crate::specs::Texts::prepare_checks))]
fn prepare_checks(alloc: Global, name: &[u8], part: &Json) -> Result<Bytes, NoMemory>
    ensures { IfOk result (λ text. text ≡ prepare_checks name.now (view part.now)) }
{
    let mut out = free_checks(alloc, name, part)?;
    put_after_commas(alloc, list_in(part, "checks"), &mut out)?;
    put_all_deleted(alloc, list_in(part, "writes"), &mut out)?;
    bracketed(alloc, out.as_slice())
}

#[tactic(auto, unfolding(crate::specs::Texts::lock_put))]
fn lock_put(alloc: Global, schema: &Schema, name: &[u8], part: &Json) -> Result<Bytes, NoMemory>
    ensures { IfOk result (λ text. text ≡ lock_put schema.now name.now (view part.now)) }
{
    let locks = quoted_locks(alloc, part)?;
    let members = key_members(alloc, schema, part)?;
    let name = quoted(alloc, name)?;
    joined7(
        alloc,
        br#"[{"put":"#,
        locks.as_slice(),
        br#","row":{"#,
        members.as_slice(),
        br#""gid":"#,
        name.as_slice(),
        b"}}]",
    )
}

/// The group is locked where it is free, the part's checks are true, and each row is there that the part deletes.
#[tactic(auto, unfolding(crate::specs::Texts::prepare_text))]
fn prepare_text(alloc: Global, schema: &Schema, name: &[u8], part: &Json) -> Result<Bytes, NoMemory>
    ensures { IfOk result (λ text. text ≡ prepare_text schema.now name.now (view part.now)) }
{
    let checks = prepare_checks(alloc, name, part)?;
    let group = field_text(alloc, part, "group")?;
    let writes = lock_put(alloc, schema, name, part)?;
    transaction_text(
        alloc,
        checks.as_slice(),
        group.as_slice(),
        writes.as_slice(),
    )
}

/// A check that the row of this table and key has this value of its name.
#[tactic(auto, unfolding(crate::specs::Texts::holder_check))]
fn holder_check(alloc: Global, table: &[u8], key: &[u8], names: &[u8]) -> Result<Bytes, NoMemory>
    ensures { IfOk result (λ text. text ≡ holder_check table.now key.now names.now) }
{
    joined7(
        alloc,
        br#"[{"is":"#,
        table,
        br#","key":"#,
        key,
        br#","property":"gid","values":"#,
        names,
        b"}]",
    )
}

fn held_check(alloc: Global, name: &[u8], part: &Json) -> Result<Bytes, NoMemory>
    ensures { IfOk result (λ text. text ≡ held_check name.now (view part.now)) }
{
    let locks = quoted_locks(alloc, part)?;
    let lock = lock_key(alloc, part)?;
    let names = listed(alloc, name)?;
    holder_check(alloc, locks.as_slice(), lock.as_slice(), names.as_slice())
}

fn truth_text(truth: bool) -> &'static [u8]
    ensures { result.now ≡ truth_text truth }
{
    if truth { b"true" } else { b"false" }
}

#[tactic(auto, unfolding(crate::specs::Texts::lock_delete))]
fn lock_delete(alloc: Global, part: &Json) -> Result<Bytes, NoMemory>
    ensures { IfOk result (λ text. text ≡ lock_delete (view part.now)) }
{
    let locks = quoted_locks(alloc, part)?;
    let lock = lock_key(alloc, part)?;
    joined5(
        alloc,
        br#"{"delete":"#,
        locks.as_slice(),
        br#","key":"#,
        lock.as_slice(),
        b"},",
    )
}

#[tactic(auto, unfolding(crate::specs::Texts::end_put))]
fn end_put(
    alloc: Global,
    schema: &Schema,
    made: bool,
    name: &[u8],
    part: &Json,
) -> Result<Bytes, NoMemory>
    ensures { IfOk result (λ text. text ≡ end_put schema.now made name.now (view part.now)) }
{
    let ends = quoted_ends(alloc, part)?;
    let members = key_members(alloc, schema, part)?;
    let name = quoted(alloc, name)?;
    joined9(
        alloc,
        br#"{"put":"#,
        ends.as_slice(),
        br#","row":{"#,
        members.as_slice(),
        br#""commit":"#,
        truth_text(made),
        br#","gid":"#,
        name.as_slice(),
        b"}}",
    )
}

/// The part's own writes, where the change is made.
fn put_own_writes(alloc: Global, made: bool, part: &Json, out: &mut Bytes) -> Result<(), NoMemory>
    ensures { OnOk result (out.new ≡ out.old ++ own_writes made (view part.now)) }
{
    if made {
        put_before_commas(alloc, list_in(part, "writes"), out)
    } else {
        Ok(())
    }
}

#[tactic(auto, unfolding(crate::specs::Texts::finish_writes))]
fn finish_writes(
    alloc: Global,
    schema: &Schema,
    made: bool,
    name: &[u8],
    part: &Json,
) -> Result<Bytes, NoMemory>
    ensures { IfOk result (λ text. text ≡ finish_writes schema.now made name.now (view part.now)) }
{
    let lock = lock_delete(alloc, part)?;
    let end = end_put(alloc, schema, made, name, part)?;
    let mut own = Bytes::new(alloc);
    put_own_writes(alloc, made, part, &mut own)?;
    let out = finish_of(own, lock.as_slice(), end.as_slice())?;
    bracketed(alloc, out.as_slice())
}

/// Where the group is locked for the change, the part's writes are made or not, the lock goes, and its end is noted.
#[tactic(auto, unfolding(crate::specs::Texts::finish_text))]
pub(crate) fn finish_text(
    alloc: Global,
    schema: &Schema,
    made: bool,
    name: &[u8],
    part: &Json,
) -> Result<Bytes, NoMemory>
    ensures { IfOk result (λ text. text ≡ finish_text schema.now made name.now (view part.now)) }
{
    let checks = held_check(alloc, name, part)?;
    let group = field_text(alloc, part, "group")?;
    let writes = finish_writes(alloc, schema, made, name, part)?;
    transaction_text(
        alloc,
        checks.as_slice(),
        group.as_slice(),
        writes.as_slice(),
    )
}

/// A look at the lock of a part.
#[tactic(auto, unfolding(crate::specs::Texts::lock_look))]
fn lock_look(alloc: Global, group: &[u8], part: &Json) -> Result<Bytes, NoMemory>
    ensures { IfOk result (λ text. text ≡ lock_look group.now (view part.now)) }
{
    let table = lock_table(alloc, root_name(part))?;
    let key = lock_key(alloc, part)?;
    look_text(alloc, group, key.as_slice(), table.as_slice())
}

/// The part alone, as a transaction.
#[tactic(auto, unfolding(crate::specs::Texts::own_text))]
pub(crate) fn own_text(alloc: Global, part: &Json) -> Result<Bytes, NoMemory>
    ensures { IfOk result (λ text. text ≡ own_text (view part.now)) }
{
    let checks = field_text(alloc, part, "checks")?;
    let group = field_text(alloc, part, "group")?;
    let writes = field_text(alloc, part, "writes")?;
    transaction_text(
        alloc,
        checks.as_slice(),
        group.as_slice(),
        writes.as_slice(),
    )
}

/// The requests of a part.
#[tactic(auto, unfolding(crate::specs::Texts::part_requests))]
pub(crate) fn part_requests(
    alloc: Global,
    schema: &Schema,
    name: &str,
    part: &Json,
) -> Result<PartRequests, NoMemory>
    ensures { IfOk result (λ made. made ≡ part_requests schema.now name.now (view part.now)) }
{
    let prepare = prepare_text(alloc, schema, name.as_bytes(), part)?;
    let commit = finish_text(alloc, schema, true, name.as_bytes(), part)?;
    let abort = finish_text(alloc, schema, false, name.as_bytes(), part)?;
    let group = field_text(alloc, part, "group")?;
    let look = lock_look(alloc, group.as_slice(), part)?;
    Ok(PartRequests {
        prepare,
        commit,
        abort,
        look,
    })
}
