//! What a pump does whose read of a group is complete.
ghost use Rattle.std.specs.Prelude.{◌≡◌, ◌≤◌, true, false, take, IfOk, Some};
ghost use Rattle.std.specs.Option.{option_copied};
ghost use Rattle.std.specs.Result.{result_err};
ghost use Rattle.mega_meanings.specs.Means.{Means};
ghost use Rattle.mega_outcome.specs.Answers.{rows_at};
ghost use Rattle.mega_outcome.specs.Looks.{Looks};
ghost use Rattle.mega_read.specs.declared.reading.Reading.{Reading};
ghost use Rattle.mega_rules.specs.Acting.{enters, handles, listed_at};
ghost use Rattle.mega_rules.specs.Logs.{log_of, prefix_of};
ghost use Rattle.mega_rules.specs.Operations.{Now, Operation, Setting};
ghost use Rattle.mega_rules.specs.Queues.{enter_entry, oldest_unhandled};
ghost use Rattle.mega_view.specs.Shows.{Shows};
ghost use Rattle.mega_voter.specs.Telling.{Tells};
ghost use Rattle.mega_pumps.specs.Notes.{HasNoted};
ghost use Rattle.mega_outcome.specs.declared.answer.Answer.TheVariants.{NoHandler};
ghost use Rattle.mega_pumps.specs.declared.deciding.Own.TheVariants.{Ends, Proposes};
ghost use Rattle.mega_pumps.specs.Owns.{own_by};

use crate::digest::Digest;
use mega_base::{Copied, GroupId, NoMemory, OpId, Position};
use mega_disk::{Records, StoreError, Versions};
use mega_entry::{Enter, Entry};
use mega_handler_entries::{handling, rows_of_tables};
use mega_meanings::QueueHandlers;
use mega_outcome::Answer;
use mega_queues::enter_entry;
use mega_schema::Schema;
use mega_voter::Voter;
use std::alloc::Global;

/// What a pump does whose read of a group is complete.
#[derive(Debug, Drop)]
pub enum Own {
    /// It picks again.
    Picks,
    /// It ends with this answer.
    Ends(Answer),
    /// It proposes this entry.
    Proposes(Entry),
}

/// The entry with which a pump enters a message.
fn entering(alloc: Global, op: OpId, message: &Enter) -> Result<Own, NoMemory>
    ensures { IfOk result (λ own. own ≡ Proposes (enter_entry op message.now)) }
{
    let content = enter_entry(alloc, op, message)?;
    let entry = Entry::new(alloc, content)?;
    Ok(Own::Proposes(entry))
}

/// What a pump does that enters: it proposes its message, unless that is entered through the position already.
pub fn enters<R: Records>(
    alloc: Global,
    digest: &Digest,
    voter: &Voter<R>,
    op: OpId,
    group: &GroupId,
    through: u64,
    message: Option<&Enter>,
) -> Result<Own, NoMemory>
    ensures { IfOk result (λ own. (s : Setting) (now : Now) (o : Operation) (r : Reading) → Tells voter.now.logs.kept now.met → HasNoted voter.now.logs.kept digest.now →
        through ≤ prefix_of now.met group.now → o.id ≡ op → own_by true s now o group.now r through own ≡ enters s now o group.now r through (option_copied message.entry)) }
{
    match message {
        Some(message) => {
            let entered = digest.is_entered(alloc, voter, group, through, &message.name)?;
            if entered {
                return Ok(Own::Picks);
            }
            let own = entering(alloc, op, message)?;
            Ok(own)
        }
        None => Ok(Own::Picks),
    }
}

/// A pump ends whose message's queue has no handler.
fn no_handler(alloc: Global, message: &Enter) -> Result<Own, NoMemory>
    ensures { IfOk result (λ own. own ≡ Ends (NoHandler message.now.queue)) }
{
    let queue = message.queue.copy(alloc)?;
    Ok(Own::Ends(Answer::NoHandler { queue }))
}

/// What a pump does that handles this message of a group.
fn handles_message<V: Versions, H: QueueHandlers>(
    alloc: Global,
    schema: &Schema,
    handlers: &mut H,
    rows: &mut V,
    op: OpId,
    group: &GroupId,
    through: u64,
    message: &Enter,
) -> Result<Own, StoreError>
    ensures own { V.is_told ≡ true → IfOk result (λ own. (s : Setting) (now : Now) (o : Operation) (r : Reading) → Means (H.meant handlers.old) s.handlers → s.cluster.schema ≡ schema.now →
        Shows schema.now group.now (rows_at (V.version rows.old) through) (listed_at now group.now through) → o.id ≡ op →
        own_by false s now o group.now r through own ≡ handles s now o group.now r through (Some message.now)) }
    ensures looks { Looks V.Versions (result_err result) rows.old rows.new }
    ensures handlers { H.meant handlers.new ≡ H.meant handlers.old }
{
    if !handlers.has(&message.queue) {
        let own = no_handler(alloc, message)?;
        return Ok(own);
    }
    let listed = rows_of_tables(alloc, schema, group, rows, Position(through))?;
    let content = handling(
        alloc,
        schema,
        handlers,
        op,
        group,
        message,
        listed.as_slice(),
    )?;
    let entry = Entry::new(alloc, content)?;
    Ok(Own::Proposes(entry))
}

/// What a pump does that handles: the oldest message of the group that is not handled, or it picks again where none is left.
pub fn handles<R: Records, V: Versions, H: QueueHandlers>(
    alloc: Global,
    schema: &Schema,
    handlers: &mut H,
    digest: &Digest,
    voter: &Voter<R>,
    rows: &mut V,
    op: OpId,
    group: &GroupId,
    through: u64,
) -> Result<Own, StoreError>
    ensures own { V.is_told ≡ true → IfOk result (λ own. (s : Setting) (now : Now) (o : Operation) (r : Reading) → Means (H.meant handlers.old) s.handlers → s.cluster.schema ≡ schema.now →
        Tells voter.now.logs.kept now.met → HasNoted voter.now.logs.kept digest.now → through ≤ prefix_of now.met group.now →
        Shows schema.now group.now (rows_at (V.version rows.old) through) (listed_at now group.now through) → o.id ≡ op →
        own_by false s now o group.now r through own ≡ handles s now o group.now r through (oldest_unhandled (take through (log_of now.met group.now)))) }
    ensures looks { Looks V.Versions (result_err result) rows.old rows.new }
    ensures handlers { H.meant handlers.new ≡ H.meant handlers.old }
{
    let oldest = digest.oldest_unhandled(alloc, voter, group, through)?;
    match oldest {
        Some(message) => {
            let own = handles_message(alloc, schema, handlers, rows, op, group, through, &message)?;
            Ok(own)
        }
        None => Ok(Own::Picks),
    }
}
