//! The sends of a handler that are kept: those that fit, and whose message can be entered.
ghost use Rattle.std.specs.Prelude.{◌≡◌, ◌+◌, ◌++◌, ◌&&◌, ◌∷◌, [], length, nat_le, IfOk, OnOk, if◌then◌else◌};
ghost use Rattle.mega_index.specs.Fitted.{enter_length, fitted_sends, most_bytes, send_fits};

use crate::entry::MOST_BYTES;
use mega_base::NoMemory;
use mega_entry::Send;
use mega_outcome::lengths::{message_length, sum};
use mega_outcome::send_fits;
use mega_schema::Schema;
use std::alloc::Global;

/// The length of the entry that enters a message of this group.
#[tactic(auto, using(mega_outcome::proofs::Sizes::enter_length))]
fn enter_length(group: &[u8], send: &Send) -> Result<u64, NoMemory>
    ensures { IfOk result (λ n. n ≡ enter_length group.now send.now) }
{
    sum(44, sum(group.len() as u64, message_length(send)?)?)
}

/// Whether a send is kept.
fn is_kept(alloc: Global, schema: &Schema, group: &[u8], send: &Send) -> Result<bool, NoMemory>
    ensures { IfOk result (λ kept. kept ≡ (send_fits schema.now send.now && nat_le (enter_length group.now send.now) most_bytes)) }
{
    if !send_fits(alloc, schema, send)? {
        return Ok(false);
    }
    Ok(enter_length(group, send)? <= MOST_BYTES)
}

/// Takes in a send of a handler.
fn keep(
    alloc: Global,
    schema: &Schema,
    group: &[u8],
    kept: &mut Vec<Send>,
    send: Send,
) -> Result<(), NoMemory>
    ensures { OnOk result (kept.new.items ≡ kept.old.items ++ (if send_fits schema.now send && nat_le (enter_length group.now send) most_bytes then send ∷ [] else [])) }
{
    match is_kept(alloc, schema, group, &send) {
        Ok(true) => {
            kept.push(send)?;
            Ok(())
        }
        Ok(false) => Ok(()),
        Err(refused) => {
            drop(send);
            Err(refused)
        }
    }
}

/// The sends of a handler that are kept.
pub fn fitted_sends(
    alloc: Global,
    schema: &Schema,
    group: &[u8],
    sends: Vec<Send>,
) -> Result<Vec<Send>, NoMemory>
    ensures { IfOk result (λ kept. kept.items ≡ fitted_sends schema.now group.now sends.items) }
{
    let mut kept = Vec::new(alloc);
    for send in sends {
        keep(alloc, schema, group, &mut kept, send)?;
    }
    Ok(kept)
}
