//! The clients that wait for an answer: as few as operations are open at a node.
ghost use Rattle.std.specs.Prelude.{◌≡◌, ◌++◌, ◌∷◌, [], filter, option_copied, OnOk};
ghost use Rattle.mega_serve.specs.Replies.{waits_for};

use crate::steps::Steps;
use mega_base::{NoMemory, OpId};
use mega_outcome::mega_index::mega_entry::is_same_op;

/// A client that waits for the answer of an operation, which it gets under the token of its request.
#[derive(Clone, Copy, Debug, Drop)]
pub struct Waiting {
    pub op: OpId,
    pub client: u32,
    pub token: u64,
}

/// One client more waits.
pub(crate) fn await_answer(waiting: &mut Vec<Waiting>, one: Waiting) -> Result<(), NoMemory>
    ensures { OnOk result (waiting.new.items ≡ waiting.old.items ++ one ∷ []) }
{
    waiting.push(one)?;
    Ok(())
}

/// The first client that waits for an operation.
fn first_for(waiting: &[Waiting], op: OpId) -> Option<&Waiting>
    ensures { option_copied result ≡ waits_for op waiting.now }
{
    waiting.iter().find(|one| is_same_op(one.op, op))
}

/// The client that waits for an operation, if one does.
pub(crate) fn waits_for(waiting: &[Waiting], op: OpId) -> Option<Waiting>
    ensures { result ≡ waits_for op waiting.now }
{
    match first_for(waiting, op) {
        Some(one) => Some(*one),
        None => None,
    }
}

/// Those stay whose operation is open still.
pub(crate) fn keep_open<S: Steps>(node: &S, waiting: &mut Vec<Waiting>)
    ensures { waiting.new.items ≡ filter (λ one. S.opens node.now one.op) waiting.old.items }
{
    waiting.retain(|one| node.is_open(one.op));
}
