//! Which of a node's operations a message is for.
ghost use Rattle.std.specs.Prelude.{◌≡◌};
ghost use Rattle.mega_step_choices.specs.Hearing.{is_for, op_in};

use mega_base::OpId;
use mega_propose::is_same_op;
use mega_propose::mega_wire::Body;

/// The operation of which a message says something to its node, if there is one.
fn op_in(body: &Body) -> Option<OpId>
    ensures { result ≡ op_in body.now }
{
    match body {
        Body::Top { op, .. } => Some(*op),
        Body::Accept { op, .. } => Some(*op),
        Body::Accepted { op, .. } => Some(*op),
        Body::Refused { op, .. } => Some(*op),
        Body::Prepare { op, .. } => Some(*op),
        Body::Promise { op, .. } => Some(*op),
        Body::Invalidated { op, .. } => Some(*op),
        Body::Unheld { op, .. } => Some(*op),
        Body::HaveNot { op, .. } => Some(*op),
        _ => None,
    }
}

/// Whether a message is for an operation.
pub fn is_for(op: OpId, body: &Body) -> bool
    ensures { result ≡ is_for op body.now }
{
    match op_in(body) {
        Some(own) => is_same_op(op, own),
        None => false,
    }
}
