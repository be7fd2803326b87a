//! What a step that is cut off leaves for the next start to tell.
ghost use Rattle.std.specs.Prelude.{◌≡◌, filter, map, take};
ghost use Rattle.mega_leases.specs.Notes.{met_of as leases_met};
ghost use Rattle.mega_core.specs.of_step_parts.Notes.{met_of};
ghost use Rattle.mega_promises.specs.Runs.{is_durable};

use mega_base::Items;
use mega_core::mega_actions::mega_step_work::{Answered, Valid};
use mega_core::mega_step_parts::{Note, Step};
use mega_wire::Message;

/// What the next start owes of a step that was cut off, where the step's record was kept: its grants, lapses and decision,
/// and its replies, which were not sent.
#[derive(Debug, Drop)]
pub struct Cut {
    pub notes: Items<Note>,
    pub replies: Items<Message>,
}

/// Whether a note of the cell or the coordinator is kept on the log.
fn is_kept(note: &mega_leases::LeaseNote) -> bool
    ensures { result ≡ is_durable (leases_met note.now) }
{
    use mega_leases::LeaseNote;
    matches!(note, LeaseNote::Grants { .. } | LeaseNote::Lapses { .. })
}

/// Whether it is kept on the log that a group became valid: it is not.
fn is_valid_kept(valid: &Valid) -> bool
    ensures { result ≡ is_durable valid.now }
{
    let _position = valid.position;
    false
}

/// Whether an answer is kept on the log: it is not.
fn is_answer_kept(answered: &Answered) -> bool
    ensures { result ≡ is_durable answered.now }
{
    let _op = answered.op;
    false
}

/// Whether a note is kept on the log.
fn is_durable(note: &Note) -> bool
    ensures { result ≡ is_durable (met_of note.now) }
{
    match note {
        Note::OfLeases(note) => is_kept(note),
        Note::Decided { .. } => true,
        Note::Applied { .. } => false,
        Note::MadeValid(valid) => is_valid_kept(valid),
        Note::Answered(answered) => is_answer_kept(answered),
    }
}

/// The notes that are kept on the log.
fn durable(notes: Items<Note>) -> Items<Note>
    ensures { map met_of result ≡ filter is_durable (map met_of notes) }
{
    let mut kept = notes.into_vec();
    kept.retain(|note| is_durable(note));
    Items::from_vec(kept)
}

/// The first so many messages.
fn first(sends: Items<Message>, count: usize) -> Items<Message>
    ensures { result ≡ take count sends }
{
    let mut sends = sends.into_vec();
    sends.truncate(count);
    Items::from_vec(sends)
}

/// What the next start owes of a step that was cut off, and that sends so many replies before all else.
pub(crate) fn handed_back(step: Step, replies: usize) -> Cut
    ensures notes { map met_of result.notes ≡ filter is_durable (map met_of step.notes) }
    ensures replies { result.replies ≡ take replies step.sends }
{
    let Step { notes, sends } = step;
    Cut {
        notes: durable(notes),
        replies: first(sends, replies),
    }
}
