//! The items of the tape that show what a node notes and sends.
ghost use Rattle.std.specs.Prelude.{◌≡◌, ◌∷◌, []};
ghost use Rattle.mega_promises.specs.Items.{shown};
ghost use Rattle.mega_leases.specs.Notes.{met_of as leases_met};
ghost use Rattle.mega_core.specs.of_step_parts.Notes.{met_of};

use mega_base::{NodeId, Position};
use mega_core::mega_step_parts::Note;
use mega_transcript::Item;

/// The item that shows what a node's cell or coordinator notes.
fn lease_item(me: u8, note: mega_leases::LeaseNote) -> Item
    ensures { shown me (leases_met note) ≡ result ∷ [] }
{
    use mega_leases::LeaseNote;
    let own = NodeId(me);
    match note {
        LeaseNote::Grants { node, epoch } => Item::Grant {
            cell: me,
            node,
            epoch,
        },
        LeaseNote::Lapses { node, epoch } => Item::Lapse {
            cell: me,
            node,
            epoch,
        },
        LeaseNote::Counts { cell, epoch } => Item::Counts {
            node: own,
            cell,
            epoch,
        },
        LeaseNote::Forgets { cell, epoch } => Item::Forgets {
            node: own,
            cell,
            epoch,
        },
        LeaseNote::Serves { epoch } => Item::Serving { node: own, epoch },
        LeaseNote::Loses { epoch } => Item::Lost { node: own, epoch },
        LeaseNote::Invalidates { group, position } => Item::Invalid {
            node: own,
            group,
            position,
        },
    }
}

/// The item that shows a note of a node.
pub fn item_of(me: u8, note: Note) -> Item
    ensures { shown me (met_of note) ≡ result ∷ [] }
{
    let node = NodeId(me);
    match note {
        Note::OfLeases(note) => lease_item(me, note),
        Note::Decided {
            group,
            position,
            entry,
        } => Item::Decide {
            node,
            group,
            position: Position(position),
            entry,
        },
        Note::Applied { group, position } => Item::Apply {
            node,
            group,
            position: Position(position),
        },
        Note::MadeValid(valid) => Item::Valid {
            node,
            group: valid.group,
            position: Position(valid.position),
        },
        Note::Answered(answered) => Item::Answer {
            op: answered.op,
            answer: answered.answer,
        },
    }
}
