//! What a start shows comes onto the tape: its number, what it owed to a step that was cut off, and what it applied.
ghost use Rattle.std.specs.Prelude.{◌≡◌, ◌+◌, ◌++◌, ◌∷◌, [], ℕ, List, OnOk, map, flat_map};
ghost use Rattle.std.specs.Prelude.{All};
ghost use Rattle.mega_cluster.specs.declared.cluster.Cluster.{Cluster};
ghost use Rattle.mega_places.specs.of_voter.of_rules.Met.{Unsends};
ghost use Rattle.mega_places.specs.of_voter.of_rules.Operations.{Node as RuleNode};
ghost use Rattle.mega_places.specs.of_durable.of_core.of_step_parts.Notes.{met_of};
ghost use Rattle.mega_places.specs.of_promises.of_transcript.declared.item.Item.{Item as OnTape};
ghost use Rattle.mega_places.specs.of_promises.of_transcript.Lines.{HasLine};
ghost use Rattle.mega_places.specs.of_promises.of_transcript.Tape.{newest};
ghost use Rattle.mega_places.specs.of_promises.Items.{number, shown};
ghost use Rattle.mega_places.specs.Kept.{owed_of};
ghost use Rattle.mega_world.specs.Owing.{IsOwing, ShowsOwed, ShowsStart};
ghost use Rattle.mega_world.specs.Shown.{notes_shown};

use crate::restarting::Shown;
use crate::showing::put_all;
use crate::world::World;
use mega_base::{Items, NoMemory, NodeId};
use mega_places::keep_lapses;
use mega_places::mega_durable::Cut;
use mega_places::mega_transcript::{Item, Tape};
use mega_wire::Message;

/// Replies that were not sent come onto the tape.
fn put_unsent(me: u8, replies: Items<Message>, tape: &mut Tape) -> Result<(), NoMemory>
    ensures { OnOk result (tape.new.items ≡ tape.old.items ++ flat_map (shown me) (map Unsends replies)) }
{
    for message in replies.into_vec() {
        tape.items.push(Item::Unsent {
            node: NodeId(me),
            message,
        })?;
    }
    Ok(())
}

impl World {
    /// What a start owed comes onto the tape.
    fn show_owed(&mut self, me: u8, owed: Option<Cut>, tape: &mut Tape) -> Result<(), NoMemory>
        ensures shown { OnOk result ((c : Cluster) (was ruled : ℕ → RuleNode) (earlier : List OnTape) → IsOwing c self.old me (owed_of owed) was ruled (newest (earlier ++ tape.old.items)) →
            ShowsOwed c self.old self.new me (owed_of owed) ruled (newest (earlier ++ tape.old.items)) (newest (earlier ++ tape.new.items))) }
        ensures lines { OnOk result (All HasLine tape.old.items → All HasLine (flat_map (shown me) (owed_of owed)) → All HasLine tape.new.items) }
    {
        let cut = match owed {
            Some(cut) => cut,
            None => return Ok(()),
        };
        let Cut { notes, replies } = cut;
        keep_lapses(&mut self.safety.lapses, me, &notes)?;
        put_all(me, notes, self.places.as_slice(), &mut self.safety, tape)?;
        put_unsent(me, replies, tape)?;
        Ok(())
    }

    /// What a start shows comes onto the tape.
    pub(crate) fn show_start(
        &mut self,
        me: u8,
        opening: Shown,
        tape: &mut Tape,
    ) -> Result<(), NoMemory>
        ensures shown { OnOk result ((c : Cluster) (was ruled : ℕ → RuleNode) (earlier : List OnTape) → IsOwing c self.old me (owed_of opening.owed) was ruled (newest (earlier ++ tape.old.items)) →
            ShowsStart c self.old self.new me opening ruled (newest (earlier ++ tape.old.items)) (newest (earlier ++ tape.new.items))) }
        ensures lines { OnOk result (All HasLine tape.old.items → All HasLine (flat_map (shown me) (owed_of opening.owed)) → All HasLine (notes_shown me opening.notes) → All HasLine tape.new.items) }
    {
        let Shown { start, owed, notes } = opening;
        tape.items.push(Item::Start {
            node: NodeId(me),
            start,
        })?;
        self.show_owed(me, owed, tape)?;
        put_all(me, notes, self.places.as_slice(), &mut self.safety, tape)?;
        Ok(())
    }
}
