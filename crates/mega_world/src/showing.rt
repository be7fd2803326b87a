//! What a step makes comes onto the tape, with `unsafe` after the first item by which leases are not safe.

ghost use Rattle.std.specs.Prelude.{◌≡◌, ◌+◌, ◌++◌, ◌∷◌, ◌||◌, [], ℕ, List, OnOk, if◌then◌else◌};
ghost use Rattle.std.specs.Prelude.{All};
ghost use Rattle.mega_cluster.specs.declared.cluster.Cluster.{Cluster};
ghost use Rattle.mega_places.specs.of_promises.of_transcript.declared.item.Item.{Item as OnTape};
ghost use Rattle.mega_places.specs.of_promises.of_transcript.declared.item.Item.TheVariants as item;
ghost use Rattle.mega_places.specs.of_promises.of_transcript.Lines.{HasLine};
ghost use Rattle.mega_places.specs.of_promises.of_transcript.Tape.{newest, sent_count};
ghost use Rattle.mega_places.specs.of_voter.of_rules.Operations.{Node as RuleNode};
ghost use Rattle.mega_places.specs.of_durable.of_core.of_step_parts.Notes.{met_of};
ghost use Rattle.mega_places.specs.of_promises.Items.{numbered, shown};
ghost use Rattle.mega_places.specs.of_promises.Runs.{with_items};
ghost use Rattle.mega_places.specs.Carries.{Carries};
ghost use Rattle.mega_safety.specs.Lapses.{KnowsLeases};
ghost use Rattle.mega_places.specs.Members.{AreMembers};
ghost use Rattle.mega_world.specs.Showing.{IsShown, IsStepped, LinesStep, ShowsStep};
ghost use Rattle.mega_world.specs.Shown.{notes_shown};

use crate::world::World;
use mega_base::{Items, NoMemory, NodeId};
use mega_places::mega_durable::item_of;
use mega_places::mega_durable::mega_core::mega_step_parts::{Note, Step};
use mega_places::mega_transcript::{Item, Tape};
use mega_places::{Place, Safety, Stepped, breaks_first, keep_lapses};
use std::alloc::Global;

/// Tells that leases are not safe from the last item on, where it is the first to show that.
fn tell(is_first: bool, safety: &mut Safety, tape: &mut Tape) -> Result<(), NoMemory>
    ensures tape { OnOk result (tape.new.items ≡ (if is_first then tape.old.items ++ item.Unsafe ∷ [] else tape.old.items)) }
    ensures told { OnOk result (safety.new.is_told ≡ (is_first || safety.old.is_told)) }
    ensures lapses { safety.new.lapses ≡ safety.old.lapses }
{
    if !is_first {
        return Ok(());
    }
    tape.items.push(Item::Unsafe)?;
    safety.is_told = true;
    Ok(())
}

/// The item of a note comes onto the tape; the first that shows that leases are not safe is followed by this.
fn put(
    me: u8,
    note: Note,
    places: &[Place],
    safety: &mut Safety,
    tape: &mut Tape,
) -> Result<(), NoMemory>
    ensures tape { OnOk result ((c : Cluster) (ruled : ℕ → RuleNode) (earlier : List OnTape) → AreMembers c places.now ruled → KnowsLeases safety.old ruled (newest (earlier ++ tape.old.items)) →
        newest (earlier ++ tape.new.items) ≡ with_items c ruled (newest (earlier ++ tape.old.items)) (shown me (met_of note))) }
    ensures leases { OnOk result ((c : Cluster) (ruled : ℕ → RuleNode) (earlier : List OnTape) → AreMembers c places.now ruled → KnowsLeases safety.old ruled (newest (earlier ++ tape.old.items)) →
        KnowsLeases safety.new ruled (newest (earlier ++ tape.new.items))) }
    ensures lines { OnOk result (All HasLine tape.old.items → All HasLine (shown me (met_of note)) → All HasLine tape.new.items) }
{
    let item = item_of(me, note);
    let is_first = breaks_first(places, safety, &item);
    tape.items.push(item)?;
    tell(is_first, safety, tape)?;
    Ok(())
}

/// The notes of a node come onto the tape.
pub(crate) fn put_all(
    me: u8,
    notes: Items<Note>,
    places: &[Place],
    safety: &mut Safety,
    tape: &mut Tape,
) -> Result<(), NoMemory>
    ensures tape { OnOk result ((c : Cluster) (ruled : ℕ → RuleNode) (earlier : List OnTape) → AreMembers c places.now ruled → KnowsLeases safety.old ruled (newest (earlier ++ tape.old.items)) →
        newest (earlier ++ tape.new.items) ≡ with_items c ruled (newest (earlier ++ tape.old.items)) (notes_shown me notes)) }
    ensures leases { OnOk result ((c : Cluster) (ruled : ℕ → RuleNode) (earlier : List OnTape) → AreMembers c places.now ruled → KnowsLeases safety.old ruled (newest (earlier ++ tape.old.items)) →
        KnowsLeases safety.new ruled (newest (earlier ++ tape.new.items))) }
    ensures lines { OnOk result (All HasLine tape.old.items → All HasLine (notes_shown me notes) → All HasLine tape.new.items) }
{
    for note in notes.into_vec() {
        put(me, note, places, safety, tape)?;
    }
    Ok(())
}

impl World {
    /// What a step of a node makes comes onto the tape: its notes, and then its messages, each under the next number.
    pub(crate) fn show(
        &mut self,
        alloc: Global,
        me: u8,
        made: Step,
        tape: &mut Tape,
    ) -> Result<(), NoMemory>
        ensures shown { OnOk result ((c : Cluster) (was ruled : ℕ → RuleNode) (earlier : List OnTape) → IsStepped c self.old me made.notes was ruled (newest (earlier ++ tape.old.items)) →
            IsShown c self.old self.new me made ruled (earlier ++ tape.old.items) (earlier ++ tape.new.items)) }
        ensures lines { OnOk result ((before : List OnTape) → Carries self.old.mail before → All HasLine tape.old.items → All HasLine (notes_shown me made.notes) →
            All HasLine (numbered (sent_count before + 1) made.sends) → All HasLine tape.new.items) }
    {
        let Step { notes, sends } = made;
        keep_lapses(&mut self.safety.lapses, me, &notes)?;
        put_all(me, notes, self.places.as_slice(), &mut self.safety, tape)?;
        self.mail.send_all(alloc, sends, tape)?;
        Ok(())
    }

    /// What a step that is whole makes comes onto the tape, and of one that was cut off the crash.
    pub(crate) fn show_step(
        &mut self,
        alloc: Global,
        me: u8,
        made: Stepped,
        tape: &mut Tape,
    ) -> Result<(), NoMemory>
        ensures shown { OnOk result ((c : Cluster) (earlier : List OnTape) → ShowsStep c self.old self.new me made (earlier ++ tape.old.items) (earlier ++ tape.new.items)) }
        ensures lines { OnOk result (LinesStep self.old me made tape.old.items tape.new.items) }
    {
        match made {
            Stepped::Made(step) => {
                self.show(alloc, me, step, tape)?;
                Ok(())
            }
            Stepped::Cut => {
                tape.items.push(Item::Crash { node: NodeId(me) })?;
                Ok(())
            }
        }
    }
}
