//! Runs that the laws are about, as contracts of functions that do nothing.

ghost use Rattle.std.specs.Prelude.{◌≡◌, true, [], ◌∷◌, Some, codes, map, take};
ghost use Rattle.mega_tape_laws.specs.of_schedule.declared.world_event.WorldEvent.TheVariants.{Deliver, Drain};
ghost use Rattle.mega_tape_laws.specs.of_transcript.declared.item.Item.TheVariants.{Answer, Begin};
ghost use Rattle.mega_tape_laws.specs.of_rules.Coordinators.{serves_at, valid_at};
ghost use Rattle.mega_tape_laws.specs.of_rules.Examples.{cluster, group};
ghost use Rattle.mega_tape_laws.specs.of_promises.Worked.{Serves, Valid, drain, epoch, happens, marks, op, put_at, read_through};
ghost use Rattle.mega_tape_laws.specs.Examples.{asks_put};
ghost use Rattle.mega_tape_laws.specs.Lawful.{Lawful};
ghost use Rattle.mega_run_laws.specs.Examples.{stands_after, then_reads};
ghost use Rattle.mega_run_laws.specs.Usages.{Fits};

/// Two rivals each put, of which one is committed and the other is told of it (`two_rivals`): what is meant fits what begins.
pub fn rivals_fit()
    ensures { Fits asks_put (map happens (put_at 2 ∷ put_at 3 ∷ Drain 12 ∷ Deliver 14 ∷ drain ∷ [])) }
{}

/// A lawful tape with a coordinator that serves, a group that is valid there, and a current read of it that is local: it is answered where it
/// begins, and no message is sent for it.
#[tactic(auto, unfolding(mega_base::specs::Codec::number_text))]
pub fn a_local_read_is_lawful()
    ensures lawful { Lawful cluster (stands_after then_reads).tape }
    ensures serves { serves_at cluster ((stands_after then_reads).node 1).met ≡ Some epoch }
    ensures valid { valid_at cluster ((stands_after then_reads).node 1).met group ≡ true }
    ensures told { marks (stands_after then_reads).tape ≡ Valid 1 0 ∷ Serves 1 1 0 ∷ [] }
    ensures is_local { take 2 (stands_after then_reads).tape ≡ Answer (op 1 1 2) (read_through 1) ∷ Begin (op 1 1 2) (codes "{}") ∷ [] }
{}
