//! Worked examples: what the definitions give where one can say it beforehand, as contracts of functions that do nothing.

ghost use Rattle.std.specs.Prelude.{◌≡◌, [], ◌∷◌, ◌++◌, map, codes};
ghost use Rattle.mega_read.specs.of_wire.declared.message.Body.TheVariants.{Where};
ghost use Rattle.mega_ballot.specs.Order.{zero_ballot};
ghost use Rattle.mega_rules.specs.Steps.{Begin, Take};
ghost use Rattle.mega_rules.specs.Examples.{accept_for, accepted_from, cluster, entry_of, fresh, from_to, group, last_step, op_of, put, top_from};

/// An operation begins with a poll of all voters.
pub fn a_put_polls_all_voters()
    ensures { (last_step 1 (fresh 1) [] (Begin put (codes "{}"))).sends ≡ map (λ voter. from_to 1 voter (Where (op_of 1) group)) (1 ∷ 2 ∷ 3 ∷ []) }
{}

/// With the tops of a majority it proposes its entry to the leader of the next position, the lowest voter for position 1.
#[tactic(auto, unfolding(mega_base::specs::Codec::number_text))]
pub fn a_majority_of_tops_leads_to_asking()
    ensures { (last_step 1 (fresh 1) (Begin put (codes "{}") ∷ Take (top_from 1 0) ∷ []) (Take (top_from 2 0))).sends ≡ accept_for 1 1 1 zero_ballot (entry_of 1) ∷ [] }
{}
