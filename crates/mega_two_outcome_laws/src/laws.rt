//! Laws that join changes of several groups to a store, as contracts of functions that do nothing.

ghost use Rattle.std.specs.Prelude.{◌≡◌, ◌∷◌, [], ℕ, Bool, List, Ok, Some, false, true, length, option_map, slice_get};
ghost use Rattle.hex.specs.Hex.{IsBytes};
ghost use Rattle.mega_base.specs.declared.values.Value.{Value as KeyValue};
ghost use Rattle.mega_outcome.specs.Reads.{read_rows, shown as row_shown};
ghost use Rattle.mega_outcome.specs.declared.transaction.Transaction.{Transaction as Txn};
ghost use Rattle.mega_schema.specs.declared.schema.Schema.{Schema as Tables};
ghost use Rattle.mega_two_laws.specs.Atomic.{IsAtomic};
ghost use Rattle.mega_two_laws.specs.Driver.{IsHistory};
ghost use Rattle.mega_two_laws.specs.Parts.{Part};
ghost use Rattle.mega_two_laws.specs.World.{Deciding, Done, Finishing, LockIs, LookingAtLock, LookingAtPlan, Plan, PlanIs, Planning, Preparing, Text, Turned, run, world};
ghost use Rattle.mega_two_driver.specs.Begins.{plan_of};
ghost use Rattle.mega_two_driver.specs.Driver.{decision};
ghost use Rattle.mega_two_driver.specs.Fits.{transaction_of};
ghost use Rattle.mega_two_driver.specs.Lines.{is_name};
ghost use Rattle.mega_two_driver.specs.declared.plan.PartRequests.{PartRequests};
ghost use Rattle.mega_two_driver.specs.declared.plan.Plan.{Plan as Requests};
ghost use Rattle.mega_two_outcome_laws.specs.Changes.{part_by, parts_of};
ghost use Rattle.mega_two_outcome_laws.specs.Examples.{accounts, of_part, own, replies, requests};
ghost use Rattle.mega_two_outcome_laws.specs.Histories.{AreHappenings, Happening, IsRequest, events_of, no_stores, stores_of};
ghost use Rattle.mega_two_outcome_laws.specs.Places.{lock_place, locks, plan_group, plan_place, plans};
ghost use Rattle.mega_two_outcome_laws.specs.Ready.{AreNamedOnce, IsReady, TextFits};
ghost use Rattle.mega_two_outcome_laws.specs.Requests.{IsDeciding, IsFinishing, IsPlanning, IsPreparing, key_at, row};
ghost use Rattle.mega_two_outcome_laws.specs.Runs.{IsStep};
ghost use Rattle.mega_two_outcome_laws.specs.Shown.{Stores, holder_in, plan_in, shown};

/// Run by `outcome` on the rows of its group, whatever they are, a transaction that is a request of a change is the step of that request in the
/// world that the rows show; a decision where the plan that stands there, if one does, is that of its line.
pub fn transactions_are_steps()
    ensures planned { (s : Tables) (name line : List ℕ) (txn : Txn) (stores : Stores) → IsPlanning s name line txn → IsStep s txn name (Planning name (parts_of s line)) stores }
    ensures decided { (s : Tables) (name line : List ℕ) (made : Bool) (txn : Txn) (stores : Stores) → IsDeciding s name line made txn
        → ((plan : Plan) → (shown s stores).plans name ≡ Some plan → plan.parts ≡ parts_of s line) → IsStep s txn name (Deciding name made) stores }
    ensures prepared { (s : Tables) (name : List ℕ) (own txn : Txn) (stores : Stores) → IsPreparing s name own txn → IsStep s txn name (Preparing name (part_by own s)) stores }
    ensures finished { (s : Tables) (name : List ℕ) (made : Bool) (own txn : Txn) (stores : Stores) → is_name name ≡ true → IsFinishing s name made own txn
        → IsStep s txn name (Finishing name made (part_by own s)) stores }
{}

/// A read that names the row of a plan, or of a group's lock, shows the row that stands there, and of that row is what the world tells of the
/// plan, or of the lock.
pub fn looks_show_what_stands()
    ensures plan { (s : Tables) (name : List ℕ) (values : List KeyValue) (stores : Stores) → key_at s (plan_group s name) (plans s) values ≡ Some (plan_place s name)
        → (read_rows s (record { key = plan_group s name }) (row (plans s) values ∷ []) (stores (plan_group s name)) ≡ Ok (option_map (row_shown (plans s)) (stores (plan_group s name) (plan_place s name)) ∷ []))
        × ((run (shown s stores) (LookingAtPlan name)).1 ≡ PlanIs (option_map (plan_in s) (stores (plan_group s name) (plan_place s name)))) }
    ensures lock { (s : Tables) (name group : List ℕ) (values : List KeyValue) (stores : Stores) → key_at s group (locks s group) values ≡ Some (lock_place s group)
        → (read_rows s (record { key = group }) (row (locks s group) values ∷ []) (stores group) ≡ Ok (option_map (row_shown (locks s group)) (stores group (lock_place s group)) ∷ []))
        × ((run (shown s stores) (LookingAtLock name group)).1 ≡ LockIs (option_map (holder_in s group) (stores group (lock_place s group)))) }
{}

/// From the text of the request, as the driver asks it and a node reads it: the requests that put, make and drop the plan of a line that tells
/// a change are these transactions, and so their steps. The schema is one that is declared, with no local index over the tables of changes, and
/// what the request writes fits its group.
pub fn plans_are_put_and_decided()
    ensures planned { (s : Tables) (line : List ℕ) (plan : Requests) (stores : Stores) → IsReady s → IsBytes line → plan_of s line ≡ Ok plan → TextFits s plan.put
        → IsStep s (transaction_of s plan.put) plan.name (Planning plan.name (parts_of s line)) stores }
    ensures decided { (s : Tables) (line : List ℕ) (plan : Requests) (stores : Stores) (made : Bool) → IsReady s → IsBytes line → plan_of s line ≡ Ok plan → TextFits s (decision made plan)
        → ((stands : Plan) → (shown s stores).plans plan.name ≡ Some stands → stands.parts ≡ parts_of s line) → IsStep s (transaction_of s (decision made plan)) plan.name (Deciding plan.name made) stores }
    ensures asked { (s : Tables) (line : List ℕ) (plan : Requests) → IsReady s → IsBytes line → plan_of s line ≡ Ok plan → TextFits s plan.put
        → IsRequest s (parts_of s line) (Planning plan.name (parts_of s line)) (transaction_of s plan.put) }
    ensures asked_then { (s : Tables) (line : List ℕ) (plan : Requests) (made : Bool) → IsReady s → IsBytes line → plan_of s line ≡ Ok plan → TextFits s (decision made plan)
        → IsRequest s (parts_of s line) (Deciding plan.name made) (transaction_of s (decision made plan)) }
{}

/// From the text of the request again: of each part of a line that tells a change, what a node reads of the texts that prepare it, and that
/// finish it made or dropped, is that request, and so its step; and the plan has the requests of each part, in order. The schema is one that is
/// declared, with no local index over the tables of changes. That the finish fits which makes the part's writes, each line that tells a change
/// has; that the others fit is a premise.
pub fn parts_are_prepared_and_finished()
    ensures prepared { (s : Tables) (line : List ℕ) (plan : Requests) (i : ℕ) (asks : PartRequests) (part : Part) (stores : Stores) → IsReady s → AreNamedOnce s → plan_of s line ≡ Ok plan
        → slice_get plan.parts i ≡ Some asks → slice_get (parts_of s line) i ≡ Some part → TextFits s asks.prepare
        → IsRequest s (parts_of s line) (Preparing plan.name part) (transaction_of s asks.prepare) × IsStep s (transaction_of s asks.prepare) plan.name (Preparing plan.name part) stores }
    ensures made { (s : Tables) (line : List ℕ) (plan : Requests) (i : ℕ) (asks : PartRequests) (part : Part) (stores : Stores) → IsReady s → AreNamedOnce s → plan_of s line ≡ Ok plan
        → slice_get plan.parts i ≡ Some asks → slice_get (parts_of s line) i ≡ Some part
        → IsRequest s (parts_of s line) (Finishing plan.name true part) (transaction_of s asks.commit) × IsStep s (transaction_of s asks.commit) plan.name (Finishing plan.name true part) stores }
    ensures dropped { (s : Tables) (line : List ℕ) (plan : Requests) (i : ℕ) (asks : PartRequests) (part : Part) (stores : Stores) → IsReady s → AreNamedOnce s → plan_of s line ≡ Ok plan
        → slice_get plan.parts i ≡ Some asks → slice_get (parts_of s line) i ≡ Some part → TextFits s asks.abort
        → IsRequest s (parts_of s line) (Finishing plan.name false part) (transaction_of s asks.abort) × IsStep s (transaction_of s asks.abort) plan.name (Finishing plan.name false part) stores }
    ensures each { (s : Tables) (line : List ℕ) (plan : Requests) → plan_of s line ≡ Ok plan → length plan.parts ≡ length (parts_of s line) }
{}

/// Whatever happens to the stores of all groups: requests that drivers ask, by their transactions, and writes of others that leave the rows of
/// changes alone. It is a history of the world, the rows show that world, and each change is made whole or not at all.
pub fn stores_keep_changes_whole()
    ensures history { (s : Tables) (happened : List Happening) → AreHappenings s happened → IsHistory (events_of s happened) }
    ensures shows { (s : Tables) (happened : List Happening) → AreHappenings s happened → world (events_of s happened) ≡ shown s (stores_of s happened) }
    ensures atomic { (s : Tables) (happened : List Happening) → AreHappenings s happened → (name : Text) → IsAtomic (events_of s happened) name }
{}

/// A transfer between two accounts, from its bytes and computed: its plan is put once; each part is prepared once and finished once, and its
/// plan is made once. The schema is one as the laws have it, and the texts of its first part are requests.
pub fn a_transfer_is_made_once()
    ensures planned { replies no_stores (requests.put ∷ requests.put ∷ []) ≡ Done ∷ Turned ∷ [] }
    ensures whole { replies no_stores (requests.put ∷ of_part (λ part. part.prepare) 0 ∷ of_part (λ part. part.prepare) 1 ∷ requests.commit ∷ requests.abort ∷ of_part (λ part. part.commit) 0
        ∷ of_part (λ part. part.commit) 0 ∷ of_part (λ part. part.commit) 1 ∷ []) ≡ Done ∷ Done ∷ Done ∷ Done ∷ Turned ∷ Done ∷ Turned ∷ Done ∷ [] }
    ensures ready { IsReady accounts }
    ensures named { AreNamedOnce accounts }
    ensures fits { TextFits accounts requests.put × TextFits accounts requests.commit × TextFits accounts requests.abort }
    ensures prepared { IsPreparing accounts requests.name own (transaction_of accounts (of_part (λ part. part.prepare) 0)) }
    ensures made { IsFinishing accounts requests.name true own (transaction_of accounts (of_part (λ part. part.commit) 0)) }
    ensures dropped { IsFinishing accounts requests.name false own (transaction_of accounts (of_part (λ part. part.abort) 0)) }
{}
