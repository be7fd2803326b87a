//! A run that the law of handled messages is about, as contracts of functions that do nothing.

ghost use Rattle.std.specs.Prelude.{◌≡◌, [], ◌∷◌};
ghost use Rattle.mega_run_laws.specs.of_promises.Worked.{sends_decided};
ghost use Rattle.mega_handled_laws.specs.Examples.{changes, meant_by};
ghost use Rattle.mega_handled_laws.specs.Meant.{AreMeant};

/// Texts of three lengths mean a put and two pumps, and these begin with them, under handlers that change: the premise of the law can be met.
pub fn texts_mean_their_requests()
    ensures { AreMeant meant_by changes }
{}

/// The second group's log has the entry that enters the message, and the one that handles it, which sends what the handler sends that was there in
/// one event alone.
#[tactic(auto, unfolding(mega_base::specs::Codec::number_text, mega_keys::specs::Reading::key_at, mega_keys::specs::Reading::key_front_at, mega_keys::specs::Reading::root_at, mega_keys::specs::Reading::marks_at, mega_keys::specs::Reading::byte_at, mega_keys::specs::Reading::values_at, mega_keys::specs::Reading::int64_at, mega_keys::specs::Reading::agree))]
pub fn a_handler_of_one_event()
    ensures { sends_decided changes ≡ 0 ∷ 1 ∷ [] }
{}
