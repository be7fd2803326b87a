//! Laws of messages that are handled, as contracts of functions that do nothing.

ghost use Rattle.std.specs.Prelude.{ℕ, List, Option};
ghost use Rattle.mega_cluster.specs.declared.cluster.Cluster.{Cluster};
ghost use Rattle.mega_handler.specs.Named.{Meanings};
ghost use Rattle.mega_outcome.specs.declared.request.Request.{Request};
ghost use Rattle.mega_run_laws.specs.of_transcript.declared.item.Item.{Item};
ghost use Rattle.mega_run_laws.specs.of_promises.Handling.{AreHandled};
ghost use Rattle.mega_run_laws.specs.of_promises.Runs.{Happening, IsRun};
ghost use Rattle.mega_handled_laws.specs.Meant.{AreMeant};

/// In every run, whatever handlers are there in each of its events, an entry that handles a message is what the handler made of it that stood under
/// the message's queue in the step in which its operation first proposed the entry, over the log below it; and each answer has its cause under the
/// handlers of the step in which it is given (CIDR 2011, queues). Each text means the request that begins with it.
pub fn messages_are_handled_as_in_their_step()
    ensures { (c : Cluster) (meaning : List ℕ → Option Request) (first : Meanings) (events : List Happening) (tape : List Item) → (run : IsRun c first events tape) → AreMeant meaning events → AreHandled c meaning first run.cuts events tape }
{}
