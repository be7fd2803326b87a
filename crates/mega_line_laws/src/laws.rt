//! Laws of what is read of an input, as contracts of functions that do nothing.

ghost use Rattle.std.specs.Prelude.{◌≡◌, ◌<◌, ◌≤◌, ◌^◌, ℕ, List, Ok, Some};
ghost use Rattle.mega_base.specs.declared.names.NodeId.{NodeId as Node};
ghost use Rattle.mega_cluster.specs.declared.cluster.Cluster.{Cluster};
ghost use Rattle.mega_cluster.specs.Header.{read_of};
ghost use Rattle.mega_format_laws.specs.Histories.{IsClock};
ghost use Rattle.mega_format_laws.specs.Requests.{IsRequest, IsTypedRequest};
ghost use Rattle.mega_outcome.specs.declared.request.Request.{Request};
ghost use Rattle.mega_schedule.specs.Asking.{asked_of};
ghost use Rattle.mega_schedule.specs.Events.{event_of};
ghost use Rattle.mega_schedule.specs.declared.asking.Ask.{Ask};
ghost use Rattle.mega_schedule.specs.declared.world_event.WorldEvent.TheVariants.{Begin, Tick};
ghost use Rattle.mega_schema.specs.declared.schema.Schema.{Schema as Tables};
ghost use Rattle.mega_transcript.specs.Requests.{IsRequest as IsText};
ghost use Rattle.mega_line_laws.specs.Clusters.{CanStart};
ghost use Rattle.mega_line_laws.specs.Meanings.{meaning_in};

/// What a line asks for is of the format, and so are its ticks.
pub fn lines_ask_for_what_is_of_the_format()
    ensures requests { (schema : Tables) (number : ℕ) (line : List ℕ) (node : Node) (request : Request) (text : List ℕ) → event_of schema number line ≡ Ok (Begin node request text) → IsRequest request }
    ensures ticks { (schema : Tables) (number : ℕ) (line : List ℕ) (node : Node) (clock : ℕ) → event_of schema number line ≡ Ok (Tick node clock) → IsClock clock }
{}

/// What a client of a node asks for is of the format.
pub fn clients_ask_for_what_is_of_the_format()
    ensures { (schema : Tables) (node : ℕ) (json : List ℕ) (ask : Ask) → node < 2 ^ 64 → asked_of schema node json ≡ Ok ask → IsRequest ask.request }
{}

/// The text with which an operation begins means its request: read again, it asks for the same.
pub fn texts_mean_their_requests()
    ensures { (schema : Tables) (number : ℕ) (line : List ℕ) (node : Node) (request : Request) (text : List ℕ) → event_of schema number line ≡ Ok (Begin node request text) → meaning_in schema text ≡ Some request }
{}

/// That text is the compact text of an object, as a line of a transcript shows it.
pub fn begins_have_compact_texts()
    ensures { (schema : Tables) (number : ℕ) (line : List ℕ) (node : Node) (request : Request) (text : List ℕ) → event_of schema number line ≡ Ok (Begin node request text) → IsText text }
{}

/// What any text means keeps what its types say: numbers are in their ranges, and texts are of UTF-8.
pub fn meanings_are_typed()
    ensures { (schema : Tables) (text : List ℕ) (request : Request) → meaning_in schema text ≡ Some request → IsTypedRequest request }
{}

/// A cluster that was read from the text of a header can start.
pub fn clusters_can_start()
    ensures { (least : ℕ) (text : List ℕ) (c : Cluster) → read_of least text ≡ Ok c → CanStart c }
{}
