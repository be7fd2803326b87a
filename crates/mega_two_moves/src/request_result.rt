//! What a reply tells a change.

/// Whether a plan is decided, and how.
#[derive(Clone, Copy, PartialEq, Eq, Debug, Drop)]
pub enum State {
    Undecided,
    Made,
    Dropped,
}

/// What a change is told of its present request.
#[derive(Clone, Copy, PartialEq, Eq, Debug, Drop)]
pub enum RequestResult {
    /// It was done.
    Done,
    /// It was turned down, and changed nothing.
    Turned,
    /// Something came in between: it is asked again.
    Again,
    /// Nobody knows whether it was done.
    Lost,
    /// It is not served.
    Refused,
    /// There is no plan.
    NoPlan,
    /// The plan stands so.
    StateIs(State),
    /// The part is locked for this change.
    Held,
    /// The part is not locked for this change.
    Free,
}
