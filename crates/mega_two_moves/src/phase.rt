//! Where a change of several groups is.

/// How a change ended: made in all its groups, in none, its name used before, or left to whoever recovers it.
#[derive(Clone, Copy, PartialEq, Eq, Debug, Drop)]
pub enum Ended {
    Committed,
    Aborted,
    Used,
    Open,
}

/// Where a change is. Parts are numbered from 0; a truth value says whether the change is made.
#[derive(Clone, Copy, PartialEq, Eq, Debug, Drop)]
pub enum Phase {
    /// It puts its plan.
    Begins,
    /// It prepares this part.
    Prepares(usize),
    /// It decides the plan.
    Decides(bool),
    /// It looks how the plan was decided.
    Looks(bool),
    /// It finishes this part.
    Finishes(bool, usize),
    /// It looks whether this part is still locked.
    Checks(bool, usize),
    /// It looks for a plan that was put before.
    Recovers,
    /// It ended.
    Over(Ended),
}
