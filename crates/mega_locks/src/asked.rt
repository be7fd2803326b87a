//! What a lock cell answers to a coordinator that asks for an epoch.
use mega_base::Epoch;

/// What a cell answers to a coordinator that asks for an epoch.
#[derive(Clone, Copy, PartialEq, Eq, Debug)]
pub enum Asked {
    /// The epoch is above every epoch granted to the node, and is held from now on.
    Granted,
    /// The epoch was held, and its time counts anew.
    Renewed,
    /// A greater epoch is held, this one.
    GreaterHeld { epoch: Epoch },
    /// None is held, and the epoch asked for is not above the greatest granted, this one.
    Over { epoch: Epoch },
}
