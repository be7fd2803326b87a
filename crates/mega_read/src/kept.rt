//! What a read keeps through its stages.
ghost use Rattle.std.specs.Prelude.{◌≡◌, None, Some};
ghost use Rattle.mega_read.specs.Catching.{filled};
ghost use Rattle.mega_read.specs.declared.reading.Search.TheVariants.{Fetching, Filling};
ghost use Rattle.mega_read.specs.declared.reading.Stage.TheVariants.{Catching};

use crate::reading::{Move, Reading, Search, Stage};
use mega_base::{Epoch, Items};
use mega_propose::Proposal;
use mega_propose::mega_wire::Message;

/// What a read keeps through its stages: the epoch that it noted, and the nodes about which it asked the cells.
#[derive(Drop)]
pub(crate) struct ReadBase {
    pub noted: Option<Epoch>,
    pub asked: Items<u8>,
}

impl ReadBase {
    /// The read at a stage, and what is sent for that.
    pub(crate) fn at(self, stage: Stage, sends: Items<Message>) -> Move
        ensures { result ≡ record { reading = record { noted = self.noted; asked = self.asked; stage = stage }; sends = sends } }
    {
        Move {
            reading: Reading {
                noted: self.noted,
                asked: self.asked,
                stage,
            },
            sends,
        }
    }

    /// The round of a no-op goes on.
    pub(crate) fn filled(self, through: u64, position: u64, round: mega_propose::Move) -> Move
        ensures { result ≡ filled (record { noted = self.noted; asked = self.asked; stage = Catching through None }) through position round }
    {
        let mega_propose::Move { proposal, sends } = round;
        self.at(Stage::filling(through, position, proposal), sends)
    }
}

impl Stage {
    /// The entry of a position is fetched.
    pub(crate) fn fetching(through: u64, position: u64, denied: Items<u8>, sent: u64) -> Stage
        ensures { result ≡ Catching through (Some (Fetching position denied sent)) }
    {
        Stage::Catching {
            through,
            search: Some(Search::Fetching {
                position,
                denied,
                sent,
            }),
        }
    }

    /// A no-op is proposed at a position.
    fn filling(through: u64, position: u64, proposal: Proposal) -> Stage
        ensures { result ≡ Catching through (Some (Filling position proposal)) }
    {
        Stage::Catching {
            through,
            search: Some(Search::Filling { position, proposal }),
        }
    }
}
