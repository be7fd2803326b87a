//! A read begins: local where its group is valid, else by a poll of all voters.
ghost use Rattle.std.specs.Prelude.{◌≡◌, IfOk};
ghost use Rattle.mega_read.specs.Catching.{local_read, polled_read};

use crate::reading::{Move, Reader, Reading, Stage};
use mega_base::{Epoch, Items, NoMemory};
use std::alloc::Global;

/// A read of a valid group: local, through the greatest position that its node accepted or decided.
pub fn local_read(alloc: Global, asked: Items<u8>, top: u64) -> Move
    ensures { result ≡ local_read asked top }
{
    Move {
        reading: Reading {
            noted: None,
            asked,
            stage: Stage::Catching {
                through: top,
                search: None,
            },
        },
        sends: Items::new(alloc),
    }
}

impl Reader {
    /// A read of any other group: it polls all voters.
    pub fn polled_read(
        &self,
        alloc: Global,
        noted: Option<Epoch>,
        asked: Items<u8>,
        now: u64,
    ) -> Result<Move, NoMemory>
        ensures { IfOk result (λ made. made ≡ polled_read self.now noted asked now) }
    {
        let sends = self.asks_where(alloc, self.voters.as_slice())?;
        let stage = Stage::Polling {
            heard: Items::new(alloc),
            best: 0,
            sent: now,
        };
        Ok(Move {
            reading: Reading {
                noted,
                asked,
                stage,
            },
            sends,
        })
    }
}
