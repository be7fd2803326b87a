//! A read: who reads among whom, its stage, and the position that it completes.
use mega_base::{Epoch, GroupId, Items, OpId, Shared};
use mega_propose::Proposal;
use mega_propose::mega_wire::Message;

/// Who reads which group, and among whom: the voters, the full nodes and how many lock cells there are.
#[derive(Debug, Drop)]
pub struct Reader {
    pub op: OpId,
    pub group: GroupId,
    pub voters: Shared<Items<u8>>,
    pub full: Shared<Items<u8>>,
    pub cells: u8,
}

/// The completing of one position.
#[derive(Debug, Drop)]
pub enum Search {
    /// Its entry is fetched; these voters said that they have none.
    Fetching {
        position: u64,
        denied: Items<u8>,
        sent: u64,
    },
    /// A no-op is proposed there.
    Filling {
        position: u64,
        proposal: Proposal,
    },
}

/// How far a read is.
#[derive(Debug, Drop)]
pub enum Stage {
    /// It polls the voters for their top positions; the best of those heard stands here.
    Polling {
        heard: Items<u8>,
        best: u64,
        sent: u64,
    },
    /// It waits until all positions through one are decided at its node.
    Catching {
        through: u64,
        search: Option<Search>,
    },
}

/// A read: the epoch that it noted where it polls under a coordinator that serves, and the nodes about which it asked
/// the cells so far.
#[derive(Debug, Drop)]
pub struct Reading {
    pub noted: Option<Epoch>,
    pub asked: Items<u8>,
    pub stage: Stage,
}

/// What a read comes to, and what it sends.
#[derive(Debug, Drop)]
pub struct Move {
    pub reading: Reading,
    pub sends: Items<Message>,
}
