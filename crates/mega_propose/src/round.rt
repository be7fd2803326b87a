//! A proposal: its place, its round, and what it has heard.
use mega_ballot::Ballot;
use mega_base::{GroupId, Items, OpId, Shared};
use mega_entry::Entry;
use mega_wire::Message;

/// Where an operation proposes, and among whom: the voters, the full nodes, how many lock cells there are, and the
/// nodes about which it asked the cells while it covered another position before.
#[derive(Debug, Drop)]
pub struct Site {
    pub op: OpId,
    pub group: GroupId,
    pub position: u64,
    pub voters: Shared<Items<u8>>,
    pub full: Shared<Items<u8>>,
    pub cells: u8,
    pub asked: Items<u8>,
}

/// A voter's first promise of a round, with the vote that it reported.
#[derive(Debug, Drop)]
pub struct Report {
    pub voter: u8,
    pub vote: Option<(Ballot, Entry)>,
}

/// A cell said that it holds nothing for a node.
#[derive(Clone, Copy, Debug, Drop)]
pub struct Free {
    pub cell: u8,
    pub node: u8,
}

/// What a covering has heard: who accepted at its ballot, who is invalidated, and which cells hold nothing for whom;
/// and the nodes that it told to invalidate and about which it asked the cells.
#[derive(Debug, Drop)]
pub struct Cover {
    pub accepted: Items<u8>,
    pub invalidated: Items<u8>,
    pub free: Items<Free>,
    pub told: Items<u8>,
}

/// A round, with the clock of its last sending.
#[derive(Debug, Drop)]
pub enum Round {
    /// The leader is asked at the ballot that all share.
    Asking {
        leader: u8,
        sent: u64,
    },
    /// The voters are asked to promise a ballot.
    Preparing {
        ballot: Ballot,
        reports: Items<Report>,
        sent: u64,
    },
    /// The voters are asked to accept an entry.
    Accepting {
        ballot: Ballot,
        entry: Entry,
        voted: Items<u8>,
        sent: u64,
    },
    /// A majority accepted the entry; each full node has to be covered.
    Covering {
        ballot: Ballot,
        entry: Entry,
        cover: Cover,
        sent: u64,
    },
    /// The entry is settled; the nodes are those about which the round asked the cells.
    Settled {
        entry: Entry,
        told: Items<u8>,
    },
    /// There is no higher round: the operation waits for a decision.
    Waiting,
}

/// The entry that an operation proposes of its own, the greatest round in what it sent and took here, and its round.
#[derive(Debug, Drop)]
pub struct Proposal {
    pub own: Entry,
    pub seen: u32,
    pub round: Round,
}

/// What a round leads to, and what it sends for that.
#[derive(Debug, Drop)]
pub struct Move {
    pub proposal: Proposal,
    pub sends: Items<Message>,
}
