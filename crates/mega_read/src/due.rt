//! What a read does at a tick, and what it has settled so far.
ghost use Rattle.std.specs.Prelude.{◌≡◌, IfOk, None, Some, map, option_map, Option};
ghost use Rattle.mega_propose.specs.Members.{without};
ghost use Rattle.mega_read.specs.Catching.{asked_by, falls_due, is_position, read_settled, search_told, searched, seeks, through_of, where_to};
ghost use Rattle.mega_read.specs.declared.reading.Search.TheVariants.{Fetching, Filling};
ghost use Rattle.mega_read.specs.declared.reading.Stage.TheVariants.{Catching, Polling};

use crate::kept::ReadBase;
use crate::reading::{Move, Reader, Reading, Search, Stage};
use mega_base::{Copied, Items, NoMemory};
use mega_entry::Entry;
use mega_propose::mega_wire::Message;
use mega_propose::{Proposal, is_due, joined, without};
use std::alloc::Global;

/// The nodes about which a search asked the cells.
fn search_told(search: &Option<Search>) -> &[u8]
    ensures { result.now ≡ search_told search.now }
{
    match search {
        Some(Search::Filling { proposal, .. }) => proposal.told_in(),
        _ => &[],
    }
}

/// Whether a search completes this position.
fn is_searched(position: u64, search: &Option<Search>) -> bool
    ensures { result ≡ is_position position (searched search.now) }
{
    match search {
        Some(Search::Fetching { position: at, .. }) => *at == position,
        Some(Search::Filling { position: at, .. }) => *at == position,
        None => false,
    }
}

impl Reader {
    /// Asks those voters again that have not answered.
    fn asks_silent(&self, alloc: Global, heard: &[u8]) -> Result<Items<Message>, NoMemory>
        ensures { IfOk result (λ sends. sends ≡ map (where_to self.now) (without heard.now self.now.voters)) }
    {
        let silent = without(alloc, heard, self.voters.as_slice())?;
        let sends = self.asks_where(alloc, silent.as_slice())?;
        Ok(sends)
    }

    /// What is due of a poll.
    fn polling_due(
        &self,
        alloc: Global,
        kept: ReadBase,
        heard: Items<u8>,
        best: u64,
        sent: u64,
        retry: u64,
        now: u64,
    ) -> Result<Move, NoMemory>
        ensures { IfOk result (λ made. made ≡ falls_due self.now (record { noted = kept.noted; asked = kept.asked; stage = Polling heard best sent }) retry now) }
    {
        if !is_due(sent, retry, now) {
            return Ok(kept.at(Stage::Polling { heard, best, sent }, Items::new(alloc)));
        }
        match self.asks_silent(alloc, heard.as_slice()) {
            Ok(sends) => {
                let sent = now;
                Ok(kept.at(Stage::Polling { heard, best, sent }, sends))
            }
            Err(refused) => {
                drop(kept);
                drop(heard);
                Err(refused)
            }
        }
    }

    /// What is due of a fetch.
    fn fetching_due(
        &self,
        alloc: Global,
        kept: ReadBase,
        through: u64,
        position: u64,
        denied: Items<u8>,
        sent: u64,
        retry: u64,
        now: u64,
    ) -> Result<Move, NoMemory>
        ensures { IfOk result (λ made. made ≡ falls_due self.now (record { noted = kept.noted; asked = kept.asked; stage = Catching through (Some (Fetching position denied sent)) }) retry now) }
    {
        if is_due(sent, retry, now) {
            drop(denied);
            return self.fills(alloc, kept, through, position, now);
        }
        let stage = Stage::fetching(through, position, denied, sent);
        Ok(kept.at(stage, Items::new(alloc)))
    }

    /// What is due of the round of a no-op.
    fn filling_due(
        &self,
        alloc: Global,
        kept: ReadBase,
        through: u64,
        position: u64,
        proposal: Proposal,
        retry: u64,
        now: u64,
    ) -> Result<Move, NoMemory>
        ensures { IfOk result (λ made. made ≡ falls_due self.now (record { noted = kept.noted; asked = kept.asked; stage = Catching through (Some (Filling position proposal)) }) retry now) }
    {
        match self.site(alloc, &kept.asked, position) {
            Ok(site) => {
                let round = proposal.due(alloc, &site, retry, now)?;
                Ok(kept.filled(through, position, round))
            }
            Err(refused) => {
                drop(kept);
                drop(proposal);
                Err(refused)
            }
        }
    }
}

impl Reading {
    /// What is due at a tick: a poll asks those again that have not answered, a fetch gives way to a no-op, and its
    /// round goes on.
    pub fn falls_due(
        self,
        alloc: Global,
        who: &Reader,
        retry: u64,
        now: u64,
    ) -> Result<Move, NoMemory>
        ensures { IfOk result (λ made. made ≡ falls_due who.now self retry now) }
    {
        let Reading {
            noted,
            asked,
            stage,
        } = self;
        let kept = ReadBase { noted, asked };
        match stage {
            Stage::Polling { heard, best, sent } => {
                who.polling_due(alloc, kept, heard, best, sent, retry, now)
            }
            Stage::Catching {
                through,
                search: None,
            } => Ok(kept.at(
                Stage::Catching {
                    through,
                    search: None,
                },
                Items::new(alloc),
            )),
            Stage::Catching {
                through,
                search: Some(
                    Search::Fetching {
                        position,
                        denied,
                        sent,
                    },
                ),
            } => who.fetching_due(alloc, kept, through, position, denied, sent, retry, now),
            Stage::Catching {
                through,
                search: Some(Search::Filling { position, proposal }),
            } => who.filling_due(alloc, kept, through, position, proposal, retry, now),
        }
    }

    /// The entry that the read's round settled, and where.
    pub fn read_settled(&self) -> Option<(u64, &Entry)>
        ensures { option_map (λ found. (found.0, found.1.now)) result ≡ read_settled self.now }
    {
        match &self.stage {
            Stage::Catching {
                search: Some(Search::Filling { position, proposal }),
                ..
            } => match proposal.settled() {
                Some(entry) => Some((*position, entry)),
                None => None,
            },
            _ => None,
        }
    }

    /// The position through which the read reads, once it has it.
    pub fn through_of(&self) -> Option<u64>
        ensures { result ≡ through_of self.now }
    {
        match &self.stage {
            Stage::Catching { through, .. } => Some(*through),
            Stage::Polling { .. } => None,
        }
    }

    /// The nodes about which the read asked the cells, with those of its present round.
    pub fn asked_by(&self, alloc: Global) -> Result<Items<u8>, NoMemory>
        ensures { IfOk result (λ nodes. nodes ≡ asked_by self.now) }
    {
        let asked = self.asked.copy(alloc)?;
        match &self.stage {
            Stage::Polling { .. } => Ok(asked),
            Stage::Catching { search, .. } => joined(alloc, asked, search_told(search)),
        }
    }

    /// The read that turns to the least position that its node has not decided, where it does not complete that one
    /// already.
    pub fn seeks(self, alloc: Global, who: &Reader, least: u64, now: u64) -> Result<Move, NoMemory>
        ensures { IfOk result (λ made. made ≡ seeks who.now self least now) }
    {
        let Reading {
            noted,
            asked,
            stage,
        } = self;
        match stage {
            Stage::Polling { heard, best, sent } => {
                let stage = Stage::Polling { heard, best, sent };
                Ok(ReadBase { noted, asked }.at(stage, Items::new(alloc)))
            }
            Stage::Catching { through, search } => {
                if is_searched(least, &search) {
                    let stage = Stage::Catching { through, search };
                    return Ok(ReadBase { noted, asked }.at(stage, Items::new(alloc)));
                }
                match joined(alloc, asked, search_told(&search)) {
                    Ok(asked) => {
                        drop(search);
                        who.fetches(alloc, ReadBase { noted, asked }, through, least, now)
                    }
                    Err(refused) => {
                        drop(search);
                        Err(refused)
                    }
                }
            }
        }
    }
}
