//! A node starts over what it left.
ghost use Rattle.std.specs.Prelude.{◌≡◌, ℕ, List, [], true, IfErr, IfOk, Err};
ghost use Rattle.mega_cluster.specs.declared.cluster.Cluster.{Cluster as ClusterValue};
ghost use Rattle.mega_durable.specs.of_core.Served.{IsServed};
ghost use Rattle.mega_disk.specs.MemDisk.{fuse_of, image_of};
ghost use Rattle.mega_rules.specs.Members.{is_node};
ghost use Rattle.mega_rules.specs.Met.{Met};
ghost use Rattle.mega_voter.specs.Holding.{HoldsMet};
ghost use Rattle.mega_places.specs.declared.fallen.Fallen.{Fallen as FallenValue};
ghost use Rattle.mega_places.specs.declared.starting.NotBegun.TheVariants.{Cut as CutOff, Limit};
ghost use Rattle.mega_places.specs.Kept.{AreReady, IsReady, records_below};
ghost use Rattle.mega_places.specs.Starting.{AtEachFallen, AtEachOpened, BeginsSo, FallsAgain, IsStartable};

use crate::fallen::Fallen;
use crate::log_fuse::{LogFuse, after_append};
use crate::member::Member;
use crate::remains::Remains;
use mega_base::{Items, NoMemory};
use mega_cluster::Cluster;
use mega_disk::MemRecords;
use mega_durable::mega_core::mega_step_parts::Note;
use mega_durable::{Cut, Down, NotStarted, Started, Up};
use mega_rows::VersionedRows;
use mega_verdicts::CutAt;
use mega_voter::Voter;
use std::alloc::Global;

/// A node that started: the number of the start, what it owed, and what it shows after that.
#[derive(Drop)]
pub struct Begun {
    pub member: Member,
    pub start: u32,
    pub owed: Option<Cut>,
    pub notes: Items<Note>,
}

/// Why a node did not start.
#[derive(Drop)]
pub enum NotBegun {
    /// Its log's fuse cut the start off; it is down as this.
    Cut(Fallen),
    /// It started 4,294,967,295 times.
    Limit,
    /// An allocation was refused.
    NoMemory,
}

/// The node over the logs that these records hold, which are opened again, and rows that hold nothing.
fn anew(alloc: Global, records: MemRecords) -> Result<Down<MemRecords, VersionedRows>, NoMemory>
    ensures stands { IfOk result (λ down. (c : ClusterValue) (me starts : ℕ) (met : List Met) → HoldsMet records.list.items starts met → IsReady c me down starts met) }
    ensures list { IfOk result (λ down. down.voter.logs.records.list.items ≡ records.list.items) }
    ensures fuse { IfOk result (λ down. fuse_of down.voter.logs.records.fuse ≡ fuse_of records.fuse) }
    ensures image { IfOk result (λ down. image_of down.voter.logs.records.fuse ≡ image_of records.fuse) }
{
    let mut records = records;
    records.reopen()?;
    match Voter::open(alloc, records) {
        Ok(voter) => Ok(Down::new(alloc, voter, VersionedRows::new(alloc))),
        Err(_refused) => Err(NoMemory),
    }
}

/// The node over what is left of it: as it stands in memory, or opened again.
fn opened(alloc: Global, remains: Remains) -> Result<Down<MemRecords, VersionedRows>, NoMemory>
    ensures stands { IfOk result (λ down. (c : ClusterValue) (me starts : ℕ) (met : List Met) → HoldsMet (records_below remains).list.items starts met → AreReady c me remains starts met → IsReady c me down starts met) }
    ensures list { IfOk result (λ down. down.voter.logs.records.list.items ≡ (records_below remains).list.items) }
    ensures fuse { IfOk result (λ down. fuse_of down.voter.logs.records.fuse ≡ fuse_of (records_below remains).fuse) }
    ensures image { IfOk result (λ down. image_of down.voter.logs.records.fuse ≡ image_of (records_below remains).fuse) }
{
    match remains {
        Remains::InMemory(down) => Ok(down),
        Remains::OnDisk(records) => match anew(alloc, records) {
            Ok(down) => Ok(down),
            Err(refused) => Err(refused),
        },
    }
}

/// The node of this number of a cluster starts over logs and rows in memory.
fn started(
    alloc: Global,
    cluster: Cluster,
    me: u8,
    down: Down<MemRecords, VersionedRows>,
    fuse: Option<LogFuse>,
    owed: Option<Cut>,
) -> Result<Begun, NotBegun>
    requires served { IsServed cluster }
    requires member { is_node cluster me ≡ true }
    requires flushed { down.voter.logs.staged.items ≡ [] }
    ensures begun { IfOk result (λ begun. AtEachOpened cluster me down fuse (λ starts owed_met met run. BeginsSo cluster me starts owed_met met run owed begun)) }
    ensures cut { IfErr result (λ refused. (fallen : FallenValue) → refused ≡ CutOff fallen → AtEachOpened cluster me down fuse (λ starts owed_met met run. FallsAgain starts owed_met met run owed fallen)) }
    ensures limit { result ≡ Err Limit → AtEachOpened cluster me down fuse (λ starts owed_met met run. starts ≡ 4294967295) }
{
    match Up::start(alloc, cluster, me, down) {
        Ok(Started { up, start, notes }) => Ok(Begun {
            member: Member {
                up,
                fuse: after_append(fuse),
            },
            start,
            owed,
            notes,
        }),
        Err(NotStarted::Cut { records }) => Err(NotBegun::Cut(Fallen {
            remains: Remains::OnDisk(records),
            fuse: None,
            owed: CutAt::Start { owed }.owes(),
        })),
        Err(NotStarted::StartsFull { records: _records }) => Err(NotBegun::Limit),
        Err(
            NotStarted::Log {
                fault: _fault,
                records: _records,
            },
        ) => Err(NotBegun::NoMemory),
        Err(NotStarted::NoMemory) => Err(NotBegun::NoMemory),
    }
}

impl Fallen {
    /// The node of this number of a cluster starts over what it left.
    pub fn start(self, alloc: Global, cluster: Cluster, me: u8) -> Result<Begun, NotBegun>
        requires served { IsServed cluster }
        requires member { is_node cluster me ≡ true }
        requires known { IsStartable cluster me self }
        ensures begun { IfOk result (λ begun. AtEachFallen cluster me self (λ starts owed met fuse. BeginsSo cluster me starts owed met fuse self.owed begun)) }
        ensures cut { IfErr result (λ refused. (fallen : FallenValue) → refused ≡ CutOff fallen → AtEachFallen cluster me self (λ starts owed met fuse. FallsAgain starts owed met fuse self.owed fallen)) }
        ensures limit { result ≡ Err Limit → AtEachFallen cluster me self (λ starts owed met fuse. starts ≡ 4294967295) }
    {
        let Fallen {
            remains,
            fuse,
            owed,
        } = self;
        match opened(alloc, remains) {
            Ok(down) => match started(alloc, cluster, me, down, fuse, owed) {
                Ok(begun) => Ok(begun),
                Err(refused) => Err(refused),
            },
            Err(_refused) => Err(NotBegun::NoMemory),
        }
    }
}
