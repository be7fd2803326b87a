//! Reads a file of areas: how many pages it has, and the bytes and records of an area.
ghost use Rattle.std.specs.Prelude.{◌≡◌, ◌==◌, not, get_or, ◌+◌, ◌*◌, ◌<◌, ◌≤◌, ◌^◌, length, IfOk};
ghost use Rattle.mega_journal.specs.Chain.{records_of};
ghost use Rattle.mega_journal.specs.Rest.{IsRead};
ghost use Rattle.mega_areas.specs.Pages.{chain_in, length_of_pages, pages_in, space};

use mega_areas::{Area, PAGE};
use mega_base::{Bytes, NoMemory};
use mega_journal::parse;
use std::alloc::Global;

/// Of how many pages each area has a whole one.
#[tactic(auto, using(crate::proofs::Fronts::pages_parted))]
pub(crate) fn pages_in(bytes: &[u8]) -> u64
    requires { 12288 ≤ length bytes.now }
    ensures pages { result ≡ pages_in (length bytes.now) }
    ensures within { length_of_pages result ≤ length bytes.now }
    ensures some { 1 ≤ result }
    ensures small { result < 2 ^ 50 }
{
    (bytes.len() as u64 - PAGE) / (2 * PAGE)
}

/// Whether the gate there is closed.
pub(crate) fn is_shut(bytes: &[u8], end: usize) -> bool
    requires { end < length bytes.now }
    ensures { result ≡ not (get_or bytes.now end 1 == 1) }
{
    bytes[end] != 1
}

/// The bytes of the area's pages, joined.
pub(crate) fn space(alloc: Global, bytes: &[u8], area: Area) -> Result<Vec<u8>, NoMemory>
    requires { 12288 ≤ length bytes.now }
    ensures { IfOk result (λ joined. joined.items ≡ space area bytes.now) }
{
    let pages = pages_in(bytes);
    let mut joined = Vec::new(alloc);
    let mut page = 0;
    while page < pages {
        let at = (PAGE * (2 * page + area.first_page())) as usize;
        joined.extend_from_slice(&bytes[at..at + PAGE as usize])?;
        page += 1;
    }
    Ok(joined)
}

/// The records of an area, the place of the gate behind them, and whether it is closed.
#[derive(Drop)]
pub(crate) struct AreaRecords {
    pub records: Vec<Bytes>,
    pub end: usize,
    pub closed: bool,
}

/// Reads the records of an area.
pub(crate) fn read_area(alloc: Global, bytes: &[u8], area: Area) -> Result<AreaRecords, NoMemory>
    requires { 12288 ≤ length bytes.now }
    ensures records { IfOk result (λ read. read.records.items ≡ records_of (chain_in area bytes.now)) }
    ensures read { IfOk result (λ read. IsRead (chain_in area bytes.now) read.end) }
    ensures inside { IfOk result (λ read. read.end + 9 < 4096 * pages_in (length bytes.now)) }
    ensures closed { IfOk result (λ read. read.closed ≡ not (get_or (chain_in area bytes.now) read.end 1 == 1)) }
    ensures few { IfOk result (λ read. length read.records.items ≤ read.end) }
{
    let joined = space(alloc, bytes, area)?;
    let chain = &joined.as_slice()[9..];
    let found = parse(alloc, chain)?;
    let closed = is_shut(chain, found.end);
    Ok(AreaRecords {
        records: found.records,
        end: found.end,
        closed,
    })
}
