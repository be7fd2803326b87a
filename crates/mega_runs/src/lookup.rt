//! Finds a version in a run on the device, by one read of it.
ghost use Rattle.std.specs.Prelude.{◌≡◌, ◌+◌, ◌≤◌, ◌++◌, ◌⊎◌, ◌↔◌, ℕ, List, if◌then◌else◌, true, length, All, Some, None, Err, IfOk, IfSome, OnOk, OnErr};
ghost use Rattle.std.specs.Option.{option_map};
ghost use Rattle.mega_base.specs.Causes.{Rose};
ghost use Rattle.mega_base.specs.Codec.{number_text};
ghost use Rattle.mega_disk.specs.Images.{Within, LeavesOnly};
ghost use Rattle.mega_disk.specs.Fuse.{LowersBy, MayBurn, Burns};
ghost use Rattle.mega_runs.specs.declared.body.Version.{Version as SomeVersion};
ghost use Rattle.mega_runs.specs.Bodies.{IsVersion, ascends};
ghost use Rattle.mega_runs.specs.Finding.{found_in};
ghost use Rattle.mega_runs.specs.Index.{IsIndexed, HasBlock, has_index, versions_text};
ghost use Rattle.mega_runs.specs.Ranges.{AgreeWithin, HasSpan};
ghost use Rattle.mega_runs.specs.Reads.{versions_in};

use crate::body::{Version, VersionList};
use crate::coding::is_in_order;
use crate::index::{Block, Indexed};
use crate::reading::read_bytes;
use crate::search::{found, place_of};
use crate::span::{Span, span_within};
use mega_base::{Bytes, Copied, FieldFault, Items, NoMemory, Position, Row, decode, put_u32};
use mega_disk::{Disk, DiskError, StoreError};
use std::alloc::Global;

/// A position, and the row or none that a key has from there on.
pub(crate) type Seen = Option<(u64, Option<Row>)>;

/// What the run has of a key at a position: its version of greatest position up to this one.
pub(crate) fn found_in_run<D: Disk>(
    alloc: Global,
    disk: &mut D,
    run: &Indexed,
    key: &Bytes,
    at: Position,
) -> Result<Seen, StoreError>
    requires indexed { D.is_told ≡ true → (end : ℕ) × has_index (D.seen disk.old) end run.now }
    ensures value { D.is_told ≡ true → (end : ℕ) (versions : List SomeVersion) → IsIndexed (D.seen disk.old) end versions run.now → IfOk result (λ seen. seen ≡ found_in key.now at.0 versions) }
    ensures never_bad { D.is_told ≡ true → (n : ℕ) → result ≡ Err (StoreError.BadRecord n) → ⊥ }
    ensures never_full { (n : ℕ) → result ≡ Err (StoreError.Full n) → ⊥ }
    ensures seen { OnOk result (D.seen disk.new ≡ D.seen disk.old) }
    ensures within { Within (D.may_leave disk.old) (D.may_leave disk.new) }
    ensures any_moment { LeavesOnly D.moment D.left_since disk.old disk.new (D.may_leave disk.old) }
    ensures cause { result ≡ Err StoreError.DiskFault → Rose (D.faults disk.old) (D.faults disk.new) }
    ensures later { D.faults disk.old ≤ D.faults disk.new }
    ensures lowers { OnOk result (LowersBy 0 (D.fuse_left disk.old) (D.fuse_left disk.new)) }
    ensures may_burn { MayBurn (D.fuse_left disk.old) (D.fuse_left disk.new) }
    ensures burns { D.fails_by_fuse disk.old ≡ true → result ≡ Err StoreError.DiskFault → Burns (D.fuse_left disk.old) (D.fuse_left disk.new) }
    ensures by_fuse { D.fails_by_fuse disk.old ≡ true → D.fails_by_fuse disk.new ≡ true }
{
    let place = place_of(run.blocks.as_slice(), key, at);
    if place == 0 {
        return Ok(None);
    }
    match run.blocks.get(place - 1) {
        Some(block) => found_in_block(alloc, disk, block, run.number, key, at),
        None => Ok(None),
    }
}

/// The same among the versions of a block, which it reads.
fn found_in_block<D: Disk>(
    alloc: Global,
    disk: &mut D,
    block: &Block,
    number: u64,
    key: &Bytes,
    at: Position,
) -> Result<Seen, StoreError>
    requires within { D.is_told ≡ true → block.now.start + block.now.size ≤ length (D.seen disk.old) }
    requires has { D.is_told ≡ true → (versions : List SomeVersion) × HasBlock (D.seen disk.old) versions block.now }
    ensures value { D.is_told ≡ true → (versions : List SomeVersion) → HasBlock (D.seen disk.old) versions block.now → IfOk result (λ seen. seen ≡ found_in key.now at.0 versions) }
    ensures never_bad { D.is_told ≡ true → (n : ℕ) → result ≡ Err (StoreError.BadRecord n) → ⊥ }
    ensures never_full { (n : ℕ) → result ≡ Err (StoreError.Full n) → ⊥ }
    ensures seen { OnOk result (D.seen disk.new ≡ D.seen disk.old) }
    ensures within { Within (D.may_leave disk.old) (D.may_leave disk.new) }
    ensures any_moment { LeavesOnly D.moment D.left_since disk.old disk.new (D.may_leave disk.old) }
    ensures cause { result ≡ Err StoreError.DiskFault → Rose (D.faults disk.old) (D.faults disk.new) }
    ensures later { D.faults disk.old ≤ D.faults disk.new }
    ensures lowers { OnOk result (LowersBy 0 (D.fuse_left disk.old) (D.fuse_left disk.new)) }
    ensures may_burn { MayBurn (D.fuse_left disk.old) (D.fuse_left disk.new) }
    ensures burns { D.fails_by_fuse disk.old ≡ true → result ≡ Err StoreError.DiskFault → Burns (D.fuse_left disk.old) (D.fuse_left disk.new) }
    ensures by_fuse { D.fails_by_fuse disk.old ≡ true → D.fails_by_fuse disk.new ≡ true }
{
    let bytes = match read_bytes(alloc, disk, block.start, block.size as usize) {
        Ok(bytes) => bytes,
        Err(error) => return Err(refusal(error)),
    };
    match versions_of(alloc, bytes.as_slice(), block.count) {
        Ok(Some(versions)) => copy_of(alloc, found(versions.as_slice(), key, at)),
        Ok(None) => Err(StoreError::BadRecord { number }),
        Err(NoMemory) => Err(StoreError::NoMemory),
    }
}

/// The versions of the run.
pub(crate) fn versions_of_run<D: Disk>(
    alloc: Global,
    disk: &mut D,
    run: &Indexed,
) -> Result<Items<Version>, StoreError>
    requires indexed { D.is_told ≡ true → (end : ℕ) × has_index (D.seen disk.old) end run.now }
    ensures value { D.is_told ≡ true → (end : ℕ) (versions : List SomeVersion) → IsIndexed (D.seen disk.old) end versions run.now → IfOk result (λ found. found ≡ versions) }
    ensures in_order { IfOk result (λ versions. ascends versions ≡ true) }
    ensures never_bad { D.is_told ≡ true → (n : ℕ) → result ≡ Err (StoreError.BadRecord n) → ⊥ }
    ensures never_full { (n : ℕ) → result ≡ Err (StoreError.Full n) → ⊥ }
    ensures seen { OnOk result (D.seen disk.new ≡ D.seen disk.old) }
    ensures within { Within (D.may_leave disk.old) (D.may_leave disk.new) }
    ensures any_moment { LeavesOnly D.moment D.left_since disk.old disk.new (D.may_leave disk.old) }
    ensures cause { result ≡ Err StoreError.DiskFault → Rose (D.faults disk.old) (D.faults disk.new) }
    ensures later { D.faults disk.old ≤ D.faults disk.new }
    ensures lowers { OnOk result (LowersBy 0 (D.fuse_left disk.old) (D.fuse_left disk.new)) }
    ensures may_burn { MayBurn (D.fuse_left disk.old) (D.fuse_left disk.new) }
    ensures burns { D.fails_by_fuse disk.old ≡ true → result ≡ Err StoreError.DiskFault → Burns (D.fuse_left disk.old) (D.fuse_left disk.new) }
    ensures by_fuse { D.fails_by_fuse disk.old ≡ true → D.fails_by_fuse disk.new ≡ true }
{
    let bytes = match read_bytes(alloc, disk, run.start, run.size as usize) {
        Ok(bytes) => bytes,
        Err(error) => return Err(refusal(error)),
    };
    match versions_of(alloc, bytes.as_slice(), run.count) {
        Ok(Some(versions)) => Ok(versions),
        Ok(None) => Err(StoreError::BadRecord { number: run.number }),
        Err(NoMemory) => Err(StoreError::NoMemory),
    }
}

/// Versions of the run, among which are all of the keys from `from` on and before `to`, by one read at most.
pub(crate) fn versions_around<D: Disk>(
    alloc: Global,
    disk: &mut D,
    run: &Indexed,
    from: &Bytes,
    to: &Bytes,
) -> Result<Items<Version>, StoreError>
    requires indexed { D.is_told ≡ true → (end : ℕ) × has_index (D.seen disk.old) end run.now }
    ensures value { D.is_told ≡ true → (end : ℕ) (versions : List SomeVersion) → IsIndexed (D.seen disk.old) end versions run.now → IfOk result (λ found. AgreeWithin from.now to.now (versions_in found) (versions_in versions)) }
    ensures in_order { IfOk result (λ versions. ascends versions ≡ true) }
    ensures never_bad { D.is_told ≡ true → (n : ℕ) → result ≡ Err (StoreError.BadRecord n) → ⊥ }
    ensures never_full { (n : ℕ) → result ≡ Err (StoreError.Full n) → ⊥ }
    ensures seen { OnOk result (D.seen disk.new ≡ D.seen disk.old) }
    ensures within { Within (D.may_leave disk.old) (D.may_leave disk.new) }
    ensures any_moment { LeavesOnly D.moment D.left_since disk.old disk.new (D.may_leave disk.old) }
    ensures cause { result ≡ Err StoreError.DiskFault → Rose (D.faults disk.old) (D.faults disk.new) }
    ensures later { D.faults disk.old ≤ D.faults disk.new }
    ensures lowers { OnOk result (LowersBy 0 (D.fuse_left disk.old) (D.fuse_left disk.new)) }
    ensures may_burn { MayBurn (D.fuse_left disk.old) (D.fuse_left disk.new) }
    ensures burns { D.fails_by_fuse disk.old ≡ true → result ≡ Err StoreError.DiskFault → Burns (D.fuse_left disk.old) (D.fuse_left disk.new) }
    ensures by_fuse { D.fails_by_fuse disk.old ≡ true → D.fails_by_fuse disk.new ≡ true }
{
    match span_within(run, from, to) {
        Some(span) => {
            let versions = read_span(alloc, disk, &span, run.number)?;
            Ok(versions)
        }
        None => Ok(Items::new(alloc)),
    }
}

/// The versions of a span of the run of this number.
fn read_span<D: Disk>(
    alloc: Global,
    disk: &mut D,
    span: &Span,
    number: u64,
) -> Result<Items<Version>, StoreError>
    requires has { D.is_told ≡ true → (versions : List SomeVersion) × HasSpan (D.seen disk.old) versions span.now }
    ensures value { D.is_told ≡ true → (versions : List SomeVersion) → HasSpan (D.seen disk.old) versions span.now → IfOk result (λ found. found ≡ versions) }
    ensures in_order { IfOk result (λ versions. ascends versions ≡ true) }
    ensures never_bad { D.is_told ≡ true → (n : ℕ) → result ≡ Err (StoreError.BadRecord n) → ⊥ }
    ensures never_full { (n : ℕ) → result ≡ Err (StoreError.Full n) → ⊥ }
    ensures seen { OnOk result (D.seen disk.new ≡ D.seen disk.old) }
    ensures within { Within (D.may_leave disk.old) (D.may_leave disk.new) }
    ensures any_moment { LeavesOnly D.moment D.left_since disk.old disk.new (D.may_leave disk.old) }
    ensures cause { result ≡ Err StoreError.DiskFault → Rose (D.faults disk.old) (D.faults disk.new) }
    ensures later { D.faults disk.old ≤ D.faults disk.new }
    ensures lowers { OnOk result (LowersBy 0 (D.fuse_left disk.old) (D.fuse_left disk.new)) }
    ensures may_burn { MayBurn (D.fuse_left disk.old) (D.fuse_left disk.new) }
    ensures burns { D.fails_by_fuse disk.old ≡ true → result ≡ Err StoreError.DiskFault → Burns (D.fuse_left disk.old) (D.fuse_left disk.new) }
    ensures by_fuse { D.fails_by_fuse disk.old ≡ true → D.fails_by_fuse disk.new ≡ true }
{
    let bytes = match read_bytes(alloc, disk, span.start, span.size as usize) {
        Ok(bytes) => bytes,
        Err(error) => return Err(refusal(error)),
    };
    match versions_of(alloc, bytes.as_slice(), span.count) {
        Ok(Some(versions)) => Ok(versions),
        Ok(None) => Err(StoreError::BadRecord { number }),
        Err(NoMemory) => Err(StoreError::NoMemory),
    }
}

/// So many versions, in order, that the bytes spell, or none where they spell none.
fn versions_of(alloc: Global, bytes: &[u8], count: u32) -> Result<Option<Items<Version>>, NoMemory>
    ensures value { (versions : List SomeVersion) → All IsVersion versions → ascends versions ≡ true → count ≡ length versions → bytes.now ≡ versions_text versions → IfOk result (λ found. found ≡ Some versions) }
    ensures in_order { IfOk result (λ found. IfSome found (λ versions. ascends versions ≡ true)) }
{
    let text = counted(alloc, bytes, count)?;
    match decode::<VersionList>(alloc, text.as_slice()) {
        Ok(list) => Ok(if_in_order(list.versions)),
        Err(FieldFault::Malformed { .. }) => Ok(None),
        Err(FieldFault::NoMemory) => Err(NoMemory),
    }
}

/// The versions, where they are in order.
fn if_in_order(versions: Items<Version>) -> Option<Items<Version>>
    ensures { result ≡ (if ascends versions then Some versions else None) }
{
    if is_in_order(versions.as_slice()) {
        Some(versions)
    } else {
        None
    }
}

/// The bytes behind a count.
fn counted(alloc: Global, bytes: &[u8], count: u32) -> Result<Bytes, NoMemory>
    ensures { IfOk result (λ text. text ≡ number_text 4 count ++ bytes.now) }
{
    let mut text = Bytes::new(alloc);
    put_u32(&mut text, count)?;
    text.extend_from_slice(bytes)?;
    Ok(text)
}

/// A copy of the position and the row of a version.
pub(crate) fn copy_of(alloc: Global, version: Option<&Version>) -> Result<Seen, StoreError>
    ensures value { IfOk result (λ seen. seen ≡ option_map (λ v. (v.now.at.0, v.now.row)) version.entry) }
    ensures memory { OnErr result (result ≡ Err StoreError.NoMemory) }
{
    match version {
        Some(
            Version {
                at,
                row: Some(row),
                ..
            },
        ) => Ok(Some((at.0, Some(row.copy(alloc)?)))),
        Some(Version { at, row: None, .. }) => Ok(Some((at.0, None))),
        None => Ok(None),
    }
}

/// What a store answers where its device refused a call.
pub(crate) fn refusal(error: DiskError) -> StoreError
    ensures fault { (result ≡ StoreError.DiskFault) ↔ (error ≡ DiskError.Failed) }
    ensures kinds { (result ≡ StoreError.DiskFault) ⊎ (result ≡ StoreError.NoMemory) }
{
    match error {
        DiskError::Failed => StoreError::DiskFault,
        DiskError::NoMemory => StoreError::NoMemory,
    }
}
