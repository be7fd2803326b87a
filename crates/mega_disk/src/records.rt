//! A list of byte records that outlives crashes, and why such a list refuses a call.
ghost use Rattle.std.specs.Prelude.{◌≡◌, ◌⊎◌, ◌≤◌, ◌<◌, ◌+◌, ◌^◌, ◌↔◌, ◌++◌, ◌∷◌, [], List, ℕ, Bool, true, false, length, IfOk, OnOk, OnErr};
ghost use Rattle.mega_base.specs.Causes.{Rose};
ghost use Rattle.mega_disk.specs.Images.{Only, LeavesOnly, SameImages};
ghost use Rattle.mega_disk.specs.Fuse.{Fuse, LowersBy, MayBurn, Burns, Unset, after_append, appended_by, is_short, set_to};
ghost use Rattle.mega_disk.specs.RecordLists.{IsBeforeOrAfter, IsOldOrReplaced};

use mega_base::{Bytes, NoMemory};
use std::alloc::Global;

/// Why a list of records refused a call.
#[derive(Clone, Copy, PartialEq, Eq, Debug, Drop)]
pub enum RecordError {
    /// The device failed, and its count of faults rose.
    DiskFault,
    /// The file would have this many bytes, more than 2^40.
    Full { length: u64 },
    /// A call since the opening was refused for another cause than `Full`: open the store again.
    Spent,
    /// An allocation was refused.
    NoMemory,
}

impl From<NoMemory> for RecordError {
    ghost use Rattle.mega_disk.specs.declared.records.RecordError.TheVariants.{NoMemory as OutOfMemory};

    ghost from_gives = { λ _ e. e ≡ OutOfMemory };

    fn from(_refused: NoMemory) -> RecordError {
        RecordError::NoMemory
    }
}

/// A list of byte records that outlives crashes: after a crash at any moment of a call an opening finds
/// the list from before the call or from after it, and once the call was Ok only that from after it.
pub trait Records {
    /// Whether what lies below tells what it holds.
    ghost is_told: { Bool };

    /// The records of the list, the oldest first.
    ghost list: { Self → List (List ℕ) };

    /// The lists that an opening after a crash at this moment may find.
    ghost may_open: { Self → List (List ℕ) → Type 0 };

    /// The moment, as a number that never falls.
    ghost moment: { Self → ℕ };

    /// The lists that an opening after a crash at some moment from that one on might have found.
    ghost opened_since: { Self → ℕ → List (List ℕ) → Type 0 };

    /// How often the device has failed.
    ghost faults: { Self → ℕ };

    /// The calls of the device that a set fuse has left, where told.
    ghost fuse_left: { Self → Fuse };

    /// Whether nothing but its fuse makes the device fail.
    ghost fails_by_fuse: { Self → Bool };

    /// Whether such a list tells what a fuse makes of an append: it makes four calls, and nothing else that a list does makes one.
    ghost by_four: { Bool };

    /// What a set fuse makes of pending writes, where that is told.
    ghost fuse_image: { Self → ℕ };

    /// The number of records.
    ghost count_of: { Self → ℕ };

    /// The records found at the opening, until they are taken.
    ghost opened: { Self → List (List ℕ) };

    /// Whether a call since the opening was refused for another cause than `Full`.
    ghost is_spent: { Self → Bool };

    /// Whether the list is to be replaced.
    ghost is_due: { Self → Bool };

    /// The length that the file would have with a body of so many bytes appended.
    ghost length_with: { Self → ℕ → ℕ };

    /// The length that the file would have with a body of so many bytes in place of the list.
    ghost length_replaced: { Self → ℕ → ℕ };

    /// Appends a record. At Ok it is on the disk. After any refusal but `Full` the store answers `Spent`
    /// until it is opened again.
    fn append(&mut self, alloc: Global, body: &[u8]) -> Result<(), RecordError>
        requires { length body.now < 2 ^ 32 }
        ensures added { is_told ≡ true → OnOk result (list self.new ≡ list self.old ++ body.now ∷ []) }
        ensures any_moment { is_told ≡ true → is_spent self.old ≡ false → LeavesOnly moment opened_since self.old self.new (IsBeforeOrAfter (list self.old) body.now) }
        ensures counted { OnOk result (count_of self.new ≡ count_of self.old + 1) }
        ensures not_counted { OnErr result (count_of self.new ≡ count_of self.old) }
        ensures not_spent { OnOk result (is_spent self.new ≡ false) }
        ensures spent { (result ≡ Err RecordError.Spent) ↔ (is_spent self.old ≡ true) }
        ensures full { (n : ℕ) → result ≡ Err (RecordError.Full n) → (n ≡ length_with self.old (length body.now)) × (2 ^ 40 < n) }
        ensures passes { is_spent self.old ≡ false → 2 ^ 40 < length_with self.old (length body.now) → result ≡ Err (RecordError.Full (length_with self.old (length body.now))) }
        ensures unchanged { (n : ℕ) → result ≡ Err (RecordError.Full n) → self.new ≡ self.old }
        ensures idle { result ≡ Err RecordError.Spent → self.new ≡ self.old }
        ensures refused { OnErr result (((n : ℕ) × (result ≡ Err (RecordError.Full n))) ⊎ (is_spent self.new ≡ true)) }
        ensures cause { result ≡ Err RecordError.DiskFault → Rose (faults self.old) (faults self.new) }
        ensures later { faults self.old ≤ faults self.new }
        ensures lowers { OnOk result (LowersBy 4 (fuse_left self.old) (fuse_left self.new)) }
        ensures may_burn { MayBurn (fuse_left self.old) (fuse_left self.new) }
        ensures burns { fails_by_fuse self.old ≡ true → result ≡ Err RecordError.DiskFault → Burns (fuse_left self.old) (fuse_left self.new) }
        ensures by_fuse { fails_by_fuse self.old ≡ true → fails_by_fuse self.new ≡ true }
        ensures four { by_four ≡ true → OnOk result (fuse_left self.new ≡ after_append (fuse_left self.old)) }
        ensures image { by_four ≡ true → OnOk result (fuse_image self.new ≡ fuse_image self.old) }
        ensures enough { by_four ≡ true → OnOk result (is_short (fuse_left self.old) ≡ false) }
        ensures short { by_four ≡ true → result ≡ Err RecordError.DiskFault → is_short (fuse_left self.old) ≡ true }
        ensures burnt { by_four ≡ true → result ≡ Err RecordError.DiskFault → fuse_left self.new ≡ Unset }
        ensures kept { by_four ≡ true → result ≡ Err RecordError.DiskFault → list self.new ≡ appended_by (fuse_left self.old) (fuse_image self.old) (list self.old) body.now }
        ensures opened { opened self.new ≡ opened self.old };

    /// The number of records in the list.
    fn count(&self) -> u64
        ensures { result ≡ count_of self.now };

    /// The records that the opening found; the store keeps none of them in memory from then on.
    fn take_opened(&mut self) -> Vec<Bytes>
        ensures records { result.items ≡ opened self.old }
        ensures taken { opened self.new ≡ [] }
        ensures list { list self.new ≡ list self.old }
        ensures same { SameImages moment may_open opened_since self.old self.new }
        ensures count { count_of self.new ≡ count_of self.old }
        ensures spent { is_spent self.new ≡ is_spent self.old }
        ensures due { is_due self.new ≡ is_due self.old }
        ensures faults { faults self.new ≡ faults self.old }
        ensures fuse { fuse_left self.new ≡ fuse_left self.old }
        ensures image { fuse_image self.new ≡ fuse_image self.old }
        ensures by_fuse { fails_by_fuse self.new ≡ fails_by_fuse self.old };

    /// Sets a fuse on the device, as `Disk::fuse` does.
    fn fuse(&mut self, calls: u64, image: u8)
        ensures list { list self.new ≡ list self.old }
        ensures same { SameImages moment may_open opened_since self.old self.new }
        ensures count { count_of self.new ≡ count_of self.old }
        ensures opened { opened self.new ≡ opened self.old }
        ensures spent { is_spent self.new ≡ is_spent self.old }
        ensures due { is_due self.new ≡ is_due self.old }
        ensures faults { faults self.new ≡ faults self.old }
        ensures fuse { fuse_left self.new ≡ set_to calls (fuse_left self.old) }
        ensures image { by_four ≡ true → fuse_image self.new ≡ image }
        ensures by_fuse { fails_by_fuse self.new ≡ fails_by_fuse self.old };

    /// Whether the list is to be replaced by a shorter one.
    fn due(&self) -> bool
        ensures { result ≡ is_due self.now };

    /// Puts one record in place of the whole list, which is to be due. After any refusal but `Full` the
    /// store answers `Spent` until it is opened again. A list that is not due refuses with `Spent`, which
    /// leaves it as it was.
    fn replace(&mut self, alloc: Global, body: &[u8]) -> Result<(), RecordError>
        requires short { length body.now < 2 ^ 32 }
        ensures replaced { is_due self.old ≡ true → is_told ≡ true → OnOk result (list self.new ≡ body.now ∷ []) }
        ensures any_moment { is_due self.old ≡ true → is_told ≡ true → is_spent self.old ≡ false → LeavesOnly moment opened_since self.old self.new (IsOldOrReplaced (list self.old) body.now) }
        ensures counted { is_due self.old ≡ true → OnOk result (count_of self.new ≡ 1) }
        ensures not_counted { is_due self.old ≡ true → OnErr result (count_of self.new ≡ count_of self.old) }
        ensures not_spent { is_due self.old ≡ true → OnOk result (is_spent self.new ≡ false) }
        ensures spent { is_due self.old ≡ true → ((result ≡ Err RecordError.Spent) ↔ (is_spent self.old ≡ true)) }
        ensures full { (n : ℕ) → result ≡ Err (RecordError.Full n) → (n ≡ length_replaced self.old (length body.now)) × (2 ^ 40 < n) }
        ensures passes { is_due self.old ≡ true → is_spent self.old ≡ false → 2 ^ 40 < length_replaced self.old (length body.now) → result ≡ Err (RecordError.Full (length_replaced self.old (length body.now))) }
        ensures unchanged { (n : ℕ) → result ≡ Err (RecordError.Full n) → self.new ≡ self.old }
        ensures not_due { is_due self.old ≡ false → result ≡ Err RecordError.Spent }
        ensures idle { result ≡ Err RecordError.Spent → self.new ≡ self.old }
        ensures refused { is_due self.old ≡ true → OnErr result (((n : ℕ) × (result ≡ Err (RecordError.Full n))) ⊎ (is_spent self.new ≡ true)) }
        ensures cause { result ≡ Err RecordError.DiskFault → Rose (faults self.old) (faults self.new) }
        ensures later { faults self.old ≤ faults self.new }
        ensures may_burn { MayBurn (fuse_left self.old) (fuse_left self.new) }
        ensures burns { fails_by_fuse self.old ≡ true → result ≡ Err RecordError.DiskFault → Burns (fuse_left self.old) (fuse_left self.new) }
        ensures by_fuse { fails_by_fuse self.old ≡ true → fails_by_fuse self.new ≡ true }
        ensures opened { opened self.new ≡ opened self.old };

    /// A store that is not spent opens to its list after a crash.
    ghost only: { (store : Self) → is_told ≡ true → is_spent store ≡ false → Only (list store) (may_open store) };

    /// The count of a store that is not spent is that of its records.
    ghost counts: { (store : Self) → is_told ≡ true → is_spent store ≡ false → count_of store ≡ length (list store) };

    /// This moment is one of those since an earlier one.
    ghost counts_now: { (store : Self) (t : ℕ) (found : List (List ℕ)) → t ≤ moment store → may_open store found → opened_since store t found };

    /// Since this moment there is no other.
    ghost only_now: { (store : Self) (found : List (List ℕ)) → opened_since store (moment store) found → may_open store found };
}
