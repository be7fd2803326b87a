//! A fuse that lets a device make so many calls more, and then fail.
ghost use Rattle.std.specs.Prelude.{◌≡◌, ◌+◌, ◌≤◌, ◌==◌, ◌↔◌, true, false, IsSome, IfSome, None};
ghost use Rattle.mega_disk.specs.Fuse.{Left, LowersBy, Burns, Unset, after_append, after_call, is_short, keeps_record};
ghost use Rattle.mega_disk.specs.MemDisk.{fuse_of, image_of};
ghost use Rattle.mega_disk.specs.Meters.{one_more};

/// A fuse: the calls that it has left, and what a crash then leaves of pending writes.
#[derive(Clone, Copy)]
pub(crate) struct SetFuse {
    pub calls: u64,
    pub image: u8,
}

/// Counts one call of the fuse. Where it has none left it burns, and tells the image.
pub(crate) fn spend(fuse: &mut Option<SetFuse>) -> Option<u8>
    ensures burns { IsSome result ↔ (fuse_of fuse.old ≡ Left 0) }
    ensures image { IfSome result (λ image. IfSome fuse.old (λ set. image ≡ set.image)) }
    ensures lowers { fuse_of fuse.new ≡ after_call (fuse_of fuse.old) }
{
    match fuse {
        Some(set) if set.calls > 0 => {
            set.calls -= 1;
            None
        }
        Some(set) => {
            let image = set.image;
            *fuse = None;
            Some(image)
        }
        None => None,
    }
}

/// Counts one call, and tells whether it has the number that is to fail.
pub(crate) fn count(calls: &mut u64, failing: u64) -> bool
    ensures named { result ≡ (failing == calls.old + 1) }
    ensures later { calls.old ≤ calls.new }
    ensures counted { calls.new ≡ one_more calls.old }
{
    match calls.checked_add(1) {
        Some(number) => {
            *calls = number;
            failing == number
        }
        None => false,
    }
}

/// Counts the four calls of an append. Where fewer are left the fuse burns in it, and it is told whether the record is kept all
/// the same.
pub(crate) fn spend_append(fuse: &mut Option<SetFuse>) -> Option<bool>
    ensures lowered { result ≡ None → fuse_of fuse.new ≡ after_append (fuse_of fuse.old) }
    ensures lowers { result ≡ None → LowersBy 4 (fuse_of fuse.old) (fuse_of fuse.new) }
    ensures image { result ≡ None → image_of fuse.new ≡ image_of fuse.old }
    ensures enough { result ≡ None → is_short (fuse_of fuse.old) ≡ false }
    ensures short { IfSome result (λ kept. is_short (fuse_of fuse.old) ≡ true) }
    ensures burnt { IfSome result (λ kept. fuse_of fuse.new ≡ Unset) }
    ensures burns { IfSome result (λ kept. Burns (fuse_of fuse.old) (fuse_of fuse.new)) }
    ensures kept { IfSome result (λ kept. kept ≡ keeps_record (fuse_of fuse.old) (image_of fuse.old)) }
{
    match fuse {
        Some(set) if set.calls >= 4 => {
            set.calls -= 4;
            None
        }
        Some(set) => {
            let kept = set.calls == 3 && set.image == 1;
            *fuse = None;
            Some(kept)
        }
        None => None,
    }
}
