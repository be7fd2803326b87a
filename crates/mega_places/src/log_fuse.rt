//! The fuse on the log of a node, as a world keeps it beside the node.
ghost use Rattle.std.specs.Prelude.{◌≡◌};
ghost use Rattle.mega_promises.specs.Runs.{after_append, is_kept, left_by};
ghost use Rattle.mega_places.specs.LogFuses.{HasRoom, run_fuse};

/// A fuse on the log of a node: the calls after which it burns, what it makes of the writes that are pending then, and the
/// records appended since it was set.
#[derive(Clone, Copy, Drop)]
pub struct LogFuse {
    pub calls: u64,
    pub image: u8,
    pub appended: u64,
}

/// A fuse, if one is set, after one append more.
pub(crate) fn after_append(fuse: Option<LogFuse>) -> Option<LogFuse>
    ensures { HasRoom (run_fuse fuse) → run_fuse result ≡ after_append (run_fuse fuse) }
{
    match fuse {
        Some(fuse) => Some(LogFuse {
            calls: fuse.calls,
            image: fuse.image,
            appended: fuse.appended.saturating_add(1),
        }),
        None => None,
    }
}

/// Whether the append in which a fuse burns is kept: its gate was the last call that went well, and the image keeps what is
/// pending.
pub(crate) fn keeps_record(fuse: Option<LogFuse>) -> bool
    ensures { result ≡ is_kept (left_by (run_fuse fuse)) }
{
    match fuse {
        Some(fuse) => { fuse.calls / 4 == fuse.appended && fuse.calls % 4 == 3 && fuse.image == 1 }
        None => false,
    }
}
