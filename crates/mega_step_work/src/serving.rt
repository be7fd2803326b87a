//! Which requests are served, and what each asks to look at.
ghost use Rattle.std.specs.Prelude.{◌≡◌};
ghost use Rattle.std.specs.Option.{option_copied};
ghost use Rattle.mega_rules.specs.Steps.{is_current};
ghost use Rattle.mega_step_work.specs.Servable.{group_asked, is_answered, is_at_once, is_indexed, is_plain, is_proposed, is_pump, is_served, mode_asked};

use mega_base::GroupId;
use mega_outcome::{Mode, Request};

/// Whether a request is one whose entry is proposed: a transaction, or a batch of at most 16.
pub fn is_proposed(request: &Request) -> bool
    ensures { result ≡ is_proposed request.now }
{
    match request {
        Request::Txn(_) => true,
        Request::Batch(_, txns) => txns.as_slice().len() <= 16,
        _ => false,
    }
}

/// The group of whose rows alone a request is to be answered, where it is one: a read, or a find in a group.
pub fn group_asked(request: &Request) -> Option<&GroupId>
    ensures { option_copied result ≡ group_asked request.now }
{
    match request {
        Request::Read(read) => Some(&read.group),
        Request::Find(find) => find.group.as_ref(),
        _ => None,
    }
}

/// The mode in which such a request looks at them.
pub fn mode_asked(request: &Request) -> Mode
    ensures { result ≡ mode_asked request.now }
{
    match request {
        Request::Read(read) => read.mode,
        Request::Find(find) => find.mode,
        _ => Mode::Current,
    }
}

/// Whether a request is answered by the rows of its group alone.
pub fn is_answered(request: &Request) -> bool
    ensures { result ≡ is_answered request.now }
{
    match group_asked(request) {
        Some(_) => true,
        None => false,
    }
}

/// Whether a request is answered by the node's global indexes, at once: a find in no group, or a refresh.
pub fn is_indexed(request: &Request) -> bool
    ensures { result ≡ is_indexed request.now }
{
    match request {
        Request::Find(find) => find.group.is_none(),
        Request::Refresh => true,
        _ => false,
    }
}

/// Whether a request is a pump.
pub fn is_pump(request: &Request) -> bool
    ensures { result ≡ is_pump request.now }
{
    match request {
        Request::PumpEnter => true,
        Request::PumpHandle => true,
        _ => false,
    }
}

/// Whether a request is served whose operation looks at one group alone: a transaction, a batch of at most 16, a read,
/// or a find in a group.
fn is_plain(request: &Request) -> bool
    ensures { result ≡ is_plain request.now }
{
    is_proposed(request) || is_answered(request)
}

/// Whether a request is served: a transaction, a batch of at most 16, a read, a find, a pump, or a refresh.
pub fn is_served(request: &Request) -> bool
    ensures { result ≡ is_served request.now }
{
    is_indexed(request) || (is_pump(request) || is_plain(request))
}

/// Whether a mode asks for current rows.
fn is_current(mode: Mode) -> bool
    ensures { result ≡ is_current mode }
{
    match mode {
        Mode::Current => true,
        Mode::Snapshot | Mode::Inconsistent => false,
    }
}

/// Whether such a request is answered at once, by the rows that are there.
pub fn is_at_once(request: &Request) -> bool
    ensures { result ≡ is_at_once request.now }
{
    is_answered(request) && !is_current(mode_asked(request))
}
