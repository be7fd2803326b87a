//! Which requests a node replies to, and how often.
ghost use Rattle.std.specs.Prelude.{◌≡◌, if◌then◌else◌, List, length};
ghost use Rattle.mega_rules.specs.Members.{is_cell, is_full, is_voter};
ghost use Rattle.mega_rules.specs.Met.{Met};
ghost use Rattle.mega_core.specs.of_step_parts.Events.{event_of};
ghost use Rattle.mega_promises.specs.Runs.{replies_in};
ghost use Rattle.mega_durable.specs.Replying.{replies_at};

use mega_cluster::Cluster;
use mega_core::mega_step_parts::Event;
use mega_kinds::{is_cell, is_full, is_voter};
use mega_wire::Body;

/// Whether a node replies to what it is asked.
fn replies_at(cluster: &Cluster, me: u8, body: &Body) -> bool
    ensures { result ≡ replies_at cluster.now me body.now }
{
    match body {
        Body::Where { .. } | Body::Accept { .. } | Body::Prepare { .. } | Body::Fetch { .. } => {
            is_voter(cluster, me)
        }
        Body::Invalidate { .. } => is_full(cluster, me),
        Body::Dead { cell, .. } => *cell == me && is_cell(cluster, me),
        Body::Acquire { cell, .. } => *cell == me && is_cell(cluster, me),
        _ => false,
    }
}

/// How often a node replies to what it is asked: once, or not.
fn replies_to(cluster: &Cluster, me: u8, body: &Body) -> usize
    ensures { result ≡ (if replies_at cluster.now me body.now then 1 else 0) }
{
    if replies_at(cluster, me, body) {
        return 1;
    }
    0
}

/// How many replies a node sends at an event.
pub(crate) fn replies(cluster: &Cluster, me: u8, event: &Event<'_>) -> usize
    ensures { (met : List Met) → result ≡ length (replies_in cluster.now me met (event_of event.now)) }
{
    match event {
        Event::Take(message) => replies_to(cluster, me, &message.body),
        Event::Begin(_, _) => 0,
        Event::Tick(_) => 0,
    }
}
