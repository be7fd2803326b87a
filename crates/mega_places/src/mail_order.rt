//! The message that a drain delivers next.
ghost use Rattle.std.specs.Prelude.{◌≡◌, ◌&&◌, ℕ, length};
ghost use Rattle.mega_promises.specs.Messages.{next_delivery};
ghost use Rattle.mega_promises.specs.Runs.{Standing, up};
ghost use Rattle.mega_places.specs.Carries.{Carries};
ghost use Rattle.mega_verdicts.specs.Least.{IsLeast};
ghost use Rattle.mega_places.specs.Members.{is_up_at};
ghost use Rattle.mega_places.specs.Waits.{waits_among};
ghost use Rattle.mega_verdicts.specs.Waiting.{waits_for};

use crate::mail::Mail;
use crate::place::Place;
use crate::places::member_of;
use mega_verdicts::{first_for, lesser};

impl Mail {
    /// The least number of a message that waits for a node, if the node is up and any does.
    fn first_at(&self, places: &[Place], me: usize) -> Option<u64>
        ensures { IsLeast (λ n. is_up_at places.now me && waits_for self.now.waiting.items me n) result }
    {
        match member_of(places, me) {
            Some(_node) => first_for(self.waiting.as_slice(), me),
            None => None,
        }
    }

    /// The least number of a message that waits for one of the nodes that are up.
    fn first_among(&self, places: &[Place]) -> Option<u64>
        ensures { IsLeast (waits_among self.now.waiting.items places.now (length places.now)) result }
    {
        let mut first = None;
        for before in 0..places.len() {
            first = lesser(first, self.first_at(places, before + 1));
        }
        first
    }

    /// The message that a drain delivers next: the least number of those that were neither taken nor dropped and go to a node that
    /// is up.
    pub fn next_delivery(&self, places: &[Place]) -> Option<u64>
        ensures { (now : Standing) → Carries self.now now.tape → ((me : ℕ) → up now me ≡ is_up_at places.now me) → result ≡ next_delivery (up now) now.tape }
    {
        self.first_among(places)
    }
}
