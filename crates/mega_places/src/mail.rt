//! All messages between the nodes, numbered from 1, with those that wait, by receiver, and those that are dropped.
ghost use Rattle.std.specs.Prelude.{◌≡◌, ◌+◌, ◌++◌, ◌==◌, ◌&&◌, not, [], ◌∷◌, ℕ, List, true, length, IfOk, OnOk, Some, None};
ghost use Rattle.std.specs.Option.{option_copied};
ghost use Rattle.mega_cluster.specs.declared.cluster.Cluster.{Cluster};
ghost use Rattle.mega_promises.specs.Items.{numbered};
ghost use Rattle.mega_promises.specs.Messages.{is_dropped, message_of};
ghost use Rattle.mega_promises.specs.Runs.{Standing, refusal};
ghost use Rattle.mega_schedule.specs.declared.world_event.WorldEvent.TheVariants as event;
ghost use Rattle.mega_transcript.specs.declared.item.Item.{Item as OnTape};
ghost use Rattle.mega_transcript.specs.declared.item.Item.TheVariants as item;
ghost use Rattle.mega_transcript.specs.Tape.{is_sent, onto, sent_count};
ghost use Rattle.mega_places.specs.Carries.{Carries};
ghost use Rattle.mega_places.specs.Waits.{receiver_of};
ghost use Rattle.mega_verdicts.specs.Waiting.{waits_for};

use mega_base::{Copied, Items, NoMemory};
use mega_transcript::{Item, Tape};
use mega_verdicts::{drop_message, forget, keep};
use mega_wire::Message;
use std::alloc::Global;
use std::collections::BTreeSet;

/// All messages that were sent between the nodes of a cluster, numbered from 1, with the numbers of those that are neither taken
/// nor dropped, in order for each receiver, and of those that are dropped.
#[derive(Drop)]
pub struct Mail {
    messages: Items<Message>,
    pub waiting: Vec<BTreeSet<u64>>,
    dropped: BTreeSet<u64>,
}

impl Mail {
    /// Nothing was sent.
    pub fn new(alloc: Global) -> Mail
        ensures { Carries result [] }
    {
        Mail {
            messages: Items::new(alloc),
            waiting: Vec::new(alloc),
            dropped: BTreeSet::new(alloc),
        }
    }

    /// The message of a number, where one was sent.
    pub fn message(&self, number: u64) -> Option<&Message>
        ensures { (tape : List OnTape) → Carries self.now tape → option_copied result ≡ message_of tape number }
    {
        if number == 0 {
            return None;
        }
        self.messages.as_slice().get(number as usize - 1)
    }

    /// Whether a message of this number was sent.
    pub fn is_sent(&self, number: u64) -> bool
        ensures { (tape : List OnTape) → Carries self.now tape → result ≡ is_sent tape number }
    {
        1 <= number && number <= self.messages.len() as u64
    }

    /// Whether the message of this number was dropped.
    pub fn is_dropped(&self, number: u64) -> bool
        ensures { (tape : List OnTape) → Carries self.now tape → result ≡ is_dropped tape number }
    {
        self.dropped.contains(&number)
    }

    /// A message that was sent waits no more.
    fn ends_waiting(&mut self, number: u64)
        ensures sent { self.new.messages ≡ self.old.messages }
        ensures dropped { self.new.dropped ≡ self.old.dropped }
        ensures waiting { (tape : List OnTape) → Carries self.old tape → is_sent tape number ≡ true → (to n : ℕ) →
            waits_for self.new.waiting.items to n ≡ (not (number == n) && waits_for self.old.waiting.items to n) }
    {
        let to = match self.message(number) {
            Some(message) => message.to,
            None => return,
        };
        forget(&mut self.waiting, to, number);
    }

    /// A message that was sent is taken.
    pub fn take(&mut self, number: u64)
        ensures { (tape : List OnTape) → Carries self.old tape → is_sent tape number ≡ true → Carries self.new (item.Taken number ∷ tape) }
    {
        self.ends_waiting(number);
    }

    /// The receiver of the message of a number, where one was sent.
    fn receiver(&self, number: u64) -> Option<u8>
        ensures { (tape : List OnTape) → Carries self.now tape → result ≡ receiver_of (message_of tape number) }
    {
        match self.message(number) {
            Some(message) => Some(message.to),
            None => None,
        }
    }

    /// The message of a number is dropped, or why it is not: 3, none of this number was sent; 4, it was dropped before.
    pub fn drop_message(&mut self, number: u64) -> Result<Option<u8>, NoMemory>
        ensures value { IfOk result (λ refused. (c : Cluster) (now : Standing) → Carries self.old now.tape → refused ≡ refusal c now (event.Drop number)) }
        ensures same { IfOk result (λ refused. (why : ℕ) → refused ≡ Some why → self.new ≡ self.old) }
        ensures dropped { IfOk result (λ refused. refused ≡ None → (tape : List OnTape) → Carries self.old tape → Carries self.new (item.Dropped number ∷ tape)) }
    {
        let to = self.receiver(number);
        match drop_message(&mut self.waiting, &mut self.dropped, to, number) {
            Ok(why) => Ok(why),
            Err(refused) => Err(refused),
        }
    }

    /// A message is sent, under the next number.
    fn send(&mut self, alloc: Global, message: Message) -> Result<(), NoMemory>
        ensures carried { OnOk result ((tape : List OnTape) → Carries self.old tape → Carries self.new (item.Sent (length self.old.messages + 1) message ∷ tape)) }
        ensures messages { OnOk result (self.new.messages ≡ self.old.messages ++ message ∷ []) }
    {
        let number = self.messages.as_slice().len() as u64 + 1;
        let to = message.to;
        self.messages.push(message)?;
        keep(&mut self.waiting, alloc, to, number)?;
        Ok(())
    }

    /// Messages are sent, each under the next number, and stand on the tape.
    pub fn send_all(
        &mut self,
        alloc: Global,
        sends: Items<Message>,
        tape: &mut Tape,
    ) -> Result<(), NoMemory>
        ensures carried { OnOk result ((before : List OnTape) → Carries self.old before → Carries self.new (onto (numbered (sent_count before + 1) sends) before)) }
        ensures shown { OnOk result ((before : List OnTape) → Carries self.old before → tape.new.items ≡ tape.old.items ++ numbered (sent_count before + 1) sends) }
    {
        for message in sends.into_vec() {
            let number = self.messages.as_slice().len() as u64 + 1;
            let kept = message.copy(alloc)?;
            self.send(alloc, kept)?;
            tape.items.push(Item::Sent { number, message })?;
        }
        Ok(())
    }
}
