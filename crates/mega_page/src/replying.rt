//! The reply of one client.
ghost use Rattle.std.specs.Prelude.{◌≡◌, ◌≤◌, ◌++◌, ◌∷◌, [], List, length, OnOk};
ghost use Rattle.mega_wire.specs.Messages.{IsMessage, message_text};
ghost use Rattle.mega_wire.specs.declared.message.Body.TheVariants.{Reply};
ghost use Rattle.mega_transcript.specs.Recorded.{Line, OfClient, Put};
ghost use Rattle.mega_page.specs.Pages.{IsPage};

use crate::page::Page;
use mega_base::{Bytes, NoMemory};
use mega_link::Peer;
use mega_wire::{Body, Message};
use std::alloc::Global;

/// The message that gives a client its reply.
fn reply(me: u8, token: u64, text: Bytes) -> Message
    requires least { 1 ≤ me }
    requires most { me ≤ 9 }
    requires short { length text ≤ 65000 }
    ensures message { result ≡ record { from = me; to = 0; body = Reply token text } }
    ensures formed { IsMessage result }
{
    Message {
        from: me,
        to: 0,
        body: Body::Reply { token, text },
    }
}

impl Page {
    /// A client gets its reply.
    pub fn reply(
        &mut self,
        alloc: Global,
        me: u8,
        client: u32,
        token: u64,
        text: Bytes,
    ) -> Result<(), NoMemory>
        requires least { 1 ≤ me }
        requires most { me ≤ 9 }
        requires short { length text ≤ 65000 }
        ensures { OnOk result ((schema : _) (lines : List Line) → IsPage schema self.old lines → IsPage schema self.new (lines ++ Put (OfClient client) (message_text (record { from = me; to = 0; body = Reply token text })) ∷ [])) }
    {
        let message = reply(me, token, text);
        self.put_message(alloc, Peer::Client(client), &message)?;
        Ok(())
    }
}
