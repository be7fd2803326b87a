//! What is left behind the parts of an entry, and the entry.
ghost use Rattle.mega_base.specs.Codec.{IsList, IsOption};
ghost use Rattle.mega_base.specs.Names.{IsNode, IsOp};
ghost use Rattle.mega_entry.specs.Entries.{HasCuts, IsEnter, IsName, IsSend, IsWrite, changes_text, head_text, marks_text, version_of, most_items, cuts_text};
ghost use Rattle.mega_well_formed.specs.Room.{Leaves};

use crate::cuts::room_behind_cuts;
use crate::formed::{Formed, room_behind_list, room_behind_option};
use crate::names::{
    room_behind_group, room_behind_id, room_behind_node, room_behind_string, room_behind_text,
    room_behind_u32, room_behind_u64,
};
use mega_entry::{Content, Enter, Entry, Name, Send, Write};

impl Formed for Write {
    fn room_behind(&self, room: usize) -> Option<usize> {
        match room_behind_string(self.key.as_slice(), room) {
            Some(left) => room_behind_option(&self.row, left),
            None => None,
        }
    }
}

impl Formed for Name {
    fn room_behind(&self, room: usize) -> Option<usize> {
        let left = room_behind_group(&self.group, room)?;
        let left = room_behind_u64(self.position.0, left)?;
        room_behind_u32(self.place, left)
    }
}

impl Formed for Send {
    fn room_behind(&self, room: usize) -> Option<usize> {
        let left = room_behind_group(&self.to, room)?;
        let left = room_behind_text(&self.queue, 1, 64, left)?;
        room_behind_string(self.payload.as_slice(), left)
    }
}

impl Formed for Enter {
    fn room_behind(&self, room: usize) -> Option<usize> {
        let left = self.name.room_behind(room)?;
        let left = room_behind_text(&self.queue, 1, 64, left)?;
        room_behind_string(self.payload.as_slice(), left)
    }
}

/// What is left behind an entry's version, id and leader.
fn room_behind_head(content: &Content, room: usize) -> Option<usize>
    ensures { Leaves (IsOption IsOp content.now.id × IsNode content.now.leader) (head_text content.now) room result }
{
    let left = room.checked_sub(1)?;
    let left = room_behind_id(content.id, left)?;
    room_behind_node(content.leader, left)
}

/// What is left behind its writes and sends.
fn room_behind_changes(content: &Content, room: usize) -> Option<usize>
    ensures { Leaves (IsList 0 most_items IsWrite content.now.writes × IsList 0 most_items IsSend content.now.sends) (changes_text content.now) room result }
{
    let left = room_behind_list(&content.writes, 0, room)?;
    room_behind_list(&content.sends, 0, left)
}

/// What is left behind its enters, handles and cuts.
fn room_behind_marks(content: &Content, room: usize) -> Option<usize>
    ensures { Leaves (IsList 0 most_items IsEnter content.now.enters × (IsList 0 most_items IsName content.now.handles × HasCuts content.now content.now.cuts)) (marks_text content.now) room result }
{
    let left = room_behind_list(&content.enters, 0, room)?;
    let left = room_behind_list(&content.handles, 0, left)?;
    room_behind_cuts(content, left)
}

impl Formed for Entry {
    fn room_behind(&self, room: usize) -> Option<usize> {
        let content = self.content();
        let left = room_behind_head(content, room)?;
        let left = room_behind_changes(content, left)?;
        room_behind_marks(content, left)
    }
}
