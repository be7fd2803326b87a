//! The global indexes over groups, each group at the position at which it was last refreshed.
ghost use Rattle.std.specs.Prelude.{◌≡◌, true, [], IfErr, OnOk, OnErr};
ghost use Rattle.mega_schema.specs.declared.schema.Schema.{Schema};
ghost use Rattle.mega_index.specs.Answers.{GivesOrPlace};
ghost use Rattle.mega_index.specs.Marks.{marked_in, refreshed, rows_marked, global_found};
ghost use Rattle.mega_index.specs.Keeping.{marks_of, is_kept_under};

use crate::fault::IndexFault;
use crate::find::{find_in, global_at};
use crate::forget::{forget, touched_by};
use crate::found::Found;
use crate::held::{Held, hold};
use crate::hints::Hints;
use crate::refresh::{hint_writes, writes_of};
use mega_base::{Bytes, GroupId, Position, Value};
use mega_row_writes::mega_entry::Entry;
use mega_schema::Schema;
use std::alloc::Global;
use std::collections::BTreeMap;

/// The global indexes of a schema over groups, each group at its mark: the position at which it was last
/// refreshed.
#[derive(Drop)]
pub struct GlobalIndex {
    groups: BTreeMap<Bytes, Held>,
    hints: Hints,
}

impl GlobalIndex {
    /// Indexes in which no group has a mark.
    pub fn new(alloc: Global) -> GlobalIndex
        ensures marks { marks_of result ≡ [] }
        ensures kept { (s : Schema) → is_kept_under s result ≡ true }
    {
        GlobalIndex {
            groups: BTreeMap::new(alloc),
            hints: BTreeMap::new(alloc),
        }
    }

    /// The mark of the group with this key, 0 where it has none.
    fn mark_of_key(&self, key: &Bytes) -> Position
        ensures { result.0 ≡ (marked_in (marks_of self.now) key.now).position }
    {
        match self.groups.get(key) {
            Some(held) => Position(held.position),
            None => Position(0),
        }
    }

    /// The mark of a group, 0 where it has none.
    pub fn mark(&self, group: &GroupId) -> Position
        ensures { result.0 ≡ (marked_in (marks_of self.now) group.now.key).position }
    {
        self.mark_of_key(&group.key)
    }

    /// Moves the mark of the group with this key on.
    fn refresh_key(
        &mut self,
        alloc: Global,
        schema: &Schema,
        key: &Bytes,
        entries: &[Entry],
    ) -> Result<(), IndexFault>
        ensures ok { OnOk result (marks_of self.new ≡ refreshed (marks_of self.old) key.now entries.now) }
        ensures err { OnErr result (marks_of self.new ≡ marks_of self.old) }
        ensures fault { IfErr result (λ fault. fault ≡ IndexFault.NoMemory) }
        ensures kept { is_kept_under schema.now self.old ≡ true → is_kept_under schema.now self.new ≡ true }
    {
        let writes = writes_of(alloc, entries)?;
        let touched = touched_by(alloc, schema, &self.groups, key, writes.as_slice())?;
        hint_writes(alloc, &mut self.hints, schema, key, writes.as_slice())?;
        hold(alloc, &mut self.groups, key, entries.len(), writes)?;
        forget(
            alloc,
            &mut self.hints,
            schema,
            &self.groups,
            key,
            touched.as_slice(),
        );
        Ok(())
    }

    /// Moves the mark of a group on by the entries of its log that follow it. A refusal, which is
    /// `NoMemory`, leaves the indexes as they were.
    pub fn refresh(
        &mut self,
        alloc: Global,
        schema: &Schema,
        group: &GroupId,
        entries: &[Entry],
    ) -> Result<(), IndexFault>
        ensures ok { OnOk result (marks_of self.new ≡ refreshed (marks_of self.old) group.now.key entries.now) }
        ensures err { OnErr result (marks_of self.new ≡ marks_of self.old) }
        ensures fault { IfErr result (λ fault. fault ≡ IndexFault.NoMemory) }
        ensures kept { is_kept_under schema.now self.old ≡ true → is_kept_under schema.now self.new ≡ true }
    {
        self.refresh_key(alloc, schema, &group.key, entries)
    }

    /// What is found in the global index with this number of the entries that begin with these values, in
    /// order of key, over the rows of all groups at their marks. The first value of another kind than its
    /// property, or that has none, is refused.
    pub fn find(
        &self,
        alloc: Global,
        schema: &Schema,
        index: u8,
        values: &[Value],
    ) -> Result<Vec<Found>, IndexFault>
        ensures { is_kept_under schema.now self.now ≡ true → GivesOrPlace (λ found. found.items) result (global_found schema.now index values.now (rows_marked (marks_of self.now))) }
    {
        match global_at(schema, index) {
            Some(there) => find_in(
                alloc,
                schema,
                index,
                there,
                values,
                &self.groups,
                &self.hints,
            ),
            None => Ok(Vec::new(alloc)),
        }
    }
}
