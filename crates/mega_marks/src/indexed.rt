//! The global indexes of a node, and the marks to which they were brought.
ghost use Rattle.std.specs.Prelude.{◌≡◌, [], List, IfOk, OnOk};
ghost use Rattle.mega_rules.specs.Acting.{applied_marks};
ghost use Rattle.mega_rules.specs.Finding.{global_found, refreshed_marks};
ghost use Rattle.mega_rules.specs.Logs.{log_of};
ghost use Rattle.mega_rules.specs.Met.{Met};
ghost use Rattle.mega_rules.specs.Operations.{Now};
ghost use Rattle.mega_schema.specs.declared.schema.Schema.{Schema as SchemaSeen};
ghost use Rattle.mega_outcome.specs.declared.answer.Mark.{Mark as MarkSeen};
ghost use Rattle.mega_replica.specs.Following.{Follows, progress_at};
ghost use Rattle.mega_voter.specs.Telling.{Tells};
ghost use Rattle.mega_view.specs.Small.{IsSmall};
ghost use Rattle.mega_marks.specs.AreMarked.{AreMarked, IsIndexed, MayMove};

use crate::answers::{copied, find_answer};
use crate::moving::{all_move, applied_marks, lead_to};
use mega_base::{Items, NoMemory};
use mega_disk::{Records, Versions};
use mega_index::GlobalIndex;
use mega_outcome::{Answer, FindRequest, Mark};
use mega_replica::StoredRows;
use mega_schema::Schema;
use mega_view::find_marked;
use mega_voter::Voter;
use std::alloc::Global;

/// The global indexes of a node, and the marks to which they were brought.
#[derive(Drop)]
pub struct Indexed {
    pub index: GlobalIndex,
    pub marks: Items<Mark>,
}

impl Indexed {
    /// Indexes that were brought nowhere yet.
    pub fn new(alloc: Global) -> Indexed
        ensures marked { (schema : SchemaSeen) (met : List Met) → AreMarked schema result met [] }
        ensures indexed { (schema : SchemaSeen) (met : List Met) → refreshed_marks met ≡ [] → IsIndexed schema result met }
    {
        Indexed {
            index: GlobalIndex::new(alloc),
            marks: Items::new(alloc),
        }
    }

    /// Begins anew where the marks may not move on to these.
    fn leads_to(&mut self, alloc: Global, marks: &[Mark])
        ensures { (schema : SchemaSeen) (met : List Met) (old : List MarkSeen) → AreMarked schema self.old met old → MayMove schema (self.new.index) met marks.now }
    {
        if !lead_to(self.marks.as_slice(), marks) {
            *self = Indexed::new(alloc);
        }
    }

    /// Brings each group to what is applied of it, and gives the marks. Only the entries behind the old marks are read.
    pub fn refresh<R: Records, V: Versions>(
        &mut self,
        alloc: Global,
        schema: &Schema,
        voter: &Voter<R>,
        rows: &StoredRows<V>,
    ) -> Result<Items<Mark>, NoMemory>
        ensures marks { IfOk result (λ marks. (now : Now) → Tells voter.now.logs.kept now.met → Follows (V.version rows.now.rows) (progress_at rows.now.progress) (log_of now.met) now.stored →
            marks ≡ applied_marks now) }
        ensures marked { OnOk result ((now : Now) → Tells voter.now.logs.kept now.met → Follows (V.version rows.now.rows) (progress_at rows.now.progress) (log_of now.met) now.stored →
            IsIndexed schema.now self.old now.met → AreMarked schema.now self.new now.met (applied_marks now)) }
    {
        let marks = applied_marks(alloc, voter, rows)?;
        self.leads_to(alloc, marks.as_slice());
        all_move(alloc, schema, voter, &mut self.index, marks.as_slice())?;
        let shown = copied(alloc, marks.as_slice())?;
        self.marks = marks;
        Ok(shown)
    }

    /// The answer of a find in no group: what its index has at the marks.
    pub fn find(
        &self,
        alloc: Global,
        schema: &Schema,
        find: &FindRequest,
    ) -> Result<Answer, NoMemory>
        ensures { IfOk result (λ answer. (met : List Met) → IsSmall schema.now → IsIndexed schema.now self.now met → answer ≡ global_found schema.now met find.now) }
    {
        let found = find_marked(
            alloc,
            schema,
            &self.index,
            find.index,
            find.values.as_slice(),
        )?;
        let marks = copied(alloc, self.marks.as_slice())?;
        let answer = find_answer(marks, found)?;
        Ok(answer)
    }
}
