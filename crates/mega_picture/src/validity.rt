//! The thin bands of groups that are valid or invalid at a node.
ghost use Rattle.std.specs.Prelude.{◌≡◌, ◌≤◌, ◌++◌, ◌==◌, ℕ, OnOk, IfOk, length, if◌then◌else◌};
ghost use Rattle.mega_picture.specs.Validity.{change_if, change_of, is_end, is_of, ends_band, class_of, strip_opening, strip_text, strip_at, validity_text, change_text, validity_texts};
ghost use Rattle.mega_picture.specs.Ends.{end_at};

use crate::bands::{Band, Turn, turn_of};
use crate::escape::put_fitted;
use crate::groups::Groups;
use crate::item_line::ItemLine;
use crate::sheet::{Sheet, step};
use mega_base::{Bytes, NoMemory};
use mega_transcript::Item;
use std::alloc::Global;
use std::collections::BTreeMap;

/// How many columns the bands of groups have beside a lane, how far they are apart, and where the first one stands.
const COLUMNS: u32 = 8;

const APART: u64 = 5;

const FIRST: u64 = 14;

/// A group, by its number, that becomes valid or invalid.
#[derive(Clone, Copy, Drop)]
pub struct Change {
    pub group: u32,
    pub valid: bool,
}

/// The change, where it is here that it happens.
fn change_if(here: bool, group: u32, valid: bool) -> Option<Change>
    ensures { result ≡ change_if here group valid }
{
    if here {
        Some(Change { group, valid })
    } else {
        None
    }
}

/// Which group an item makes valid, or invalid, at a node.
fn change_of(groups: &Groups, node: u8, item: &Item) -> Option<Change>
    ensures { result ≡ change_of groups.now node item.now }
{
    match item {
        Item::Valid {
            node: at,
            group,
            ..
        } => change_if(at.0 == node, groups.number(group), true),
        Item::Invalid {
            node: at,
            group,
            ..
        } => { change_if(at.0 == node, groups.number(group), false) }
        _ => None,
    }
}

/// Whether a group's strip ends there.
fn is_end(turn: Turn) -> bool
    ensures { result ≡ is_end turn }
{
    match turn {
        Turn::Ends => true,
        Turn::Begins => false,
        Turn::Stays => false,
    }
}

/// The class of a strip: of a group that is valid, or invalid.
fn class_of(valid: bool) -> &'static str
    ensures { result.now ≡ class_of valid }
{
    if valid { "valid" } else { "invalid" }
}

/// Opens a strip, up to its title.
fn put_opening(alloc: Global, out: &mut Bytes, class: &str) -> Result<(), NoMemory>
    ensures { OnOk result (out.new ≡ out.old ++ strip_opening class.now) }
{
    let text = format!(in alloc; "<g class=\"{class}\"><title>")?;
    out.extend_from_slice(text.as_bytes())
}

/// Ends the title of a strip, and draws it.
fn put_strip(alloc: Global, out: &mut Bytes, x: u64, y: u64, height: u64) -> Result<(), NoMemory>
    ensures { OnOk result (out.new ≡ out.old ++ strip_text x y height) }
{
    let text = format!(in alloc;
        "</title><rect x=\"{x}\" y=\"{y}\" width=\"3\" height=\"{height}\"/></g>\n"
    )?;
    out.extend_from_slice(text.as_bytes())
}

/// Writes the strip of a group at a node between two steps.
#[tactic(auto, unfolding(crate::specs::Validity::strip_at))]
fn put_strip_at(
    alloc: Global,
    out: &mut Bytes,
    sheet: Sheet,
    node: u8,
    group: u32,
    from: u32,
    to: u32,
) -> Result<(), NoMemory>
    ensures { OnOk result (out.new ≡ out.old ++ strip_at sheet node group from to) }
{
    let aside = FIRST + u64::from(group % COLUMNS) * APART;
    let x = sheet.lane(node).saturating_sub(aside);
    let y = step(from);
    put_strip(alloc, out, x, y, step(to).saturating_sub(y))
}

/// Writes the band of a group at a node between two steps.
#[tactic(auto, unfolding(crate::specs::Validity::validity_text))]
fn put_validity(
    alloc: Global,
    out: &mut Bytes,
    sheet: Sheet,
    node: u8,
    change: Change,
    from: u32,
    to: u32,
    line: &[u8],
) -> Result<(), NoMemory>
    ensures { OnOk result (out.new ≡ out.old ++ validity_text sheet node change from to line.now) }
{
    put_opening(alloc, out, class_of(change.valid))?;
    put_fitted(out, line, sheet.title_room())?;
    put_strip_at(alloc, out, sheet, node, change.group, from, to)
}

/// Where the bands of groups at a node end, looking back from the foot of the page.
#[derive(Drop)]
pub struct EndsAt {
    /// The row from which no band goes on.
    gone: u32,
    /// The row in which each group changes next, before that one.
    next: BTreeMap<u32, u32>,
}

impl EndsAt {
    /// At the foot of the page.
    fn at_foot(alloc: Global, foot: u32) -> EndsAt
        ensures { (group : ℕ) → end_at result group ≡ foot }
    {
        EndsAt {
            gone: foot,
            next: BTreeMap::new(alloc),
        }
    }

    /// Where the band of a group ends.
    fn of(&self, group: u32) -> u32
        ensures { result ≡ end_at self.now group }
    {
        self.next.get(&group).copied().unwrap_or(self.gone)
    }

    /// Looking back over a row in which all bands end, if they do.
    fn over_end(self, alloc: Global, row: u32, is_end: bool) -> EndsAt
        ensures { (group : ℕ) → end_at result group ≡ (if is_end then row else end_at self group) }
    {
        if is_end {
            EndsAt::at_foot(alloc, row)
        } else {
            self
        }
    }

    /// Looking back over a row in which a group changes.
    #[tactic(auto, using(crate::proofs::Ending::changed))]
    fn put(&mut self, group: u32, row: u32) -> Result<(), NoMemory>
        ensures { OnOk result ((other : ℕ) → end_at self.new other ≡ (if group == other then row else end_at self.old other)) }
    {
        self.next.insert(group, row)?;
        Ok(())
    }

    /// Looking back over a row in which a group changes, if one does.
    fn put_change(&mut self, row: u32, change: Option<Change>) -> Result<(), NoMemory>
        ensures { OnOk result ((group : ℕ) → end_at self.new group ≡ (if is_of group change then row else end_at self.old group)) }
    {
        match change {
            Some(change) => self.put(change.group, row),
            None => Ok(()),
        }
    }

    /// Looking back over a row with this change and this turn of the serving band.
    #[tactic(auto, using(crate::proofs::Ending::joined))]
    fn over(
        self,
        alloc: Global,
        row: u32,
        change: Option<Change>,
        turn: Turn,
    ) -> Result<EndsAt, NoMemory>
        ensures { IfOk result (λ ends. (group : ℕ) → end_at ends group ≡ (if ends_band group change turn then row else end_at self group)) }
    {
        let mut ends = self.over_end(alloc, row, is_end(turn));
        ends.put_change(row, change)?;
        Ok(ends)
    }
}

/// Writes the band that begins with a change in a row, where there is one.
fn put_change(
    alloc: Global,
    out: &mut Bytes,
    sheet: Sheet,
    node: u8,
    row: u32,
    change: Option<Change>,
    ends: &EndsAt,
    line: &[u8],
) -> Result<(), NoMemory>
    ensures { OnOk result (out.new ≡ out.old ++ change_text sheet node row change (end_at ends.now) line.now) }
{
    match change {
        Some(change) => put_validity(
            alloc,
            out,
            sheet,
            node,
            change,
            row,
            ends.of(change.group),
            line,
        ),
        None => Ok(()),
    }
}

/// Writes the bands of the groups of a node, the last one first.
#[tactic(auto, using(crate::proofs::Ending::validities_on, crate::proofs::Ending::ends_on))]
pub fn put_validities(
    alloc: Global,
    out: &mut Bytes,
    sheet: Sheet,
    groups: &Groups,
    node: u8,
    told: &[ItemLine],
) -> Result<(), NoMemory>
    requires { length told.now ≤ 4000 }
    ensures { OnOk result (out.new ≡ out.old ++ validity_texts sheet groups.now node told.now) }
{
    let mut ends = EndsAt::at_foot(alloc, told.len() as u32);
    let mut at = told.len();
    while 0 < at {
        at -= 1;
        let row = at as u32;
        let one = &told[at];
        let change = change_of(groups, node, &one.item);
        let turn = turn_of(Band::Serves, node, &one.item);
        put_change(
            alloc,
            out,
            sheet,
            node,
            row,
            change,
            &ends,
            one.line.as_slice(),
        )?;
        ends = ends.over(alloc, row, change, turn)?;
    }
    Ok(())
}
