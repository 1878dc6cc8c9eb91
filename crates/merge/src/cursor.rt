//! How far a walk over the image of one tree has come.
ghost use Rattle.std.specs.Prelude.{◌≡◌, ℕ, List, suc, ◌+◌, ◌<◌, ◌≤◌, ◌^◌, T, true, false, drop, length, slice_get, take};
ghost use Rattle.std.specs.Option.{option_copied};
ghost use Rattle.model.specs.Merging.{merged_rows};
ghost use Rattle.model.specs.declared.entry.Entry.{Entry};
ghost use Rattle.model.specs.Entries.{IsLawful};
ghost use Rattle.std.specs.List.{list_all};
ghost use Rattle.values.specs.declared.row.Row.{Row as Cells};
ghost use Rattle.merge.specs.Level.{IsOver};
ghost use Rattle.merge.specs.View.{cells_at, layer_cells};
ghost use Rattle.merge.specs.Cursor.{ChangesNext, DeletesNext, DeletesNone, IsCursor, IsCursorAt, ModifiesNext, StepGives};
ghost use Rattle.merge.specs.Cursor.{entries_left, entries_past, is_past, moved, starts_with_delete};

use crate::view::Modifies;
use delta::{ChangeRef, DeltaTree, Iter, SharedEntry, Walk};
use std::marker::Model;
use values::SharedRow;

/// A walk over the entries of a tree and the base rows between them. It reads each entry once, in order.
#[derive(Drop)]
pub(crate) struct Cursor<'a> {
    tree: &'a DeltaTree,
    /// How many entries are passed.
    index: usize,
    /// The base row that is next.
    sid: u64,
    /// The entry that is next, and those after it.
    next: Option<&'a SharedEntry>,
    rest: Iter<'a>,
}

impl<'a> Model for Cursor<'a> {
    ghost use Rattle.std.specs.Prelude.{◌≡◌, ◌+◌, slice_get, drop};
    ghost use Rattle.std.specs.Option.{option_copied};
    ghost use Rattle.merge.specs.Cursor.{TreeCursor};

    ghost Value = { TreeCursor };

    ghost view = { λ c. record { tree = c.tree.now; index = c.index; sid = c.sid } };

    ghost invariant = { λ c. (option_copied c.next ≡ slice_get c.tree.now.entries c.index)
        × (c.rest ≡ drop (c.index + 1) c.tree.now.entries) };
}

/// What comes next in the image of a tree.
pub(crate) enum Next<'a> {
    /// A row that the tree inserts.
    Inserted(&'a SharedRow),
    /// The next base row, of which the tree modifies this.
    Modified(Modifies<'a>),
    /// So many base rows as they are.
    Kept(u64),
}

impl<'a> Cursor<'a> {
    /// The cursor at a position of the image.
    pub(crate) fn at(tree: &'a DeltaTree, rid: u64) -> Cursor<'a>
        requires few { rid < 2 ^ 63 }
        ensures tree { result.tree ≡ tree.now }
        ensures at { (base : List Cells) → IsOver tree.now.key_cols 0 (length base) tree.now.entries
            → IsLawful tree.now.key_cols tree.now.entries → length base < 2 ^ 62 → rid ≤ length (merged_rows base tree.now.entries)
            → IsCursorAt base rid result }
        ensures inside { result.index ≤ length tree.now.entries }
    {
        let Walk {
            index,
            sid,
            entries: mut rest,
        } = tree.find_walk(rid);
        let next = rest.next();
        Cursor {
            tree,
            index,
            sid,
            next,
            rest,
        }
    }

    /// The tree.
    #[inline(always)]
    pub(crate) fn tree(&self) -> &'a DeltaTree
        ensures { result.now ≡ self.now.tree }
    {
        self.tree
    }

    /// How many entries are passed.
    #[inline(always)]
    pub(crate) fn index(&self) -> usize
        ensures { result ≡ self.now.index }
    {
        self.index
    }

    /// The position of the next base row.
    #[inline(always)]
    pub(crate) fn sid(&self) -> u64
        ensures { result ≡ self.now.sid }
    {
        self.sid
    }

    /// The next entry.
    #[inline(always)]
    fn next_entry(&self) -> Option<&'a SharedEntry>
        ensures { option_copied result ≡ slice_get self.now.tree.entries self.now.index }
    {
        self.next
    }

    /// Goes past a delete of the next base row, if it stands here; tells whether it did.
    #[inline(always)]
    pub(crate) fn skip_delete(&mut self) -> bool
        requires { (count : ℕ) × IsCursor count self.old }
        ensures tree { self.new.tree ≡ self.old.tree }
        ensures skipped { result ≡ true → DeletesNext self.old self.new }
        ensures none { result ≡ false → (self.new ≡ self.old) × DeletesNone self.old }
        ensures nearer { result ≡ true → self.old.index < length self.old.tree.entries × (self.new.index ≡ self.old.index + 1) }
    {
        let is_deleted = self.stands_at_delete();
        if is_deleted {
            self.advance();
            self.pass(1);
        }
        is_deleted
    }

    /// Whether the next entry is a delete of the next base row.
    #[inline(always)]
    fn stands_at_delete(&self) -> bool
        ensures { result ≡ starts_with_delete self.now.sid (entries_left self.now) }
    {
        match self.next_entry() {
            Some(entry) => entry.sid() == self.sid() && entry.is_delete(),
            None => false,
        }
    }

    /// Goes past what comes next, where that isn't a deleted row, or tells how many base rows stand as they are: at most so
    /// many.
    #[inline(always)]
    pub(crate) fn step(&mut self, most: u64) -> Next<'a>
        requires is { (count : ℕ) × IsCursor count self.old }
        requires undeleted { DeletesNone self.old }
        ensures tree { self.new.tree ≡ self.old.tree }
        ensures step { StepGives most self.old result self.new }
    {
        match self.next_entry() {
            None => Next::Kept(most),
            Some(entry) => {
                let sid = self.sid();
                let at = entry.sid();
                if at > sid {
                    return Next::Kept(most.min(at - sid));
                }
                match entry.change() {
                    ChangeRef::Ins(row) => {
                        self.advance();
                        Next::Inserted(row)
                    }
                    ChangeRef::Del(_) | ChangeRef::Mod(..) => Next::Modified(self.pass_modifies(
                        entry,
                    )),
                }
            }
        }
    }

    /// Goes past so many base rows, with no entry between.
    #[inline(always)]
    pub(crate) fn pass(&mut self, count: u64)
        requires { self.old.sid + count < 2 ^ 64 }
        ensures { self.new ≡ moved count self.old }
    {
        self.sid += count;
    }

    /// Goes past the modifies of the next base row, of which this entry is the first, and tells what they are.
    #[inline(always)]
    fn pass_modifies(&mut self, entry: &'a SharedEntry) -> Modifies<'a>
        requires is { (count : ℕ) × IsCursor count self.old }
        requires undeleted { DeletesNone self.old }
        requires next { ChangesNext entry.now self.old }
        ensures tree { self.new.tree ≡ self.old.tree }
        ensures passed { ModifiesNext (layer_cells result) self.old self.new }
    {
        let sid = self.sid() as u32;
        let first = self.index();
        let second = self.pass_row();
        let last = self.index();
        if last == first + 1 {
            return Modifies::One(entry);
        }
        match second {
            Some(other) if last == first + 2 => Modifies::Two(entry, other),
            Some(_) | None => Modifies::InTree(self.tree(), sid),
        }
    }

    /// Goes past the next base row and its modifies, and gives the entry that stands behind the first of them.
    #[inline(always)]
    fn pass_row(&mut self) -> Option<&'a SharedEntry>
        requires is { (count : ℕ) × IsCursor count self.old }
        requires undeleted { DeletesNone self.old }
        requires next { (entry : Entry) × ChangesNext entry self.old }
        ensures tree { self.new.tree ≡ self.old.tree }
        ensures second { option_copied result ≡ slice_get self.old.tree.entries (self.old.index + 1) }
        ensures passed { ModifiesNext (cells_at self.old.sid self.old.tree.entries) self.old self.new }
    {
        self.advance();
        let second = self.next_entry();
        self.pass_row_entries();
        self.pass(1);
        second
    }

    /// Goes past the entries that are left at the SID of the next base row.
    #[inline(always)]
    fn pass_row_entries(&mut self)
        requires { IsLawful self.old.tree.key_cols self.old.tree.entries }
        ensures tree { self.new.tree ≡ self.old.tree }
        ensures sid { self.new.sid ≡ self.old.sid }
        ensures rest { entries_left self.new ≡ entries_past self.old.sid (entries_left self.old) }
        ensures past { T (list_all (is_past (suc self.old.sid)) (take self.old.index self.old.tree.entries))
            → T (list_all (is_past (suc self.old.sid)) (take self.new.index self.old.tree.entries)) }
    {
        while let Some(entry) = self.next_entry() {
            if entry.sid() != self.sid() {
                break;
            }
            self.advance();
        }
    }

    /// Goes past the next entry.
    #[inline(always)]
    fn advance(&mut self)
        requires lawful { IsLawful self.old.tree.key_cols self.old.tree.entries }
        requires some { self.old.index < length self.old.tree.entries }
        ensures { self.new ≡ record self.old { index = self.old.index + 1 } }
    {
        self.index += 1;
        self.next = self.rest.next();
    }
}
