//! What a tree makes of the entries of another one over the same image: each is found by a descent, or all by one walk.
ghost use Rattle.std.specs.Prelude.{◌≡◌, ◌<◌, ◌^◌};
ghost use Rattle.model.specs.Rebasing.{first_clash, rebased_entry};
ghost use Rattle.model.specs.declared.entry.Entry.{Entry};
ghost use Rattle.layers.specs.Over.{AreAligned};
ghost use Rattle.layers.specs.Passing.{IsReady, searched_tree};
ghost use Rattle.layers.specs.Serialization.{IsClashBeside};

use crate::clash::clash_beside;
use crate::cursor::Cursor;
use delta::{DeltaTree, SharedEntry, Sought};
use model::{Clash, ConflictRule};

/// A tree is searched for each entry of another one, and not walked, where it has at least so many times as many.
pub(crate) const SEARCH_RATIO: usize = 10;

/// What a tree makes of an entry of another one.
#[derive(Drop)]
pub(crate) struct Beside {
    /// The position of its row in the image of that tree.
    pub(crate) rid: u64,
    /// The clash with the first entry there that it can clash with.
    pub(crate) clash: Option<Clash>,
}

/// How entries of another tree are looked for.
#[derive(Drop)]
pub(crate) enum Search<'a> {
    /// Each by a descent.
    Descents(&'a DeltaTree),
    /// In order, by a walk.
    Walk(Cursor<'a>),
}

impl<'a> Search<'a> {
    /// In the tree, for so many entries.
    pub(crate) fn of(tree: &'a DeltaTree, count: usize) -> Search<'a>
        ensures tree { searched_tree result ≡ tree.now }
        ensures ready { (rule : ConflictRule) (e : Entry) → IsReady rule result e }
    {
        if count > tree.len() / SEARCH_RATIO {
            Search::Walk(Cursor::of(tree))
        } else {
            Search::Descents(tree)
        }
    }

    /// What the tree makes of the entry, which has this index in its own.
    pub(crate) fn find(&mut self, rule: ConflictRule, index: usize, entry: &SharedEntry) -> Beside
        requires ready { IsReady rule self.old entry.now }
        requires sid { entry.now.sid < 2 ^ 63 }
        ensures rid { result.rid ≡ (rebased_entry (searched_tree self.old).key_cols (searched_tree self.old).entries entry.now).sid }
        ensures clash { IsClashBeside rule (searched_tree self.old).key_cols index entry.now (searched_tree self.old).entries result.clash }
        ensures ready { IsReady rule self.new entry.now }
        ensures tree { searched_tree self.new ≡ searched_tree self.old }
    {
        match self {
            Search::Descents(tree) => find_beside(rule, index, entry, tree),
            Search::Walk(cursor) => cursor.find(rule, index, entry),
        }
    }
}

/// What the tree makes of the entry, which has this index in its own, by a descent.
fn find_beside(rule: ConflictRule, index: usize, entry: &SharedEntry, other: &DeltaTree) -> Beside
    requires { entry.now.sid < 2 ^ 63 }
    ensures rid { result.rid ≡ (rebased_entry other.now.key_cols other.now.entries entry.now).sid }
    ensures clash { IsClashBeside rule other.now.key_cols index entry.now other.now.entries result.clash }
{
    let place = other.find(entry.sid(), Sought::Change(entry.change()));
    Beside {
        rid: place.rid,
        clash: clash_beside(rule, index, entry, other, &place),
    }
}

/// The clash of the first entry of `x` that clashes with one of `y`, with the first of those, by a descent in `y` for each
/// entry of `x`.
pub(crate) fn first_clash(rule: ConflictRule, x: &DeltaTree, y: &DeltaTree) -> Option<Clash>
    requires { AreAligned x.now y.now }
    ensures { result ≡ first_clash rule y.now.key_cols x.now.entries y.now.entries }
{
    let mut index = 0;
    for entry in x.iter() {
        let found = find_beside(rule, index, entry, y);
        if let Some(clash) = found.clash {
            return Some(clash);
        }
        index += 1;
    }
    None
}
