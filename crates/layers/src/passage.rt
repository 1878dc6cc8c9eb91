//! A tree on its way past several others, one after another, each over the image that the one before it leaves.
ghost use Rattle.std.specs.Prelude.{◌≡◌, IfOk};
ghost use Rattle.layers.specs.Over.{AreAligned};
ghost use Rattle.layers.specs.Passage.{IsPassed};

use crate::beside::SEARCH_RATIO;
use crate::list::EntryList;
use crate::rebase::{Serialized, moves_none, serialize};
use delta::DeltaTree;
use model::{Clash, ConflictRule};
use std::alloc::Global;
use std::marker::Model;
use values::NoMemory;

/// A tree on its way past others. Its entries are held in a list from the first small tree on that moves some of them: there
/// they move where they are, and the tree is made anew at the end alone.
#[derive(Drop)]
pub struct Passage {
    form: Form,
}

/// How the entries are held.
#[derive(Drop)]
enum Form {
    Tree(DeltaTree),
    List(EntryList),
}

/// What becomes of a tree that passes another one.
#[derive(Drop)]
pub enum Passed {
    /// It is past the other one.
    On(Passage),
    /// The first two entries that can't both be kept.
    Conflict(Clash),
}

impl Model for Passage {
    ghost use Rattle.delta.specs.Tree.{Tree};
    ghost use Rattle.layers.specs.Held.{held_tree};

    ghost Value = { Tree };

    ghost view = { λ p. held_tree p.form };
}

impl Passage {
    /// The tree, before all that it is to pass. Takes no memory.
    pub fn of(tree: DeltaTree) -> Passage
        ensures { result ≡ tree }
    {
        Passage {
            form: Form::Tree(tree),
        }
    }

    /// Past another tree, which is over the same image, as `serialize` makes it consecutive to that, or the clash that
    /// `serialize` finds. Where it moves entries of a list, it takes no memory, and reads none that stand before the other
    /// tree's first.
    ///
    /// # Errors
    ///
    /// `NoMemory` where a growth is refused.
    pub fn pass(
        self,
        alloc: Global,
        other: &DeltaTree,
        rule: ConflictRule,
    ) -> Result<Passed, NoMemory>
        requires { AreAligned self other.now }
        ensures { IfOk result (λ passed. (w : AreAligned self other.now) → IsPassed rule self other.now w passed) }
    {
        match self.form {
            Form::Tree(tree) => pass_tree(alloc, tree, other, rule),
            Form::List(list) => Ok(pass_list(list, other, rule)),
        }
    }

    /// The tree, consecutive to all that it has passed. It shares the rows of the one that set out.
    ///
    /// # Errors
    ///
    /// `NoMemory` where a growth is refused.
    pub fn into_tree(self, alloc: Global) -> Result<DeltaTree, NoMemory>
        ensures { IfOk result (λ tree. tree ≡ self) }
    {
        match self.form {
            Form::Tree(tree) => Ok(tree),
            Form::List(list) => list.into_tree(alloc),
        }
    }
}

/// What becomes of a tree that passes another one. A list is made where a tree with no more than a tenth of its entries moves
/// some.
fn pass_tree(
    alloc: Global,
    tree: DeltaTree,
    other: &DeltaTree,
    rule: ConflictRule,
) -> Result<Passed, NoMemory>
    requires { AreAligned tree other.now }
    ensures { IfOk result (λ passed. (w : AreAligned tree other.now) → IsPassed rule tree other.now w passed) }
{
    if other.len() <= tree.len() / SEARCH_RATIO && !moves_none(&tree, other) {
        return Ok(pass_list(EntryList::of(alloc, &tree)?, other, rule));
    }
    match serialize(alloc, &tree, other, rule)? {
        Serialized::Tree(next) => Ok(Passed::On(Passage::of(next))),
        Serialized::Conflict(clash) => Ok(Passed::Conflict(clash)),
    }
}

/// What becomes of a tree that passes another one, where its entries are held in a list.
fn pass_list(list: EntryList, other: &DeltaTree, rule: ConflictRule) -> Passed
    requires { AreAligned list other.now }
    ensures { (w : AreAligned list other.now) → IsPassed rule list other.now w result }
{
    match list.pass(rule, other) {
        Ok(list) => Passed::On(Passage {
            form: Form::List(list),
        }),
        Err(clash) => Passed::Conflict(clash),
    }
}
