//! The entries of a tree that a walk has still to pass.
ghost use Rattle.std.specs.Prelude.{◌≡◌, ◌<◌, drop, length, slice_get};
ghost use Rattle.std.specs.Option.{option_copied};
ghost use Rattle.model.specs.Entries.{IsLawful};

use delta::{DeltaTree, Iter, SharedEntry};
use std::marker::Model;

/// The entries that are left, with the first of them at hand.
#[derive(Drop)]
pub(crate) struct Ahead<'a> {
    first: Option<&'a SharedEntry>,
    /// Those after it.
    rest: Iter<'a>,
}

impl<'a> Model for Ahead<'a> {
    ghost use Rattle.std.specs.Prelude.{List};
    ghost use Rattle.std.specs.Option.{option_copied};
    ghost use Rattle.model.specs.declared.entry.Entry.{Entry};
    ghost use Rattle.layers.specs.Walk.{entries_ahead};

    ghost Value = { List Entry };

    ghost view = { λ a. entries_ahead (option_copied a.first) a.rest };
}

impl<'a> Ahead<'a> {
    /// All entries of the tree.
    pub(crate) fn of(tree: &'a DeltaTree) -> Ahead<'a>
        ensures all { result ≡ tree.now.entries }
        ensures lawful { IsLawful tree.now.key_cols tree.now.entries }
    {
        let mut rest = tree.iter();
        let first = rest.next();
        Ahead { first, rest }
    }

    /// The first of them.
    pub(crate) fn first(&self) -> Option<&'a SharedEntry>
        ensures { option_copied result ≡ slice_get self.now 0 }
    {
        self.first
    }

    /// Goes past the first of them.
    pub(crate) fn pass(&mut self)
        requires { 0 < length self.old }
        ensures { self.new ≡ drop 1 self.old }
    {
        self.first = self.rest.next();
    }
}
