//! A beginning of the published list, and the word that counts its items.
ghost use Rattle.std.specs.Prelude.{◌≡◌, ◌+◌, ◌<◌, ◌^◌, ◌++◌, ◌∷◌, ◌⊎◌, [], length, IfSome};
ghost use mathlib.Core.List.{IsPrefix};
ghost use Rattle.publishing.specs.Lists.{number_in, with_item};
ghost use Rattle.publishing.specs.Rules.{counter_of};

use crate::book::{Add, Counted, Nothing, OpeningFirst};
use crate::item::Item;
use crate::opening::Opening;
use logbook::{Offer, Pens, Seen, Start, Word};
use manager::Manager;
use std::marker::{Model, PhantomData};
use std::snapshot::Snapshot;

/// A beginning of the published list of an opening. Contracts see the items; the code keeps how many there are, and the
/// number of the newest commit.
#[derive(Drop)]
pub struct SeenList {
    items: u64,
    number: u64,
    seen: Seen<Item, u64, Counted>,
}

impl Model for SeenList {
    ghost use Rattle.std.specs.Prelude.{◌≡◌, ◌+◌, length};
    ghost use Rattle.publishing.specs.Lists.{Known, number_in, manager_in, items_in};

    ghost Value = { Known };

    ghost view = { λ s. record { opening = record { book = s.seen.book; manager = manager_in s.seen.log }; list = items_in s.seen.log } };

    ghost invariant = { λ s. (length s.seen.log ≡ s.items + 1) × (s.number ≡ number_in (manager_in s.seen.log) (items_in s.seen.log)) };
}

impl SeenList {
    /// How many items it has.
    pub fn len(&self) -> u64
        ensures { result ≡ length self.now.list }
    {
        self.items
    }

    /// The number of its newest commit.
    pub fn number(&self) -> u64
        ensures { result ≡ number_in self.now.opening.manager self.now.list }
    {
        self.number
    }

    /// The same list. Takes no memory.
    pub fn again(&self) -> SeenList
        ensures { result ≡ self.now }
    {
        SeenList {
            items: self.items,
            number: self.number,
            seen: self.seen.again(),
        }
    }

    /// The longer of two lists of one opening, which the other begins. Takes no memory.
    pub fn longer(&self, other: &SeenList) -> SeenList
        requires { other.now.opening ≡ self.now.opening }
        ensures opening { result.opening ≡ self.now.opening }
        ensures one { (result.list ≡ self.now.list) ⊎ (result.list ≡ other.now.list) }
        ensures this { IsPrefix self.now.list result.list }
        ensures that { IsPrefix other.now.list result.list }
    {
        let mut both = self.seen.again();
        both.learn(&other.seen);
        if self.items < other.items {
            other.again()
        } else {
            self.again()
        }
    }
}

/// The book of an opening that no type stands for yet.
#[derive(Drop)]
pub struct NewBook {
    counter: Word<Item, u64, Counted>,
    pub list: SeenList,
    ghost counter_is: { counter ≡ counter_of list.opening.book },
}

impl NewBook {
    /// A book whose list has no items yet, over what the manager holds.
    pub fn new(manager: &Manager) -> NewBook
        ensures list { result.list.list ≡ [] }
        ensures manager { result.list.opening.manager ≡ manager.now }
    {
        let opening = Item::Opens(Snapshot::of(manager));
        let (seen, mut pens): (Seen<Item, u64, Counted>, Pens) = Seen::open_row::<
            Item,
            OpeningFirst,
        >(&opening, Start::alone(), 1);
        NewBook {
            counter: Word::tracked(0, &mut pens.take()),
            list: SeenList {
                items: 0,
                number: manager.version().number(),
                seen,
            },
        }
    }

    /// The book under its name: its word, and the list with no items.
    pub fn named<O: Opening>(self) -> (ItemCounter<O>, SeenList)
        requires { self.list.opening ≡ O.opened }
        ensures { result.1 ≡ self.list }
    {
        let NewBook { counter, list } = self;
        (
            ItemCounter {
                counter,
                of: PhantomData,
            },
            list,
        )
    }
}

/// The word that counts the items of an opening's list.
#[derive(Drop)]
pub struct ItemCounter<O: Opening> {
    counter: Word<Item, u64, Counted>,
    of: PhantomData<O>,
}

impl<O: Opening> Model for ItemCounter<O> {
    ghost use Rattle.std.specs.Prelude.{◌≡◌};
    ghost use Rattle.publishing.specs.Rules.{counter_of};

    ghost Value = { Unit {0} };

    ghost view = { λ h. tt };

    ghost invariant = { λ h. h.counter ≡ counter_of O.opened.book };
}

impl<O: Opening> ItemCounter<O> {
    /// Adds an item behind all that was seen. It does not where the list is longer.
    pub fn add(&self, list: &SeenList, item: Item, number: u64) -> Option<SeenList>
        requires opening { list.now.opening ≡ O.opened }
        requires room { length list.now.list < 2 ^ 62 }
        requires number { number ≡ number_in O.opened.manager (list.now.list ++ item ∷ []) }
        ensures { IfSome result (λ longer. longer ≡ with_item list.now item) }
    {
        let mut seen = list.seen.again();
        let mut offer: Offer<Item, u64, Counted, Nothing> = seen.plain::<Nothing, Item, Add>(&item);
        let mut pen = seen.no_pen();
        let items = list.items;
        let found = self
            .counter
            .compare_exchange::<Add, Nothing>(items, items + 1, &mut seen, &mut offer, &mut pen);
        if found != items {
            return None;
        }
        Some(SeenList {
            items: items + 1,
            number,
            seen,
        })
    }
}
