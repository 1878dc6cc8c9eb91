//! The book of a published list: its rule, and its one step.
use crate::item::Item;
use logbook::{Gain, Opening as Begin, Plain, Play, Rule};

/// The rule of the book: its one word is the number of items after the opening.
pub struct Counted;

impl Rule<Item, u64> for Counted {
    ghost use Rattle.std.specs.Prelude.{[]};
    ghost use base.Fml.{ftrue};
    ghost use Rattle.publishing.specs.Rules.{IsCounted};

    ghost holds = { λ cells list. IsCounted cells list };

    ghost first = { [] };

    ghost hinted = { λ n list. Unit {0} };

    ghost shows = { λ list. [] };

    ghost keeps = { λ names list. ftrue };

    ghost moves = { λ ask before after answer. Unit {0} };
}

/// The book begins with the opening.
pub(crate) struct OpeningFirst;

impl Begin<Item, Item> for OpeningFirst {
    ghost use Rattle.std.specs.Prelude.{[], ◌∷◌};

    ghost log = { λ count opening. opening ∷ [] };
}

/// Callers trade nothing.
pub(crate) struct Nothing;

impl Gain<Item, u64> for Nothing {
    ghost use base.Fml.{ftrue};

    ghost after = { λ names about answer. ftrue };
}

/// A step that adds an item.
pub(crate) struct Add;

impl Play<Item, u64> for Add {
    ghost use Rattle.publishing.specs.Rules.{Adds};

    ghost then = { Adds };
}

impl Plain<Item, Item, u64> for Add {
    ghost use Rattle.std.specs.Prelude.{None};

    ghost ask = { λ item. item };

    ghost state = { λ item. None };
}
