//! The type that names an opening.
use std::marker::Brand;
use std::sync::ledger::Ledger;

/// Which opening it is: the book of its published list and the manager that it took, and how many sessions it has. Its
/// ledger counts the commit replies.
pub trait Opening: Ledger {
    ghost use Rattle.std.specs.Prelude.{ℕ};
    ghost use Rattle.publishing.specs.Lists.{Opened};

    ghost opened: { Opened };

    ghost clients: { ℕ };
}

impl Opening for Brand {
    ghost use Rattle.publishing.specs.Lists.{no_manager};

    ghost opened = { record { book = record { number = 0; log_name = 0; cells_name = 0 }; manager = no_manager } };

    ghost clients = { 0 };
}
