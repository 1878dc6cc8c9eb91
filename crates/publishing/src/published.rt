//! What is published: the newest version, and the list that it stands for.
ghost use Rattle.std.specs.Prelude.{◌≡◌, ◌≤◌, IfOk, length};
ghost use Rattle.values.specs.declared.limits.TheConstants.{MAX_ROWS};
ghost use Rattle.publishing.specs.Lists.{shown_in, version_in};
ghost use Rattle.txn.specs.Version.{lower_table, table_version};

use crate::seen::SeenList;
use atomic_table::{Join, Split};
use crossbeam_utils::rule::{Outcome, Protocol};
use left_right::Absorb;
use manager::Manager;
use std::alloc::AllocError;
use std::marker::Model;
use txn::Version;
use values::NoMemory;

/// A version, and the published list whose last item it is. Contracts see that list.
#[derive(Drop)]
pub struct Published {
    version: Version,
    list: SeenList,
}

impl Model for Published {
    ghost use Rattle.std.specs.Prelude.{◌≡◌, ◌≤◌, length};
    ghost use Rattle.values.specs.declared.limits.TheConstants.{MAX_ROWS};
    ghost use Rattle.publishing.specs.Lists.{Known, shown_in, version_in};
    ghost use Rattle.txn.specs.Version.{lower_table, table_version};

    ghost Value = { Known };

    ghost view = { λ p. p.list };

    ghost invariant = { λ p.
        (table_version p.version ≡ version_in p.list.opening.manager p.list.list)
        × (length (lower_table p.version.layers) ≤ p.list.opening.manager.start.limit)
        × (p.version ≡ shown_in p.list.opening.manager p.list.list) };
}

impl Published {
    /// The version of this list, which is of its newest table, within the row limit.
    pub fn new(version: Version, list: SeenList) -> Published
        requires version { table_version version ≡ version_in list.opening.manager list.list }
        requires within { length (lower_table version.layers) ≤ list.opening.manager.start.limit }
        requires shown { version ≡ shown_in list.opening.manager list.list }
        ensures { result ≡ list }
    {
        Published { version, list }
    }

    /// The same, shared.
    ///
    /// # Errors
    ///
    /// `NoMemory` where one owner more is refused.
    pub fn copy(&self) -> Result<Published, NoMemory>
        ensures { IfOk result (λ copied. copied ≡ self.now) }
    {
        Ok(Published {
            version: self.version.copy()?,
            list: self.list.again(),
        })
    }

    /// The version, and its list.
    pub fn into_parts(self) -> (Version, SeenList)
        ensures list { result.1 ≡ self }
        ensures version { table_version result.0 ≡ version_in self.opening.manager self.list }
        ensures within { length (lower_table result.0.layers) ≤ self.opening.manager.start.limit }
        ensures shown { result.0 ≡ shown_in self.opening.manager self.list }
    {
        let Published { version, list } = self;
        (version, list)
    }
}

impl Absorb<Published> for Published {
    type State = SeenList;

    ghost state = { λ p. p };

    ghost applied = { λ known p. p };

    fn absorb_first(
        &mut self,
        operation: &Published,
        _other: &Published,
    ) -> Result<(), AllocError> {
        match operation.copy() {
            Ok(copy) => {
                *self = copy;
                Ok(())
            }
            Err(_) => Err(AllocError),
        }
    }

    fn absorb_second(&mut self, operation: Published, _other: &Published) -> Result<(), Published> {
        *self = operation;
        Ok(())
    }
}

/// What a reader has seen. No value of it is made.
pub type View = Option<SeenList>;

/// The rule: what is published begins with what each reader has seen.
pub struct Publishing;

impl Protocol<Published, View> for Publishing {
    ghost use Rattle.std.specs.Prelude.{None};
    ghost use Rattle.publishing.specs.Views.{AllBegin};

    ghost holds = { AllBegin };

    ghost first = { None };
}

/// A begin, and a publish.
pub struct Sees;

impl Outcome<Published, View> for Sees {
    ghost use Rattle.publishing.specs.Views.{SeesAll};

    ghost then = { SeesAll };
}

/// The writer tells all that it knows.
pub struct Notes;

impl Split<View> for Notes {
    ghost left = { λ v. v };

    ghost right = { λ v. v };
}

impl Join<View> for Notes {
    ghost use Rattle.std.specs.Prelude.{None};

    ghost both = { λ v w. w };

    ghost spent = { None };
}
