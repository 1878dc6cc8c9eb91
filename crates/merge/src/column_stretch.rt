//! Values of one column that come from one place.
ghost use Rattle.std.specs.Prelude.{◌≡◌};
ghost use Rattle.merge.specs.ColumnStretches.{IsColumnStretch, value_count};

use crate::stretch::StableStretch;
use values::ValueRef;

/// The next values of one column of an image.
#[derive(Clone, Copy)]
pub(crate) enum ColumnStretch<'a> {
    /// Those of stable rows. Layers may modify other columns of these rows.
    Stable(StableStretch<'a>),
    /// One that a layer gives.
    Value(ValueRef<'a>),
}

impl<'a> ColumnStretch<'a> {
    /// How many values there are.
    #[inline(always)]
    pub(crate) fn count(&self) -> u64
        requires { IsColumnStretch self.now }
        ensures { result ≡ value_count self.now }
    {
        match self {
            ColumnStretch::Stable(stretch) => stretch.len,
            ColumnStretch::Value(_) => 1,
        }
    }
}
