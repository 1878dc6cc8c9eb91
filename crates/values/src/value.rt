//! A cell of a row, owned or lent, and its order.
ghost use Rattle.std.specs.Prelude.{◌≡◌, false, IfOk, IsOk, refl};
ghost use Rattle.std.specs.Cmp.{eq_by_cmp_equiv, partial_equiv_from_equiv, po, on_per, on_equiv, on_po, on_total};
ghost use Rattle.std.specs.Ordering.{eq_by_cmp, as_partial_cmp};
ghost use Rattle.values.specs.Orders.{value_cmp, value_cmp_total};
ghost use Rattle.values.specs.Lent.{value_of};
ghost use Rattle.values.specs.Shape.{is_text};

use crate::fault::NoMemory;
use crate::text::Text;
use std::alloc::Global;
use std::cmp::Ordering;

/// The type of a column.
#[derive(Clone, Copy, Debug, PartialEq, Eq)]
pub enum ColumnType {
    Int,
    Text,
    Bool,
}

/// A cell. Numbers are ordered by size, texts by their bytes, false before true, and cells of different types by the order
/// of the variants.
#[derive(Debug, Drop)]
pub enum Value {
    Int(i64),
    Text(Text),
    Bool(bool),
}

/// A cell that is lent, ordered as the cell is. It is as cheap to copy as a `&str`.
#[derive(Clone, Copy, Debug)]
pub enum ValueRef<'a> {
    Int(i64),
    Text(&'a str),
    Bool(bool),
}

impl Value {
    /// The value, lent.
    pub fn as_ref(&self) -> ValueRef<'_>
        ensures { value_of result ≡ self.now }
    {
        match self {
            Value::Int(number) => ValueRef::Int(*number),
            Value::Text(text) => ValueRef::Text(text.as_str()),
            Value::Bool(truth) => ValueRef::Bool(*truth),
        }
    }

    /// The same value, in memory of its own. Only a text takes memory.
    ///
    /// # Errors
    ///
    /// `NoMemory` where a growth is refused.
    pub fn copy(&self) -> Result<Value, NoMemory>
        ensures same { IfOk result (λ copied. copied ≡ self.now) }
        ensures inline { is_text self.now ≡ false → IsOk result }
    {
        match self {
            Value::Int(number) => Ok(Value::Int(*number)),
            Value::Text(text) => Ok(Value::Text(text.copy()?)),
            Value::Bool(truth) => Ok(Value::Bool(*truth)),
        }
    }
}

impl<'a> ValueRef<'a> {
    /// The value that is lent, in memory of its own. Only a text takes memory.
    ///
    /// # Errors
    ///
    /// `NoMemory` where a growth is refused.
    pub fn copy(&self, alloc: Global) -> Result<Value, NoMemory>
        ensures same { IfOk result (λ copied. copied ≡ value_of self.now) }
        ensures inline { is_text (value_of self.now) ≡ false → IsOk result }
    {
        match self {
            ValueRef::Int(number) => Ok(Value::Int(*number)),
            ValueRef::Text(text) => Ok(Value::Text(Text::new(String::from_str(alloc, text)?))),
            ValueRef::Bool(truth) => Ok(Value::Bool(*truth)),
        }
    }
}

/// The values, copied.
pub(crate) fn copy_values(alloc: Global, values: &[Value]) -> Result<Vec<Value>, NoMemory>
    ensures { IfOk result (λ copies. copies.items ≡ values.now) }
{
    let mut copies = Vec::with_capacity(alloc, values.len())?;
    for value in values {
        copies.push(value.copy()?)?;
    }
    Ok(copies)
}

impl PartialEq for Value {
    ghost eq = { eq_by_cmp value_cmp };

    ghost laws = { partial_equiv_from_equiv (eq_by_cmp_equiv value_cmp_total) };

    fn eq(&self, other: &Value) -> bool {
        self.cmp(other).is_eq()
    }
}

impl Eq for Value {
    ghost laws = { eq_by_cmp_equiv value_cmp_total };
}

impl PartialOrd for Value {
    ghost partial_cmp = { as_partial_cmp value_cmp };

    ghost laws = { po value_cmp_total (λ x y. refl) };

    fn partial_cmp(&self, other: &Value) -> Option<Ordering> {
        Some(self.cmp(other))
    }
}

impl Ord for Value {
    ghost cmp = { value_cmp };

    ghost total = { value_cmp_total };

    ghost matches_partial_cmp = { λ x y. refl };

    ghost matches_eq = { λ x y. refl };

    fn cmp(&self, other: &Value) -> Ordering {
        self.as_ref().cmp(&other.as_ref())
    }
}

impl<'a> PartialEq for ValueRef<'a> {
    ghost eq = { λ x y. eq_by_cmp value_cmp (value_of x) (value_of y) };

    ghost laws = { on_per value_of (partial_equiv_from_equiv (eq_by_cmp_equiv value_cmp_total)) };

    fn eq(&self, other: &ValueRef<'a>) -> bool {
        self.cmp(other).is_eq()
    }
}

impl<'a> Eq for ValueRef<'a> {
    ghost laws = { on_equiv value_of (eq_by_cmp_equiv value_cmp_total) };
}

impl<'a> PartialOrd for ValueRef<'a> {
    ghost partial_cmp = { λ x y. as_partial_cmp value_cmp (value_of x) (value_of y) };

    ghost laws = { on_po value_of (po value_cmp_total (λ x y. refl)) };

    fn partial_cmp(&self, other: &ValueRef<'a>) -> Option<Ordering> {
        Some(self.cmp(other))
    }
}

impl<'a> Ord for ValueRef<'a> {
    ghost cmp = { λ x y. value_cmp (value_of x) (value_of y) };

    ghost total = { on_total value_of value_cmp_total };

    ghost matches_partial_cmp = { λ x y. refl };

    ghost matches_eq = { λ x y. refl };

    fn cmp(&self, other: &ValueRef<'a>) -> Ordering {
        match (self, other) {
            (ValueRef::Int(x), ValueRef::Int(y)) => x.cmp(y),
            (ValueRef::Text(x), ValueRef::Text(y)) => x.cmp(y),
            (ValueRef::Bool(x), ValueRef::Bool(y)) => x.cmp(y),
            (ValueRef::Int(_), _) => Ordering::Less,
            (ValueRef::Text(_), ValueRef::Bool(_)) => Ordering::Less,
            _ => Ordering::Greater,
        }
    }
}
