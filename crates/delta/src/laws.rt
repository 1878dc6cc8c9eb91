//! The laws of the lists that trees hold, each the contract of a function that does nothing. A caller who needs one
//! calls it.
ghost use Rattle.std.specs.Prelude.{ℕ};
ghost use Rattle.values.specs.Shape.{Columns};
ghost use Rattle.delta.specs.Laws.{InsertsAscendAtASid, CanonicalLookUps, AWriteIsOneCall};

/// At one SID of a lawful list the inserts ascend by key, and there is one delete at most, with no modify beside it.
pub fn inserts_ascend_at_a_sid()
    ensures { (key_cols : ℕ) → InsertsAscendAtASid key_cols }
{}

/// At a key's place in the entries of effects, an insert of the key is found just where its effect inserts a row, and a
/// delete just where it deletes one. So a transaction knows its own effect on a key, and which change its write makes.
pub fn canonical_look_ups()
    ensures { (schema : Columns) → CanonicalLookUps schema }
{}

/// A write that is done meets what the one call asks for that makes its edit of the transaction's entries. Which call
/// that is, `model::write_edits` says.
pub fn a_write_is_one_call()
    ensures { (schema : Columns) → AWriteIsOneCall schema }
{}
