//! The writes of a transaction over its snapshot.
ghost use Rattle.std.specs.Prelude.{◌≡◌, ℕ, ◌∷◌, [], map, IfOk, OnOk, OnErr};
ghost use Rattle.model.specs.Writes.{key_of_write, effect_of_write, is_done};
ghost use Rattle.model.specs.Writes.{reply_to, effects_after, replies_to, effects_after_all};
ghost use Rattle.model.specs.Table.{Table};
ghost use Rattle.model.specs.Maps.{alter};
ghost use Rattle.model.specs.Composition.{composed_effect};
ghost use Rattle.values.specs.Orders.{key_cmp};
ghost use Rattle.oracle.specs.Replay.{AreAnswered, GotDueReplies, effects_when_all};

use crate::effect::copy_values;
use crate::effects::Effects;
use crate::table::OrderedTable;
use model::{Cells, Effect, Write, WriteReply, is_done, key_of_write, reply_where};
use std::alloc::Global;
use std::collections::BTreeMap;
use values::{Key, NoMemory};

impl OrderedTable {
    /// The reply to a write after these effects, where a table may have `limit` rows. Takes a copy of the table.
    pub fn reply_to(
        &self,
        key_cols: usize,
        limit: u64,
        effects: &Effects,
        write: &Write,
    ) -> Result<WriteReply, NoMemory>
        ensures { IfOk result (λ reply. reply
            ≡ reply_to key_cols limit self.now effects.now write.now) }
    {
        let image = self.with(effects)?;
        let key = written_key(self.alloc, key_cols, write)?;
        let there = image.row_at(&key).is_some();
        Ok(reply_where(limit, there, image.len() as u64, write))
    }

    /// Answers a write, and adds what it does to the effects. On want of memory they stay.
    pub fn write(
        &self,
        key_cols: usize,
        limit: u64,
        effects: &mut Effects,
        write: &Write,
    ) -> Result<WriteReply, NoMemory>
        ensures reply { IfOk result (λ reply. reply
            ≡ reply_to key_cols limit self.now effects.old write.now) }
        ensures ok { OnOk result (effects.new
            ≡ effects_after key_cols limit self.now effects.old write.now) }
        ensures err { OnErr result (effects.new ≡ effects.old) }
    {
        let reply = self.reply_to(key_cols, limit, effects, write)?;
        if is_done(reply) {
            add_write(self.alloc, key_cols, effects, write)?;
        }
        Ok(reply)
    }

    /// Answers writes in order. On want of memory the effects stay.
    pub fn write_all(
        &self,
        key_cols: usize,
        limit: u64,
        effects: &mut Effects,
        writes: &[Write],
    ) -> Result<Vec<WriteReply>, NoMemory>
        ensures replies { IfOk result (λ replies. replies.items
            ≡ replies_to key_cols limit self.now effects.old writes.now) }
        ensures ok { OnOk result (effects.new
            ≡ effects_after_all key_cols limit self.now effects.old writes.now) }
        ensures err { OnErr result (effects.new ≡ effects.old) }
    {
        let mut after = effects.copy()?;
        let mut replies = Vec::new(self.alloc);
        for write in writes {
            replies.push(self.write(key_cols, limit, &mut after, write)?)?;
        }
        *effects = after;
        Ok(replies)
    }

    /// The effects of the writes, where each got the reply that is due.
    pub fn answered_effects(
        &self,
        key_cols: usize,
        limit: u64,
        writes: &[(Write, WriteReply)],
    ) -> Result<Option<Effects>, NoMemory>
        ensures { IfOk result (λ found. AreAnswered key_cols limit self.now writes.now found) }
    {
        let mut effects = Effects::new(self.alloc);
        for (write, reply) in writes {
            if self.write(key_cols, limit, &mut effects, write)? != *reply {
                return Ok(None);
            }
        }
        Ok(Some(effects))
    }
}

/// What the writes that were done do, in order, where each got this reply. Takes a search and a copy for each.
pub fn effects_of_writes(
    alloc: Global,
    key_cols: usize,
    writes: &[(Write, WriteReply)],
) -> Result<Effects, NoMemory>
    ensures told { IfOk result (λ effects. effects ≡ effects_when_all key_cols [] writes.now) }
    ensures due { IfOk result (λ effects. (limit : ℕ) (t : Table)
        → GotDueReplies key_cols limit t [] writes.now
        → effects ≡ effects_after_all key_cols limit t [] (map (λ w. w.0) writes.now)) }
{
    let mut effects = Effects::new(alloc);
    for (write, reply) in writes {
        if is_done(*reply) {
            add_write(alloc, key_cols, &mut effects, write)?;
        }
    }
    Ok(effects)
}

/// Adds what a write that is done does to its key. On want of memory the effects stay.
fn add_write(
    alloc: Global,
    key_cols: usize,
    effects: &mut Effects,
    write: &Write,
) -> Result<(), NoMemory>
    ensures ok { OnOk result (effects.new ≡ alter key_cmp (key_of_write key_cols write.now)
        (composed_effect (effect_of_write write.now)) effects.old) }
    ensures err { OnErr result (effects.new ≡ effects.old) }
{
    let key = written_key(alloc, key_cols, write)?;
    let effect = effect_of_write(alloc, write)?;
    effects.compose(&key, &effect)
}

/// The key that a write is about, copied.
fn written_key(alloc: Global, key_cols: usize, write: &Write) -> Result<Key, NoMemory>
    ensures { IfOk result (λ key. key ≡ key_of_write key_cols write.now) }
{
    Ok(Key::new(copy_values(alloc, key_of_write(key_cols, write))?))
}

/// What a write does to its key where it is done.
fn effect_of_write(alloc: Global, write: &Write) -> Result<Effect, NoMemory>
    ensures { IfOk result (λ effect. effect ≡ effect_of_write write.now) }
{
    match write {
        Write::Insert(row) => Ok(Effect::Ins(row.copy()?)),
        Write::Delete(_) => Ok(Effect::Del),
        Write::Set(_, col, value) => {
            let mut cells = BTreeMap::new(alloc);
            cells.insert(*col, value.copy()?)?;
            Ok(Effect::Mod(Cells::new(cells)))
        }
    }
}
