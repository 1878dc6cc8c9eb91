//! The effects of a transaction, as an ordered map.
ghost use Rattle.std.specs.Prelude.{◌≡◌, [], length, IfOk, OnOk, OnErr, IsTrue};
ghost use Rattle.std.specs.Option.{option_copied};
ghost use Rattle.values.specs.Orders.{key_cmp};
ghost use Rattle.model.specs.Maps.{find, is_sorted, store, alter};
ghost use Rattle.model.specs.Effects.{all_fit};
ghost use Rattle.model.specs.Composition.{composed_effect, composed_effects};
ghost use Rattle.model.specs.Clashes.{clashes, conflicts};

use crate::effect::{clashes, composed_effect, copy_effect};
use crate::map::{put, store};
use model::{ConflictRule, Effect};
use std::alloc::Global;
use std::collections::BTreeMap;
use std::marker::Model;
use values::{Key, NoMemory};

/// What a transaction does to a table, seen by contracts as the list of each key with its effect, in ascending key.
#[derive(Drop)]
pub struct Effects {
    effects: BTreeMap<Key, Effect>,
    alloc: Global,
}

impl Model for Effects {
    ghost use Rattle.model.specs.Effects.{Effects as KeyedEffects};

    ghost Value = { KeyedEffects };

    ghost view = { λ e. e.effects.entries };
}

impl Effects {
    /// No effects. Takes no memory.
    pub fn new(alloc: Global) -> Effects
        ensures { result ≡ [] }
    {
        Effects {
            effects: BTreeMap::new(alloc),
            alloc,
        }
    }

    /// The map from key to effect.
    pub fn by_key(&self) -> &BTreeMap<Key, Effect>
        ensures { result.now.entries ≡ self.now }
    {
        &self.effects
    }

    /// The number of keys that are changed.
    pub fn len(&self) -> usize
        ensures count { result ≡ length self.now }
        ensures ascending { IsTrue (is_sorted key_cmp self.now) }
    {
        self.effects.len()
    }

    /// The effect on the key.
    pub fn get(&self, key: &Key) -> Option<&Effect>
        ensures { option_copied result ≡ find key_cmp key.now self.now }
    {
        self.effects.get(key)
    }

    /// Sets the effect on the key, or takes away what was there. On want of memory nothing changes.
    pub fn store(&mut self, key: Key, effect: Option<Effect>) -> Result<(), NoMemory>
        ensures ok { OnOk result (self.new ≡ store key_cmp key effect self.old) }
        ensures err { OnErr result (self.new ≡ self.old) }
    {
        store(&mut self.effects, key, effect)
    }

    /// Adds a later effect on the key. On want of memory nothing changes.
    pub fn compose(&mut self, key: &Key, later: &Effect) -> Result<(), NoMemory>
        ensures ok { OnOk result (self.new ≡ alter key_cmp key.now (composed_effect later.now) self.old) }
        ensures err { OnErr result (self.new ≡ self.old) }
    {
        let effect = composed_effect(self.alloc, later, self.get(key))?;
        self.store(key.copy()?, effect)
    }

    pub fn copy(&self) -> Result<Effects, NoMemory>
        ensures { IfOk result (λ copied. copied ≡ self.now) }
    {
        let mut copied = BTreeMap::new(self.alloc);
        for (key, effect) in self.by_key() {
            put(&mut copied, key.copy()?, copy_effect(self.alloc, effect)?)?;
        }
        Ok(Effects {
            effects: copied,
            alloc: self.alloc,
        })
    }

    /// These effects and then the later ones, as those of one transaction. Takes a copy and a change for each later one.
    pub fn composed(&self, later: &Effects) -> Result<Effects, NoMemory>
        ensures { IfOk result (λ composed. composed ≡ composed_effects self.now later.now) }
    {
        let mut composed = self.copy()?;
        for (key, effect) in later.by_key() {
            composed.compose(key, effect)?;
        }
        Ok(composed)
    }

    /// Whether two transactions can't both be kept by the rule: their effects on some key clash. Takes one search for each
    /// effect.
    pub fn conflicts(&self, rule: ConflictRule, other: &Effects) -> bool
        ensures { result ≡ conflicts rule self.now other.now }
    {
        self.by_key()
            .iter()
            .any(|(key, effect)| other.clash_at(rule, key, effect))
    }

    /// Whether an effect on the key clashes with what is done here.
    fn clash_at(&self, rule: ConflictRule, key: &Key, effect: &Effect) -> bool
        ensures { result ≡ clashes rule effect.now (find key_cmp key.now self.now) }
    {
        clashes(rule, effect, self.get(key))
    }
}
