//! What publishes: the word that counts the items, the whole list, and the writer that shows it to the readers.
ghost use Rattle.std.specs.Prelude.{◌≡◌, ◌<◌, ◌≤◌, ◌^◌, ◌++◌, ◌∷◌, true, false, [], length, IfSome, IsSome, MatchResult, OnErr, OnOk, None, Some};
ghost use mathlib.Core.List.{IsPrefix};
ghost use Rattle.manager.specs.Managed.{IsOwn, cut_of, newest_number, newest_version, record_of, with_record};
ghost use Rattle.manager.specs.Prepared.{IsPrepared};
ghost use Rattle.publishing.specs.Lists.{IsCutAfter, IsListed, IsShownAgain, layered_version, number_in, version_in, version_of_item, with_item};
ghost use Rattle.publishing.specs.declared.item.Item.{Item};
ghost use Rattle.shared.specs.Stands.{IsGrown, IsShownAfter};
ghost use Rattle.txn.specs.Txn.{effects_of};
ghost use Rattle.txn.specs.Version.{lower_table, table_version};

use crate::laws::kept;
use left_right::writer::Writer;
use manager::{Manager, Prepared};
use publishing::{Item, ItemCounter, Opening, Published, Publishing, SeenList, Sees, View};
use std::marker::Model;
use std::snapshot::Snapshot;
use std::sync::Wait;
use txn::{Txn, Version};
use values::NoMemory;

/// How many items are published at most.
const MAX_ITEMS: u64 = (1 << 62) - 1;

/// The writer of what is published.
pub type VersionWriter = Writer<Published, Published, View, Publishing>;

/// What publishes the versions of an opening. Contracts see the items of its list, which is what the readers are shown.
pub struct Publisher<O: Opening> {
    counter: ItemCounter<O>,
    list: SeenList,
    /// Nothing only while it publishes.
    writer: Option<VersionWriter>,
}

impl<O: Opening> Model for Publisher<O> {
    ghost use Rattle.std.specs.Prelude.{◌≡◌, List, IfSome, IsSome};
    ghost use Rattle.publishing.specs.declared.item.Item.{Item};

    ghost Value = { List Item };

    ghost view = { λ p. p.list.list };

    ghost invariant = { λ p.
        (p.list.opening ≡ O.opened)
        × IsSome p.writer
        × IfSome p.writer (λ w. w.desk.shown.value ≡ p.list) };
}

/// Publishes a version with one item more, which says so. At `Err` the same is published as before.
fn publish<O: Opening, R: Wait>(
    rt: &R,
    counter: &ItemCounter<O>,
    list: &SeenList,
    mut writer: VersionWriter,
    version: Version,
    item: Item,
) -> (VersionWriter, Result<SeenList, NoMemory>)
    requires shown { writer.desk.shown.value ≡ list.now }
    requires opening { list.now.opening ≡ O.opened }
    requires version { table_version version ≡ version_in O.opened.manager (list.now.list ++ item ∷ []) }
    requires within { length (lower_table version.layers) ≤ O.opened.manager.start.limit }
    requires room { length list.now.list < 2 ^ 62 }
    requires item { version ≡ version_of_item item }
    ensures { MatchResult result.1 (λ next. (next ≡ with_item list.now item) × (result.0.desk.shown.value ≡ next))
        (λ _. result.0.desk.shown.value ≡ list.now) }
{
    let Some(next) = counter.add(list, item, version.number()) else {
        return (writer, Err(NoMemory));
    };
    let operation = Published::new(version, next.again());
    let Ok(()) = writer.append(operation) else {
        return (writer, Err(NoMemory));
    };
    match writer.publish_as::<Sees, R>(rt) {
        (writer, Ok(())) => (writer, Ok(next)),
        (writer, Err(_)) => (writer, Err(NoMemory)),
    }
}

/// Puts the writer back.
fn put_back(place: &mut Option<VersionWriter>, writer: VersionWriter)
    requires { place.old ≡ None }
    ensures { place.new ≡ Some writer }
{
    match place.replace(writer) {
        None => {}
        Some(_) => unreachable!(),
    }
}

impl<O: Opening> Publisher<O> {
    /// The publisher of a list that its writer shows.
    pub fn new(counter: ItemCounter<O>, list: SeenList, writer: VersionWriter) -> Publisher<O>
        requires opening { list.opening ≡ O.opened }
        requires shown { writer.desk.shown.value ≡ list }
        ensures { result ≡ list.list }
    {
        Publisher {
            counter,
            list,
            writer: Some(writer),
        }
    }

    /// The whole list. Takes no memory.
    pub fn list(&self) -> SeenList
        ensures list { result.list ≡ self.now }
        ensures opening { result.opening ≡ O.opened }
    {
        self.list.again()
    }

    /// Whether a session has seen more commits than the list has.
    pub fn is_behind(&self, seen: &SeenList) -> bool
        requires { seen.now.opening ≡ O.opened }
        ensures yes { result ≡ true → number_in O.opened.manager self.now < number_in O.opened.manager seen.now.list }
        ensures no { result ≡ false → number_in O.opened.manager seen.now.list ≤ number_in O.opened.manager self.now }
    {
        seen.number() > self.list.number()
    }

    /// The longer of what a session has seen and the list, which the other begins. Takes no memory.
    pub fn longer(&self, seen: &SeenList) -> SeenList
        requires { seen.now.opening ≡ O.opened }
        ensures opening { result.opening ≡ O.opened }
        ensures this { IsPrefix seen.now.list result.list }
        ensures that { IsPrefix self.now result.list }
    {
        seen.longer(&self.list)
    }

    /// Publishes an item, and keeps the longer list. At `Err` nothing changes.
    fn show<R: Wait>(&mut self, rt: &R, version: Version, item: Item) -> Result<(), NoMemory>
        requires version { table_version version ≡ version_in O.opened.manager (self.old ++ item ∷ []) }
        requires within { length (lower_table version.layers) ≤ O.opened.manager.start.limit }
        requires item { version ≡ version_of_item item }
        ensures { MatchResult result (λ _. self.new ≡ self.old ++ item ∷ []) (λ _. self.new ≡ self.old) }
    {
        if self.list.len() >= MAX_ITEMS {
            return Err(NoMemory);
        }
        let writer = self.writer.take().unwrap();
        match publish(rt, &self.counter, &self.list, writer, version, item) {
            (writer, Ok(next)) => {
                put_back(&mut self.writer, writer);
                self.list = next;
                Ok(())
            }
            (writer, Err(fault)) => {
                put_back(&mut self.writer, writer);
                Err(fault)
            }
        }
    }

    /// Publishes what a commit has prepared, where it is granted. At `Err` nothing changes.
    pub fn show_commit<R: Wait>(
        &mut self,
        rt: &R,
        manager: &Manager,
        txn: &Txn,
        prepared: &Prepared,
    ) -> Result<(), NoMemory>
        requires listed { IsListed O.opened.manager self.old manager.now }
        requires own { IsOwn manager.now txn.now }
        requires prepared { IsPrepared manager.now txn.now prepared.now }
        ensures listed { OnOk result (IsListed O.opened.manager self.new (with_record manager.now (record_of txn.now prepared.now.reply))) }
        ensures grown { OnOk result (IsGrown self.old self.new txn.now prepared.now.reply) }
        ensures shown { OnOk result (IsShownAfter O.opened.manager manager.now.layers (effects_of txn.now) prepared.now.reply self.new) }
        ensures err { OnErr result (self.new ≡ self.old) }
    {
        kept(manager);
        // What the transaction keeps is wanted in the proof alone.
        let _ = txn.begin();
        let Some(version) = prepared.version() else {
            return Ok(());
        };
        let copy = version.copy()?;
        let shown = Snapshot::of(&copy);
        let item = Item::Commits(Snapshot::of(txn), shown);
        self.show(rt, copy, item)
    }

    /// Publishes this version, which is the newest one under other layers. At `Err` nothing changes.
    pub fn show_same<R: Wait>(
        &mut self,
        rt: &R,
        manager: &Manager,
        version: &Version,
    ) -> Result<(), NoMemory>
        requires listed { IsListed O.opened.manager self.old manager.now }
        requires version { table_version version.now ≡ newest_version manager.now }
        ensures list { MatchResult result (λ _. IsShownAgain self.old version.now self.new) (λ _. self.new ≡ self.old) }
        ensures listed { IsListed O.opened.manager self.new manager.now }
    {
        kept(manager);
        let copy = version.copy()?;
        let shown = Snapshot::of(&copy);
        self.show(rt, copy, Item::Same(shown))
    }

    /// Publishes the newest version as the one that the next history starts at. At `Err` nothing changes.
    pub fn show_cut<R: Wait>(&mut self, rt: &R, manager: &Manager) -> Result<(), NoMemory>
        requires { IsListed O.opened.manager self.old manager.now }
        ensures list { MatchResult result (λ _. IsCutAfter self.old (newest_number manager.now) (layered_version manager.now) self.new)
            (λ _. self.new ≡ self.old) }
        ensures listed { OnOk result (IsListed O.opened.manager self.new (cut_of manager.now)) }
    {
        kept(manager);
        let version = manager.version().copy()?;
        let base = version.number();
        let shown = Snapshot::of(&version);
        self.show(rt, version, Item::Cuts(base, shown))
    }

    /// Takes the writer away, and gives the whole list. Readers find nothing from now on.
    pub fn close<R: Wait>(self, rt: &R) -> SeenList
        ensures list { result.list ≡ self }
        ensures opening { result.opening ≡ O.opened }
    {
        let Publisher {
            counter: _counter,
            list,
            writer,
        } = self;
        writer.unwrap().take(rt);
        list
    }
}
