//! The cut of a history: its records are handed out, and numbers go on. And what goes before it: the trees of its older commits.
ghost use Rattle.std.specs.Prelude.{◌≡◌, ◌≤◌, ◌++◌, [], IfOk, drop, length, take};
ghost use Rattle.circular_buffer.specs.Buffer.{buffer};
ghost use Rattle.txn.specs.Txn.{Transaction};

use crate::history::History;
use crate::manager::Manager;
use circular_buffer::HeapCircularBuffer;
use delta::DeltaTree;
use std::alloc::Global;
use std::mem;
use values::NoMemory;

/// The trees of a manager's last commits, or room for them.
#[derive(Drop)]
pub struct KeptTrees {
    pub(crate) trees: HeapCircularBuffer<DeltaTree>,
}

impl KeptTrees {
    /// Room for the trees of so many commits.
    ///
    /// # Errors
    ///
    /// `NoMemory` where a growth is refused.
    pub fn room(alloc: Global, recent: usize) -> Result<KeptTrees, NoMemory>
        ensures { IfOk result (λ room. room.trees ≡ buffer [] recent) }
    {
        Ok(KeptTrees {
            trees: HeapCircularBuffer::with_capacity(alloc, recent)?,
        })
    }
}

impl Manager {
    ghost use Rattle.manager.specs.Kept.{kept_trees};
    ghost use Rattle.manager.specs.Managed.{history_of, cut_of, cut_to_of, IsOwn};

    /// Hands out the history so far, and starts another at the newest version: numbers of commits go on from there, and a
    /// transaction that began below it comes too late. Neither the table nor an open transaction changes. Takes no
    /// memory, and the time that dropping the trees of the last commits takes.
    pub fn cut(&mut self) -> History
        ensures handed { result ≡ history_of self.old }
        ensures next { self.new ≡ cut_of self.old }
        ensures own { (txn : Transaction) → IsOwn self.old txn → IsOwn self.new txn }
    {
        let next = self.history.next(self.alloc, &self.newest);
        self.kept.clear();
        mem::replace(&mut self.history, next)
    }

    /// Cuts as `cut` does, in constant time: the room becomes the place of the trees to come, and has those of the last
    /// commits then. Takes no memory.
    pub fn cut_into(&mut self, room: &mut KeptTrees) -> History
        requires room { room.old.trees ≡ buffer [] self.old.start.recent }
        ensures handed { result ≡ history_of self.old }
        ensures trees { room.new.trees ≡ buffer (kept_trees self.old) self.old.start.recent }
        ensures next { self.new ≡ cut_of self.old }
        ensures own { (txn : Transaction) → IsOwn self.old txn → IsOwn self.new txn }
    {
        let next = self.history.next(self.alloc, &self.newest);
        mem::swap(&mut self.kept, &mut room.trees);
        mem::replace(&mut self.history, next)
    }

    /// Lets go of the trees of the commits up to this number, or of all of them where it is above the newest: a transaction that began
    /// below it isn't decided any more, and any other is decided as before. Nothing changes where the floor is there already. The
    /// history and its start stay. The trees go into the room, in the time that moving them takes. Takes no memory, and frees none.
    pub fn cut_to(&mut self, number: u64, room: &mut KeptTrees)
        requires room { room.old.trees ≡ buffer [] self.old.start.recent }
        ensures next { self.new ≡ cut_to_of number self.old }

        // What is handed out stood before what is left.
        ensures trees { room.new.trees.items ++ kept_trees self.new ≡ kept_trees self.old }
        ensures room { room.new.trees.capacity ≡ self.old.start.recent }
        ensures own { (txn : Transaction) → IsOwn self.old txn → IsOwn self.new txn }
    {
        if number <= self.history.floor() {
            return;
        }
        let newest = self.newest.number();
        let floor = number.min(newest);
        let count = self.kept.len();
        let left = count.min((newest - floor) as usize);
        move_front(&mut self.kept, &mut room.trees, count - left);
        self.history.raise(floor);
    }
}

/// Moves the first items of a buffer into an empty one of the same capacity.
fn move_front(
    from: &mut HeapCircularBuffer<DeltaTree>,
    to: &mut HeapCircularBuffer<DeltaTree>,
    count: usize,
)
    requires few { count ≤ length from.old.items }
    requires empty { to.old ≡ buffer [] from.old.capacity }
    requires room { count ≤ from.old.capacity }
    ensures moved { to.new ≡ buffer (take count from.old.items) to.old.capacity }
    ensures left { from.new ≡ buffer (drop count from.old.items) from.old.capacity }
{
    for moved in 0..count {
        let tree = from.pop_front().unwrap();
        to.push_back(tree);
    }
}
