//! The calls that a run has still to make.
ghost use Rattle.std.specs.Prelude.{◌≡◌, ◌∷◌, [], IfNone, IfSome, length};

use inputs::ClientCall;
use std::marker::Model;

/// After so many calls the memory of those that were made is given back.
const CALLS_AT_ONCE: usize = 4_096;

/// The calls that are left, in their order. Contracts see them as a list.
#[derive(Drop)]
pub struct CallQueue {
    /// The next one stands last, so that what was taken is room behind the others.
    reversed: Vec<ClientCall>,
}

impl Model for CallQueue {
    ghost use Rattle.std.specs.Prelude.{List, reverse};
    ghost use Rattle.inputs.specs.declared.call.ClientCall.{ClientCall as Asked};

    ghost Value = { List Asked };

    ghost view = { λ q. reverse q.reversed.items };
}

impl CallQueue {
    /// All of these calls. It takes no memory.
    pub fn of(calls: Vec<ClientCall>) -> CallQueue
        ensures { result ≡ calls.items }
    {
        let mut reversed = calls;
        reversed.reverse();
        CallQueue { reversed }
    }

    /// How many are left.
    pub fn len(&self) -> usize
        ensures { result ≡ length self.now }
    {
        self.reversed.len()
    }

    /// Takes the next call.
    pub fn next(&mut self) -> Option<ClientCall>
        ensures some { IfSome result (λ asked. self.old ≡ asked ∷ self.new) }
        ensures none { IfNone result (self.old ≡ []) }
    {
        let asked = self.reversed.pop()?;
        if self.reversed.len() % CALLS_AT_ONCE == 0 {
            self.reversed.shrink_to(0);
        }
        Some(asked)
    }
}
