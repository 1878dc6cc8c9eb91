//! How far the entries of a block have moved since their own SIDs were written.
ghost use Rattle.std.specs.Prelude.{◌≡◌, true, ◌+◌, ◌-◌, ◌<◌, ◌≤◌, ◌^◌, IfSome, map};
ghost use Rattle.std.specs.List.{All};
ghost use Rattle.model.specs.declared.entry.Entry.{Entry};
ghost use Rattle.layers.specs.Held.{moved_by};
ghost use Rattle.layers.specs.Shifts.{no_shift, shifted_by};

use delta::SharedEntry;

/// So many rows down, and then so many up.
#[derive(Clone, Copy)]
pub(crate) struct Shift {
    pub(crate) down: u64,
    pub(crate) up: u64,
}

impl Shift {
    /// No row down and none up.
    pub(crate) const fn none() -> Shift
        ensures { result ≡ no_shift }
    {
        Shift { down: 0, up: 0 }
    }

    /// What so many rows up and so many down come to.
    pub(crate) fn net(added: u64, gone: u64) -> Shift
        ensures moved { (e : Entry) → shifted_by result e ≡ moved_by added gone e }
        ensures few { result.up + result.down ≤ added + gone }
    {
        Shift {
            down: gone.saturating_sub(added),
            up: added.saturating_sub(gone),
        }
    }

    /// Whether it moves no entry.
    pub(crate) fn is_none(self) -> bool
        ensures { result ≡ true → self ≡ no_shift }
    {
        self.down == 0 && self.up == 0
    }

    /// This one and then the other, where their numbers have room.
    pub(crate) fn then(self, next: Shift) -> Option<Shift>
        ensures { IfSome result (λ both. (e : Entry) → shifted_by both e ≡ shifted_by next (shifted_by self e)) }
    {
        let down = self.down.checked_add(next.down.saturating_sub(self.up))?;
        let up = self.up.saturating_sub(next.down).checked_add(next.up)?;
        Some(Shift { down, up })
    }
}

/// Moves each of the entries.
pub(crate) fn move_all(entries: &mut [SharedEntry], shift: Shift)
    requires { All (λ e. (shifted_by shift e).sid < 2 ^ 64) entries.old }
    ensures { entries.new ≡ map (shifted_by shift) entries.old }
{
    for entry in entries.iter_mut() {
        let sid = entry.sid().saturating_sub(shift.down) + shift.up;
        entry.move_to(sid);
    }
}
