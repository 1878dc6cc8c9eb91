//! What one session tells another.
ghost use Rattle.std.specs.Prelude.{◌≡◌};

use publishing::{Opening, SeenList};
use std::marker::PhantomData;

/// What a session was told at a commit reply: the list that was published then. Another session of the opening takes it in.
#[derive(Drop)]
pub struct Told<O: Opening> {
    pub list: SeenList,
    of: PhantomData<O>,
    ghost opening: { list.opening ≡ O.opened },
}

impl<O: Opening> Told<O> {
    pub(crate) fn of(list: SeenList) -> Told<O>
        requires { list.opening ≡ O.opened }
        ensures { result.list ≡ list }
    {
        Told {
            list,
            of: PhantomData,
        }
    }

    pub(crate) fn into_list(self) -> SeenList
        ensures list { result ≡ self.list }
        ensures opening { result.opening ≡ O.opened }
    {
        let Told { list, of: _ } = self;
        list
    }
}
