//! What was refused, with what explains it where that is asked for.
use pdtcli::{FileFault, Refusal, explain_opening, explain_recovery, plain_sentence};
use std::alloc::Global;
use values::NoMemory;

/// What explains a refusal.
#[derive(Drop)]
pub(crate) enum Explained {
    /// Nothing, since that wasn't asked for.
    Nothing,
    /// A sentence that is the same whatever was read.
    Plainly,
    /// This sentence.
    By(String),
}

impl Explained {
    /// What explains a refusal that no text is read for.
    pub(crate) fn plainly(explain: bool) -> Explained {
        if explain {
            Explained::Plainly
        } else {
            Explained::Nothing
        }
    }
}

/// A refusal, and what explains it.
#[derive(Drop)]
pub(crate) struct Refused {
    pub(crate) refusal: Refusal,
    explained: Explained,
}

impl Refused {
    pub(crate) fn new(explained: Explained, refusal: Refusal) -> Refused {
        Refused { refusal, explained }
    }

    /// The sentence to print behind the refusal's line; none where it isn't asked for.
    pub(crate) fn sentence(&self) -> Option<&str> {
        match &self.explained {
            Explained::Nothing => None,
            Explained::Plainly => Some(plain_sentence(self.refusal)),
            Explained::By(sentence) => Some(sentence.as_str()),
        }
    }
}

/// The refusal of a table and a script. Where there is no memory for a sentence of the text, a plain one explains it. What this takes
/// of the stack is free again before a run.
#[inline(never)]
pub(crate) fn explained_opening(
    explain: bool,
    alloc: Global,
    table: Result<&[u8], FileFault>,
    script: Result<&[u8], FileFault>,
    refusal: Refusal,
) -> Refused {
    if !explain {
        return Refused::new(Explained::Nothing, refusal);
    }
    told(refusal, explain_opening(alloc, table, script, refusal))
}

/// The refusal of a store, or of a table of a database, whose header is given.
#[inline(never)]
pub(crate) fn explained_recovery(
    explain: bool,
    alloc: Global,
    header: Result<&[u8], FileFault>,
    refusal: Refusal,
) -> Refused {
    if !explain {
        return Refused::new(Explained::Nothing, refusal);
    }
    told(refusal, explain_recovery(alloc, header, refusal))
}

/// The refusal, with a sentence that there may be no memory for.
fn told(refusal: Refusal, sentence: Result<String, NoMemory>) -> Refused {
    match sentence {
        Ok(sentence) => Refused::new(Explained::By(sentence), refusal),
        Err(NoMemory) => Refused::new(Explained::Plainly, refusal),
    }
}
