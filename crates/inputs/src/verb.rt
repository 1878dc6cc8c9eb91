//! The verbs of a script: their words, and how many arguments each wants.
ghost use Rattle.std.specs.Prelude.{◌≡◌, ◌≤◌};
ghost use Rattle.inputs.specs.Calls.{arguments_of, verb_of, verb_word};

use values::Schema;

/// A verb that there is.
#[derive(Clone, Copy, Debug, PartialEq, Eq)]
pub enum Verb {
    Begin,
    Insert,
    Delete,
    Set,
    Get,
    At,
    Rank,
    Len,
    Scan,
    Commit,
    Abort,
    Fold,
    Checkpoint,
    Cut,
}

/// Every verb, once: those that a script has most of are first, since a word is sought from the start.
const VERBS: [Verb; 14] = [
    Verb::Set,
    Verb::Begin,
    Verb::Commit,
    Verb::Insert,
    Verb::Get,
    Verb::Delete,
    Verb::Scan,
    Verb::At,
    Verb::Rank,
    Verb::Len,
    Verb::Abort,
    Verb::Fold,
    Verb::Checkpoint,
    Verb::Cut,
];

impl Verb {
    /// The word by which a script asks for the verb, and a reply line names it.
    pub fn word(self) -> &'static str
        ensures { result.now ≡ verb_word self }
    {
        match self {
            Verb::Begin => "begin",
            Verb::Insert => "insert",
            Verb::Delete => "delete",
            Verb::Set => "set",
            Verb::Get => "get",
            Verb::At => "at",
            Verb::Rank => "rank",
            Verb::Len => "len",
            Verb::Scan => "scan",
            Verb::Commit => "commit",
            Verb::Abort => "abort",
            Verb::Fold => "fold",
            Verb::Checkpoint => "checkpoint",
            Verb::Cut => "cut",
        }
    }
}

/// The verb of this word.
pub fn read_verb(word: &[u8]) -> Option<Verb>
    ensures { result ≡ verb_of word.now }
{
    VERBS
        .iter()
        .copied()
        .find(|verb| verb.word().as_bytes() == word)
}

/// How many arguments the verb wants.
pub fn count_arguments(schema: &Schema, verb: Verb) -> usize
    ensures count { result ≡ arguments_of schema.now verb }
    ensures few { result ≤ 34 }
{
    match verb {
        Verb::Begin
        | Verb::Len
        | Verb::Commit
        | Verb::Abort
        | Verb::Fold
        | Verb::Checkpoint
        | Verb::Cut => 0,
        Verb::At => 1,
        Verb::Scan => 2,
        Verb::Insert => schema.width(),
        Verb::Delete | Verb::Get | Verb::Rank => schema.key_cols(),
        Verb::Set => schema.key_cols() + 2,
    }
}
