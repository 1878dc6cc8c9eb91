//! The settings that a command line's words say.
ghost use Rattle.std.specs.Prelude.{◌≡◌, ◌≤◌, ℕ, Bool, [], Some, IfErr, IfOk, IfSome, IsNone, codes, map, option_map};
ghost use Rattle.clap.specs.Words.{app_of, fault_of, first_value, found_of, kind_of, subcommand_rows_of};
ghost use Rattle.clap.specs.declared.error.kind.ErrorKind.TheVariants.{OutOfMemory};
ghost use Rattle.model.specs.declared.clash.ConflictRule.{ConflictRule as Rule};
ghost use Rattle.words.specs.Words.{flag_word, usage, command_for, word_for, word_in};
ghost use Rattle.words.specs.Words.{AreAsked, AreOf, HasPlace, IsNumberOf, IsRuleOf, IsWithinLimits, NamesFolder};
ghost use Rattle.words.specs.declared.settings.Settings.{Settings as Asked};

use crate::usage::program;
use clap::error::ErrorKind;
use clap::{ArgMatches, Command, Error};
use model::ConflictRule;
use std::alloc::Global;
use values::limits::{MAX_RECENT_COMMITS, MAX_ROWS};

/// How many recent commits a run keeps where nothing is said.
const RECENT_COMMITS: u64 = 64;

/// What the program is asked to do.
#[derive(Drop)]
pub enum Settings<'a> {
    /// Runs a script over a table.
    Run {
        /// The table's file.
        table: &'a str,
        /// The script's file.
        script: &'a str,
        /// Whether each client's calls are made on a thread of its own.
        threads: bool,
        /// The folder that the store is made in, by a name that isn't empty; none where nothing is said.
        store: Option<&'a str>,
        /// Whether the store has a journal. It is asked for only beside a store.
        journal: bool,
        /// How many commits may come between a transaction's begin and its commit, 1 to 65,536; 64 where nothing is said.
        recent: usize,
        /// The most rows that the table may have, 1 to 2,147,483,647; that many where nothing is said.
        limit: u64,
        /// Which modifies of one row conflict; those of one column where nothing is said.
        conflicts: ConflictRule,
        /// Whether what is refused is explained by a sentence.
        explain: bool,
    },
    /// Prints the table that a store has, or one of a database.
    Recover {
        /// The folder of the store or database, by a name that isn't empty.
        dir: &'a str,
        /// The table's name in a database; none where nothing is said.
        table: Option<&'a str>,
        /// Whether what is refused is explained by a sentence.
        explain: bool,
    },
}

/// The settings of a command line, the first word of which is the program's name.
///
/// # Errors
///
/// `clap`'s error, with its text, where the words are not of the usage
/// `pdt run TABLE SCRIPT [--threads] [--store DIR] [--journal] [--recent N] [--limit N] [--conflicts column|row] [--explain]` or
/// `pdt recover DIR [--table NAME] [--explain]`, where a DIR is empty, where an N is out of its range, where a journal is asked for
/// without a store, where help is asked for, and where a growth is refused.
pub fn read_words<'a>(alloc: Global, words: &'a [&'a str]) -> Result<Settings<'a>, Error>
    ensures said { IfOk result (AreOf (command_for (map (λ word. word.now) words.now)) (word_for (map (λ word. word.now) words.now))) }
    ensures within { IfOk result (λ settings. IsWithinLimits settings) }
    ensures faultless { IfOk result (λ settings. fault_of usage (map (λ word. word.now) words.now) ≡ []) }
    ensures taken { IfErr result
        (λ error. (settings : Asked) → AreAsked (map (λ word. word.now) words.now) settings → kind_of error ≡ OutOfMemory) }
{
    let mut command = program(alloc)?;
    settings_by(&mut command, words)
}

/// The settings that the words say by the program's command line.
fn settings_by<'a>(command: &mut Command<'a>, words: &'a [&'a str]) -> Result<Settings<'a>, Error>
    requires { app_of command.old ≡ usage }
    ensures said { IfOk result (AreOf (command_for (map (λ word. word.now) words.now)) (word_for (map (λ word. word.now) words.now))) }
    ensures within { IfOk result (λ settings. IsWithinLimits settings) }
    ensures faultless { IfOk result (λ settings. fault_of usage (map (λ word. word.now) words.now) ≡ []) }
    ensures taken { IfErr result
        (λ error. (settings : Asked) → AreAsked (map (λ word. word.now) words.now) settings → kind_of error ≡ OutOfMemory) }
{
    let matches = command.try_get_matches_from_mut(words)?;
    match command_settings(&matches) {
        Some(settings) => Ok(settings),
        None => Err(command.error(
            ErrorKind::ValueValidation,
            "--conflicts is column or row; --journal stands beside --store",
        )?),
    }
}

/// The settings of the command that was read.
fn command_settings<'a>(matches: &ArgMatches<'a>) -> Option<Settings<'a>>
    ensures said { IfSome result (AreOf (option_map (λ p. p.0) (subcommand_rows_of matches.now))
        (word_in (option_map (λ p. p.1) (subcommand_rows_of matches.now)))) }
    ensures within { IfSome result (λ settings. IsWithinLimits settings) }
    ensures none { IsNone result → (settings : Asked) → AreOf (option_map (λ p. p.0) (subcommand_rows_of matches.now))
        (word_in (option_map (λ p. p.1) (subcommand_rows_of matches.now))) settings → IsWithinLimits settings → ⊥ }
{
    let (name, words) = matches.subcommand()?;
    match name {
        "run" => run_settings(words),
        "recover" => recover_settings(words),
        _ => None,
    }
}

/// The settings that the words of `run` give.
fn run_settings<'a>(run: &ArgMatches<'a>) -> Option<Settings<'a>>
    ensures said { IfSome result (AreOf (Some (codes "run")) (first_value (found_of run.now))) }
    ensures within { IfSome result (λ settings. IsWithinLimits settings) }
    ensures none { IsNone result → (settings : Asked) → AreOf (Some (codes "run")) (first_value (found_of run.now)) settings
        → IsWithinLimits settings → ⊥ }
{
    let table = run.get_str("table")?;
    let script = run.get_str("script")?;
    let threads = flag_in(run.get_str("threads"))?;
    let store = store_in(run.get_str("store"))?;
    let journal = journal_in(run.get_str("journal"), store.is_some())?;
    let most = MAX_RECENT_COMMITS as u64;
    let recent = count_in(run.get_str("recent"), RECENT_COMMITS, most)? as usize;
    let limit = count_in(run.get_str("limit"), MAX_ROWS, MAX_ROWS)?;
    let conflicts = rule_in(run.get_str("conflicts"))?;
    let explain = flag_in(run.get_str("explain"))?;
    Some(Settings::Run {
        table,
        script,
        threads,
        store,
        journal,
        recent,
        limit,
        conflicts,
        explain,
    })
}

/// The settings that the words of `recover` give.
fn recover_settings<'a>(recover: &ArgMatches<'a>) -> Option<Settings<'a>>
    ensures said { IfSome result (AreOf (Some (codes "recover")) (first_value (found_of recover.now))) }
    ensures within { IfSome result (λ settings. IsWithinLimits settings) }
    ensures none { IsNone result → (settings : Asked) → AreOf (Some (codes "recover")) (first_value (found_of recover.now)) settings
        → IsWithinLimits settings → ⊥ }
{
    let dir = named(recover.get_str("dir")?)?;
    let table = recover.get_str("table");
    let explain = flag_in(recover.get_str("explain"))?;
    Some(Settings::Recover {
        dir,
        table,
        explain,
    })
}

/// The folder that a word names; none where it is empty.
fn named(word: &str) -> Option<&str>
    ensures some { IfSome result (λ dir. (dir.now ≡ word.entry.now) × NamesFolder dir.now) }
    ensures none { IsNone result → NamesFolder word.entry.now → ⊥ }
{
    if word.is_empty() { None } else { Some(word) }
}

/// The folder of a store that is asked for; none within where none is, and none where its name is empty.
fn store_in(word: Option<&str>) -> Option<Option<&str>>
    ensures said { IfSome result (λ store. option_map (λ w. w.now) word.entry ≡ option_map (λ w. w.now) store) }
    ensures within { IfSome result (λ store. IfSome store (λ dir. NamesFolder dir.now)) }
    ensures none { IsNone result → IfSome word.entry (λ w. NamesFolder w.now) → ⊥ }
{
    match word {
        None => Some(None),
        Some(word) => Some(Some(named(word)?)),
    }
}

/// Whether an option with no value is there, by the word for it; none where it is no such word.
fn flag_in(word: Option<&str>) -> Option<bool>
    ensures said { IfSome result (λ given. option_map (λ w. w.now) word.entry ≡ Some (flag_word given)) }
    ensures none { IsNone result → (given : Bool) → option_map (λ w. w.now) word.entry ≡ Some (flag_word given) → ⊥ }
{
    match word? {
        "true" => Some(true),
        "false" => Some(false),
        _ => None,
    }
}

/// Whether a journal is asked for, by the word for it; none where it is no such word, or a journal has no place.
fn journal_in(word: Option<&str>, stored: bool) -> Option<bool>
    ensures said { IfSome result (λ given. option_map (λ w. w.now) word.entry ≡ Some (flag_word given)) }
    ensures within { IfSome result (λ given. HasPlace given stored) }
    ensures none { IsNone result → (given : Bool) → option_map (λ w. w.now) word.entry ≡ Some (flag_word given)
        → HasPlace given stored → ⊥ }
{
    let journal = flag_in(word)?;
    if journal && !stored {
        return None;
    }
    Some(journal)
}

/// The count that a word writes, or the usual one where there is no word; none where it isn't 1 to the largest.
fn count_in(word: Option<&str>, usual: u64, largest: u64) -> Option<u64>
    requires least { 1 ≤ usual }
    requires most { usual ≤ largest }
    ensures said { IfSome result (IsNumberOf usual (option_map (λ w. w.now) word.entry)) }
    ensures within { IfSome result (λ number. (1 ≤ number) × (number ≤ largest)) }
    ensures none { IsNone result → (number : ℕ) → IsNumberOf usual (option_map (λ w. w.now) word.entry) number → 1 ≤ number
        → number ≤ largest → ⊥ }
{
    let number = match word {
        Some(word) => word.parse::<u64>().ok()?,
        None => usual,
    };
    (1 <= number && number <= largest).then_some(number)
}

/// The conflict rule that a word names, by column where there is no word; none where it names none.
fn rule_in(word: Option<&str>) -> Option<ConflictRule>
    ensures said { IfSome result (IsRuleOf (option_map (λ w. w.now) word.entry)) }
    ensures none { IsNone result → (rule : Rule) → IsRuleOf (option_map (λ w. w.now) word.entry) rule → ⊥ }
{
    match word {
        None | Some("column") => Some(ConflictRule::ByColumn),
        Some("row") => Some(ConflictRule::ByRow),
        Some(_) => None,
    }
}
