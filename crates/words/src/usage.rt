//! The usage of the program, as `clap` has it.
ghost use Rattle.std.specs.Prelude.{◌≡◌, false, IfOk};
ghost use Rattle.clap.specs.Words.{app_of, rule_of};
ghost use Rattle.words.specs.Words.{flag_rule, folder_option_rule, folder_rule, number_rule, option_rule, placed_rule, recover_usage, run_usage, usage, IsCommandOf};

use clap::builder::ValueParser;
use clap::{Arg, ArgAction, Command};
use std::alloc::{AllocError, Global};
use values::limits::{MAX_RECENT_COMMITS, MAX_ROWS};

const ABOUT: &str =
    "Runs transactions over a table, with Positional Delta Trees under snapshot isolation";

const RUN_ABOUT: &str =
    "Runs a script over a table, and prints each reply and then the newest table";

const TABLE_HELP: &str =
    "The table, as CSV: a header such as id:int:key,name:text, then a record for each row";

const SCRIPT_HELP: &str =
    "The script, as CSV: a client and its call in each record, such as a,insert,25,Dee,4";

const THREADS_HELP: &str = "Makes each client's calls on a thread of its own";

const STORE_HELP: &str =
    "The folder that the store is made in: it has none of the store's files yet";

const JOURNAL_HELP: &str =
    "Keeps a journal in the store: a commit is on the disk before its reply is printed";

const RECOVER_ABOUT: &str = "Prints the table that a store has, or one of a database";

const DIR_HELP: &str = "The folder of the store or the database";

const NAME_HELP: &str = "Which table of a database; it may be left out where there is one alone";

const RECENT_HELP: &str =
    "How many commits may come between a transaction's begin and its commit, 1 to 65536";

const LIMIT_HELP: &str = "The most rows that the table may have, 1 to 2147483647";

const CONFLICTS_HELP: &str =
    "Which modifies of one row conflict: column, those of one column, or row, all";

const EXPLAIN_HELP: &str = "Explains what is refused by a sentence, in a second line";

/// The command line that the program has.
pub(crate) fn program<'a>(alloc: Global) -> Result<Command<'a>, AllocError>
    ensures { IfOk result (λ command. app_of command ≡ usage) }
{
    Command::new(alloc, "pdt")
        .about(ABOUT)
        .subcommand_required(true)
        .subcommand(run_command(alloc)?)?
        .subcommand(recover_command(alloc)?)
}

/// The command that runs a script over a table.
fn run_command<'a>(alloc: Global) -> Result<Command<'a>, AllocError>
    ensures { IfOk result (IsCommandOf run_usage) }
{
    Command::new(alloc, "run")
        .about(RUN_ABOUT)
        .arg(file(alloc, "table", "TABLE", TABLE_HELP))?
        .arg(file(alloc, "script", "SCRIPT", SCRIPT_HELP))?
        .arg(flag(alloc, "threads", THREADS_HELP))?
        .arg(folder_option(alloc, "store", "DIR", STORE_HELP))?
        .arg(flag(alloc, "journal", JOURNAL_HELP))?
        .arg(number(alloc, "recent", RECENT_HELP, MAX_RECENT_COMMITS as u64))?
        .arg(number(alloc, "limit", LIMIT_HELP, MAX_ROWS))?
        .arg(option(alloc, "conflicts", "RULE", CONFLICTS_HELP))?
        .arg(flag(alloc, "explain", EXPLAIN_HELP))
}

/// The command that prints the table of a store, or one of a database.
fn recover_command<'a>(alloc: Global) -> Result<Command<'a>, AllocError>
    ensures { IfOk result (IsCommandOf recover_usage) }
{
    Command::new(alloc, "recover")
        .about(RECOVER_ABOUT)
        .arg(folder(alloc, "dir", "DIR", DIR_HELP))?
        .arg(option(alloc, "table", "NAME", NAME_HELP))?
        .arg(flag(alloc, "explain", EXPLAIN_HELP))
}

/// A word that has to be there, by its place.
fn file<'a>(alloc: Global, id: &'a str, shown: &'a str, help: &'a str) -> Arg<'a>
    ensures rule { rule_of result ≡ placed_rule id.entry.now }
    ensures local { result.global ≡ false }
{
    Arg::new(alloc, id)
        .help(help)
        .value_name(shown)
        .required(true)
        .action(ArgAction::Set)
}

/// A folder that has to be named, by its place. The empty name would stand for the top of the file system.
fn folder<'a>(alloc: Global, id: &'a str, shown: &'a str, help: &'a str) -> Arg<'a>
    ensures rule { rule_of result ≡ folder_rule id.entry.now }
    ensures local { result.global ≡ false }
{
    file(alloc, id, shown, help).value_parser(ValueParser::NonEmptyString)
}

/// An option with no value.
fn flag<'a>(alloc: Global, id: &'a str, help: &'a str) -> Arg<'a>
    ensures rule { rule_of result ≡ flag_rule id.entry.now }
    ensures local { result.global ≡ false }
{
    Arg::new(alloc, id)
        .help(help)
        .long(id)
        .action(ArgAction::SetTrue)
}

/// An option with a number from 1 to the largest.
fn number<'a>(alloc: Global, id: &'a str, help: &'a str, largest: u64) -> Arg<'a>
    ensures rule { rule_of result ≡ number_rule id.entry.now largest }
    ensures local { result.global ≡ false }
{
    option(alloc, id, "N", help).value_parser(ValueParser::unsigned(1, largest))
}

/// An option whose value names a folder, and isn't empty.
fn folder_option<'a>(alloc: Global, id: &'a str, shown: &'a str, help: &'a str) -> Arg<'a>
    ensures rule { rule_of result ≡ folder_option_rule id.entry.now }
    ensures local { result.global ≡ false }
{
    option(alloc, id, shown, help).value_parser(ValueParser::NonEmptyString)
}

/// An option with a value.
fn option<'a>(alloc: Global, id: &'a str, shown: &'a str, help: &'a str) -> Arg<'a>
    ensures rule { rule_of result ≡ option_rule id.entry.now }
    ensures local { result.global ≡ false }
{
    Arg::new(alloc, id)
        .help(help)
        .long(id)
        .value_name(shown)
        .action(ArgAction::Set)
}
