//! Which table of a database is meant.
ghost use Rattle.std.specs.Prelude.{◌≡◌, ◌<◌, IfOk, length, map, option_map};
ghost use Rattle.manifest.specs.Manifest.{table_now};
ghost use Rattle.segments.specs.Naming.{place_from, place_of};

use crate::fault::NameFault;
use manifest::TableEntry;

/// The place of the table that is meant: the first of the name; or the one table, where none is named.
///
/// # Errors
///
/// `NoTable` where no table has the name; `NotNamed` where none is named, and there isn't one alone.
pub fn table_named(tables: &[TableEntry<'_>], name: Option<&str>) -> Result<usize, NameFault>
    ensures place { result ≡ place_of (option_map (λ n. n.now) name.entry) (map table_now tables.now) }
    ensures within { IfOk result (λ at. at < length tables.now) }
{
    match name {
        Some(name) => place_of_name(tables, name),
        None => match tables {
            [_] => Ok(0),
            _ => Err(NameFault::NotNamed),
        },
    }
}

/// The place of the first table of the name.
fn place_of_name(tables: &[TableEntry<'_>], name: &str) -> Result<usize, NameFault>
    ensures place { result ≡ place_from 0 name.now (map table_now tables.now) }
    ensures within { IfOk result (λ at. at < length tables.now) }
{
    let mut at = 0;
    while at < tables.len() {
        if tables[at].line.name == name.as_bytes() {
            return Ok(at);
        }
        at += 1;
    }
    Err(NameFault::NoTable)
}
