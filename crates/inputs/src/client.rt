//! The clients of a script, in order of first appearance.
ghost use Rattle.std.specs.Prelude.{◌≡◌, ◌<◌, true, ℕ, IfOk, IfErr, Ok, Err, OnOk};
ghost use Rattle.std.specs.List.{list_all};
ghost use Rattle.std.specs.Str.{is_utf8};
ghost use Rattle.csv.specs.Records.{fields_of};
ghost use Rattle.inputs.specs.Clients.{client_of, clients_after, is_client, is_client_byte, number_of};

use crate::fault::ScriptFault;
use csv::ByteRecord;
use std::alloc::Global;
use values::Text;
use values::limits::{MAX_CLIENT_BYTES, MAX_CLIENTS};

/// The number of the client that the record names, one above those there are where it is new.
pub(crate) fn read_client(
    clients: &[Text],
    number: u64,
    fields: &ByteRecord,
) -> Result<u32, ScriptFault>
    ensures ok { IfOk result (λ client. client_of clients.now number (fields_of fields.now) ≡ Ok client) }
    ensures err { IfErr result (λ fault. client_of clients.now number (fields_of fields.now) ≡ Err fault) }
{
    let name = match fields.get(0) {
        Some(name) => name,
        None => return Err(ScriptFault::BadClient(number)),
    };
    if !is_name(name) {
        return Err(ScriptFault::BadClient(number));
    }
    let client = find_client(clients, name);
    if client >= MAX_CLIENTS as usize {
        return Err(ScriptFault::TooManyClients(number));
    }
    Ok(client as u32)
}

/// Adds the client that the record names, where its number is a new one.
pub(crate) fn add_client(
    alloc: Global,
    clients: &mut Vec<Text>,
    client: u32,
    fields: &ByteRecord,
) -> Result<(), ScriptFault>
    requires named { (number : ℕ) × (client_of clients.old.items number (fields_of fields.now) ≡ Ok client) }
    requires text { list_all is_utf8 (fields_of fields.now) ≡ true }
    ensures ok { OnOk result (clients.new.items ≡ clients_after clients.old.items (fields_of fields.now)) }
    ensures err { IfErr result (λ fault. fault ≡ ScriptFault.NoMemory) }
{
    if (client as usize) < clients.len() {
        return Ok(());
    }
    let name = match fields.get(0) {
        Some(name) => name,
        None => return Ok(()),
    };
    let text = match str::from_utf8(name) {
        Ok(text) => text,
        Err(_) => unreachable!(),
    };
    clients.push(Text::new(String::from_str(alloc, text)?))?;
    Ok(())
}

/// The number of the client of this name, or how many there are.
fn find_client(clients: &[Text], name: &[u8]) -> usize
    ensures { result ≡ number_of name.now clients.now }
{
    for i in 0..clients.len() {
        if clients[i].as_str().as_bytes() == name {
            return i;
        }
    }
    clients.len()
}

/// Whether the bytes name a client.
fn is_name(name: &[u8]) -> bool
    ensures { result ≡ is_client name.now }
{
    if name.is_empty() {
        return false;
    }
    if name.len() > MAX_CLIENT_BYTES {
        return false;
    }
    has_name_bytes(name)
}

fn has_name_bytes(name: &[u8]) -> bool
    ensures { result ≡ list_all is_client_byte name.now }
{
    name.iter().all(|c| is_name_byte(*c))
}

fn is_name_byte(c: u8) -> bool
    ensures { result ≡ is_client_byte c }
{
    c.is_ascii_alphanumeric() || c == b'-' || c == b'_'
}
