//! A whole script, read from text.
ghost use Rattle.std.specs.Prelude.{◌≡◌, ◌≢◌, ◌≤◌, ℕ, List, [], length, IfOk, IfErr, Ok, Err};
ghost use Rattle.std.specs.List.{list_all};
ghost use Rattle.std.specs.Str.{is_utf8};
ghost use Rattle.csv.specs.Records.{fields_of};
ghost use Rattle.values.specs.declared.limits.TheConstants.{MAX_CLIENTS};
ghost use Rattle.inputs.specs.Reading.{IsReading};
ghost use Rattle.inputs.specs.Typed.{IsTyped};
ghost use Rattle.inputs.specs.Script.{call_of, IsScriptOf, IsScriptFaultOf};

use crate::arguments::read_asked;
use crate::call::ClientCall;
use crate::client::{add_client, read_client};
use crate::fault::ScriptFault;
use crate::reading::{next_record, records_of};
use csv::{ByteRecord, Reader};
use std::alloc::Global;
use std::marker::Model;
use values::{Schema, Text};

/// A script's calls, in its order. Each is of a client that the script has, and typed under the schema that the script
/// was read under.
#[derive(Drop)]
pub struct Script {
    schema: Schema,
    /// The clients' names, in order of first appearance.
    clients: Vec<Text>,
    calls: Vec<ClientCall>,
}

impl Model for Script {
    ghost use Rattle.inputs.specs.Typed.{IsTyped, Typed};

    ghost Value = { Typed };

    ghost view = { λ s. record { schema = s.schema; clients = s.clients.items; calls = s.calls.items } };

    ghost invariant = { λ s. IsTyped (record { schema = s.schema; clients = s.clients.items; calls = s.calls.items }) };
}

impl Script {
    /// The schema that the calls are typed under.
    pub fn schema(&self) -> &Schema
        ensures { result.now ≡ self.now.schema }
    {
        &self.schema
    }

    /// The clients' names, in order of first appearance.
    pub fn clients(&self) -> &[Text]
        ensures { result.now ≡ self.now.clients }
    {
        self.clients.as_slice()
    }

    /// The calls, in order.
    pub fn calls(&self) -> &[ClientCall]
        ensures calls { result.now ≡ self.now.calls }
        ensures lawful { IsTyped self.now }
    {
        self.calls.as_slice()
    }

    /// The clients' names and the calls, for a run that keeps what they hold. Takes no memory.
    pub fn into_parts(self) -> (Vec<Text>, Vec<ClientCall>)
        ensures clients { result.0.items ≡ self.clients }
        ensures calls { result.1.items ≡ self.calls }
        ensures lawful { IsTyped self }
    {
        let Script {
            schema: _schema,
            clients,
            calls,
        } = self;
        (clients, calls)
    }
}

/// The clients and the calls of a script's text over a table of this schema, in the text's order.
///
/// # Errors
///
/// The fault of the first record that has one: `BadText`, `BadClient`, `TooManyClients`, `BadCount` where there is no
/// verb, `BadVerb`, `BadCount`, and `BadArgument` from the left, for `set` the column's name before its cell.
pub fn read_script(alloc: Global, schema: &Schema, text: &[u8]) -> Result<Script, ScriptFault>
    ensures ok { IfOk result (λ script. IsScriptOf schema.now text.now script.clients script.calls) }
    ensures under { IfOk result (λ script. script.schema ≡ schema.now) }
    ensures few { IfOk result (λ script. length script.clients ≤ MAX_CLIENTS) }
    ensures err { IfErr result (λ fault. fault ≢ ScriptFault.NoMemory → IsScriptFaultOf schema.now text.now fault) }
{
    let under = schema.copy()?;
    let mut reader = records_of(alloc, text)?;
    let mut fields = ByteRecord::new(alloc);
    let (clients, calls) = read_calls(alloc, schema, reader.as_mut(), &mut fields)?;
    Ok(Script {
        schema: under,
        clients,
        calls,
    })
}

/// The clients and the calls of the records that the reader gives, which has given none yet.
fn read_calls<'a>(
    alloc: Global,
    schema: &Schema,
    reader: &mut Reader<&'a [u8]>,
    fields: &mut ByteRecord,
) -> Result<(Vec<Text>, Vec<ClientCall>), ScriptFault>
    requires { (text : List ℕ) × IsReading text [] reader.old }
    ensures ok { IfOk result (λ r. (text : List ℕ) → IsReading text [] reader.old → IsScriptOf schema.now text r.0.items r.1.items) }
    ensures typed { IfOk result (λ r. IsTyped (record { schema = schema.now; clients = r.0.items; calls = r.1.items })) }
    ensures few { IfOk result (λ r. length r.0.items ≤ MAX_CLIENTS) }
    ensures err { IfErr result
        (λ fault. fault ≢ ScriptFault.NoMemory → (text : List ℕ) → IsReading text [] reader.old → IsScriptFaultOf schema.now text fault) }
{
    let mut clients = Vec::new(alloc);
    let mut calls = Vec::new(alloc);
    for number in 1..u64::MAX {
        let more = next_record(reader, fields)?;
        if !more {
            return Ok((clients, calls));
        }
        let call = read_call(alloc, schema, clients.as_slice(), number, fields)?;
        add_client(alloc, &mut clients, call.client, fields)?;
        calls.push(call)?;
    }
    unreachable!()
}

/// The call of the record of this number.
fn read_call(
    alloc: Global,
    schema: &Schema,
    clients: &[Text],
    number: u64,
    fields: &ByteRecord,
) -> Result<ClientCall, ScriptFault>
    ensures ok { IfOk result (λ call. call_of schema.now clients.now number (fields_of fields.now) ≡ Ok call) }
    ensures err { IfErr result
        (λ fault. fault ≢ ScriptFault.NoMemory → call_of schema.now clients.now number (fields_of fields.now) ≡ Err fault) }
{
    if !is_all_text(fields) {
        return Err(ScriptFault::BadText(number));
    }
    let client = read_client(clients, number, fields)?;
    let call = read_asked(alloc, schema, number, fields)?;
    Ok(ClientCall { client, call })
}

/// Whether each field is UTF-8. Where all bytes are ASCII, one look at the whole record tells it.
fn is_all_text(fields: &ByteRecord) -> bool
    ensures { result ≡ list_all is_utf8 (fields_of fields.now) }
{
    fields.as_slice().is_ascii() || is_each_text(fields)
}

/// The same, field by field.
fn is_each_text(fields: &ByteRecord) -> bool
    ensures { result ≡ list_all is_utf8 (fields_of fields.now) }
{
    for i in 0..fields.len() {
        let bytes = match fields.get(i) {
            Some(bytes) => bytes,
            None => unreachable!(),
        };
        if !is_text(bytes) {
            return false;
        }
    }
    true
}

fn is_text(bytes: &[u8]) -> bool
    ensures { result ≡ is_utf8 bytes.now }
{
    let _text = match str::from_utf8(bytes) {
        Ok(text) => text,
        Err(_) => return false,
    };
    true
}
