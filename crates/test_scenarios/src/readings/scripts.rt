//! A script's calls and the names of its clients.
use inputs::{Call, Script, read_script, read_table};
use model::Write;
use std::alloc::Global;
use std::process::Abort;
use std::test::Fail;
use values::{Schema, ValueRef};

/// The schema of `id:int:key,name:text,qty:int`.
fn base_schema(rt: &impl Abort, alloc: Global) -> Schema {
    let (schema, _) = read_table(alloc, b"id:int:key,name:text,qty:int\n").expect(rt, "a table");
    schema
}

/// Whether a call sets the name in the row of key 20 to Bea.
fn is_renaming(call: &Call) -> bool {
    match call {
        Call::Write(Write::Set(key, 1, value)) => {
            value.as_ref() == ValueRef::Text("Bea")
                && key
                    .cells()
                    .iter()
                    .all(|cell| cell.as_ref() == ValueRef::Int(20))
        }
        _ => false,
    }
}

/// Whether the script begins two transactions, of which the second sets a name.
fn is_due(script: &Script) -> bool {
    match script.calls() {
        [first, second, third] => {
            matches!(first.call, Call::Begin)
                && matches!(second.call, Call::Begin)
                && is_renaming(&third.call)
                && (first.client, second.client, third.client) == (0, 1, 1)
        }
        _ => false,
    }
}

#[test]
fn a_script_has_its_calls_and_its_clients(rt: HostRuntime) -> Result<(), Fail> {
    let schema = base_schema(&rt, rt.alloc());
    let text = b"eve,begin\nann,begin\nann,set,20,name,Bea\n";
    let script = read_script(rt.alloc(), &schema, text.as_slice()).expect(&rt, "a script");
    assert!(&rt; is_due(&script));
    let mut names = String::new(rt.alloc());
    for client in script.clients() {
        names.push_str(client.as_str())?;
        names.push_str(" ")?;
    }
    assert!(&rt; names.as_str() == "eve ann ");
    Ok(())
}
