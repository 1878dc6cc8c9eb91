//! One client's thread: its calls, in their order.
ghost use Rattle.std.specs.Prelude.{◌≡◌, ◌≤◌, [], All, IsTrue, length, vec_capacity};
ghost use Rattle.inputs.specs.Typed.{is_typed_call};
ghost use Rattle.pdtcli.specs.Clients.{HasMade, calls_of};

use crate::gate::Gate;
use crate::reply::ReplyLine;
use crate::seat::serve;
use crate::serial::line_of;
use inputs::ClientCall;
use publishing::Opening;
use shared::{ImageStore, Session, Shared};
use std::sync::Wait;

/// How many of the calls are the client's.
pub(crate) fn count_calls(calls: &[ClientCall], client: u32) -> usize
    ensures { result ≡ length (calls_of client calls.now) }
{
    calls.iter().filter(|asked| asked.client == client).count()
}

/// Makes those of the calls that are the client's, in their order and with the gate round each. There is room for the line
/// of each.
pub(crate) fn run_client<O: Opening, S: ImageStore, G: Gate, R: Wait>(
    rt: &R,
    shared: &Shared<O, S>,
    gate: &G,
    mut session: Session<O>,
    calls: &[ClientCall],
    mut lines: Vec<ReplyLine>,
) -> (Session<O>, Vec<ReplyLine>)
    requires typed { All (λ asked. IsTrue (is_typed_call O.opened.manager.schema asked.call)) calls.now }
    requires empty { lines.items ≡ [] }
    requires room { length (calls_of session.client calls.now) ≤ vec_capacity lines }
    ensures { HasMade O.opened.manager session calls.now result.1.items result.0 }
{
    let alloc = *lines.allocator();
    let client = session.client();
    let mut number = 0;
    for asked in calls {
        if asked.client == client {
            gate.before(client, number);
            let reply = serve(rt, alloc, shared, &mut session, &asked.call);
            gate.after(client, number);
            lines.push_reserved(line_of(asked, reply));
            number += 1;
        }
    }
    (session, lines)
}
