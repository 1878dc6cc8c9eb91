//! What is called round the calls of clients that run on threads of their own.

/// What is told of each client's calls, on the client's thread. A gate may hold a thread back for a while, but not for
/// ever: another client's call may never come.
pub trait Gate: Sync {
    /// A client is about to make a call. Its calls are counted from 0.
    fn before(&self, client: u32, call: usize);

    /// The call is answered.
    fn after(&self, client: u32, call: usize);
}

/// A gate that does nothing.
#[derive(Clone, Copy)]
pub struct OpenGate;

impl Gate for OpenGate {
    fn before(&self, _client: u32, _call: usize) {}

    fn after(&self, _client: u32, _call: usize) {}
}
