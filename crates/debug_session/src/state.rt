//! How a session stands.

/// How a session stands.
#[derive(Clone, Copy, Debug, PartialEq, Eq)]
pub enum State {
    /// It waits for a line.
    Ready,
    /// A `cont` goes on: `Session::go_on` makes its slices.
    Running,
    /// The debugger has left by `detach`, and the guest goes on. No further line is answered.
    Detached,
    /// The debugger has left by `end`, and the guest is held. No further line is answered.
    Ended,
}
