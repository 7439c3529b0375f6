//! Why a guest refuses.
use guest_log::Stop;
use word32::Ppn;

/// Why a guest refuses what it is asked. It is then as before.
#[derive(Clone, Copy, Debug, PartialEq, Eq)]
pub enum Refused {
    /// The machine refuses it: 256 bytes of console input wait, a write is longer than 1,024 bytes, or a byte that is to be
    /// read or written has no place in memory.
    Machine,
    /// A byte that is to be read lies in this page, which is in a slot of the swap store, or a byte that is to be written in
    /// this page, which is in no frame of its own. Once the page is supplied it can be asked again.
    Away(Ppn),
    /// The item has no room: the log is full, or a request for memory was refused.
    Stop(Stop),
}
