//! Where texts come from and where they go: sources of named texts and sinks of bytes, in memory and
//! on the host, with counts of their faults, and the calls that move a whole text.
#![tactic(auto)]

mod calls;
mod fault_counts;
mod host;
mod inputs;
mod mem_inputs;
mod mem_sink;
mod pieces;
mod sink;
mod transfer;

pub use host::{HostInputs, HostSink};
pub use inputs::{Inputs, ReadFault, StartFault};
pub use mem_inputs::MemInputs;
pub use mem_sink::MemSink;
pub use pieces::{Pieces, send_pieces};
pub use sink::{Failed, Sink};
pub use transfer::{LONGEST_TEXT, read_all, send_all};
