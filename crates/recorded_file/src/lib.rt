// The recorded file (compare/RECORDED.md): its head, its frames, the buffers that they change, and the request of a call.
#![tactic(auto)]

pub mod buffers;
pub mod error;
pub mod frame;
pub mod head;
pub mod input;
pub mod kind;
pub mod request;
