//! Formats the replies of the service as HTTP messages (RFC 9110, RFC 9112) with JSON bodies (RFC
//! 8259). A body is one JSON value: one for each result of a store, each refusal and each fault.
//! The members of each object are in the order of the octets of their names.
#![tactic(auto)]

mod bodies;
mod card;
mod lists;
mod message;
mod refusals;
mod replies;
mod statuses;
mod values;

pub use replies::{
    head_fault_bytes, json_bytes, method_fault_bytes, reply_bytes, route_fault_bytes,
};
