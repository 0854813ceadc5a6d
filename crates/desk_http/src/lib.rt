//! The requests of a byte stream, what they ask, and the bytes of replies.
#![tactic(auto)]

mod ask;
mod endpoint;
mod fixed;
mod head;
mod http_fault;
mod laws;
mod limits;
mod lines;
mod method;
mod query;
mod reply;
mod request;
mod routes;
mod routing;
mod span;
mod take;
mod taken;

pub use ask::Ask;
pub use fixed::{Fixed, fixed_reply};
pub use http_fault::{HttpFault, QueryKey};
pub use laws::{
    an_ended_stream_stays_ended, answers_last, each_stream_has_requests, no_head_begins_another,
    one_answer, pieces_make_no_difference, request_is_bounded, requests_stay_at_the_front,
    what_is_left_ends_a_stream,
};
pub use limits::{BODY_BYTES, HEAD_BYTES, HEAD_LINES};
pub use method::Method;
pub use reply::write_reply;
pub use request::Request;
pub use routes::Routes;
pub use routing::route;
pub use span::Span;
pub use take::take_request;
pub use taken::Taken;
