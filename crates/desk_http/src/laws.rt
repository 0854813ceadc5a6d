//! What holds of requests and streams whatever they are. Each function is called for its clause alone.

ghost use Rattle.std.specs.Prelude.{◌≡◌, ◌≢◌, ℕ, ◌+◌, ◌<◌, ◌≤◌, ◌⊎◌, false, true, List, [], ◌++◌, length, IsTrue, IfSome, IfNone, Some};
ghost use Rattle.std.specs.List.{flat_map};
ghost use Rattle.httparse.specs.Grammar.{RequestHead, IsRequestHead, print_request};
ghost use Rattle.desk_http.specs.Limits.{head_limit, body_limit};
ghost use Rattle.desk_http.specs.declared.request.Request.{Request};
ghost use Rattle.desk_http.specs.declared.taken.Taken.{Taken};
ghost use Rattle.desk_http.specs.Reader.{Event, pieces_of, requests_of, IsReadAs};
ghost use Rattle.desk_http.specs.Rest.{Message, BeginsWith, IsInDoubt};
ghost use Rattle.desk_http.specs.Front.{LeadsTo, last_reply, open_end, refusal_at, refusal_of};
ghost use Rattle.desk_http.specs.Reply.{fixed_reply};
ghost use Rattle.desk_http.specs.Stream.{End, EndsAs, IsStream, HasRequests, IsSameEnd, is_ended};
ghost use Rattle.desk_http.specs.declared.fixed.Fixed.{Fixed};
ghost use Rattle.desk_http.specs.Taken.{Takes, taken_answer, may_replace};

use crate::take::take_request;
use crate::taken::Taken;

/// No head of a request is a prefix of another.
pub fn no_head_begins_another()
    ensures { (h k : RequestHead) (more : List ℕ) → IsRequestHead h → IsRequestHead k
        → print_request k ≡ print_request h ++ more → (h ≡ k) × (more ≡ []) }
{}

/// A buffer has one answer. Only where it can't become a head and its front ends inside its target may
/// `NotYet` or `HeadTooLong` come in place of `BadHead`.
pub fn one_answer()
    ensures { (buffer : List ℕ) (taken other : Taken) → Takes buffer taken → Takes buffer other
        → (taken_answer buffer taken ≡ taken_answer buffer other)
        ⊎ (IsInDoubt buffer × IsTrue (may_replace taken other)) }
{}

/// What `take_request` says of a buffer it says of every longer one that begins so, but for `NotYet`.
pub fn answers_last()
    ensures { (buffer more : List ℕ) (taken : Taken) → taken ≢ Taken.NotYet → Takes buffer taken
        → Takes (buffer ++ more) taken × (taken_answer (buffer ++ more) taken ≡ taken_answer buffer taken) }
{}

/// A whole request takes at least one byte, and at most those of the longest head and body. A buffer
/// that holds so many isn't `NotYet`.
pub fn request_is_bounded()
    ensures whole { (buffer : List ℕ) (r : Request) → Takes buffer (Taken.Whole r)
        → (0 < r.used) × (r.used ≤ head_limit + body_limit) }
    ensures not_yet { (buffer : List ℕ) → Takes buffer Taken.NotYet
        → length buffer < head_limit + body_limit }
{}

/// Each stream has a list of requests and an end: the body takes one request after another.
pub fn each_stream_has_requests(bytes: &[u8])
    ensures { HasRequests bytes.now }
{
    let mut rest = bytes;
    while let Some(more) = behind_request(rest) {
        rest = more;
    }
}

/// What follows the request at the front of the bytes, unless a stream ends there.
fn behind_request(bytes: &[u8]) -> Option<&[u8]>
    ensures goes_on { IfSome result (λ rest. (m : Message) × (m.close ≡ false) × BeginsWith bytes.now m rest.now) }
    ensures ends { IfNone result (HasRequests bytes.now) }
{
    match take_request(bytes) {
        Taken::Whole(request) => {
            if request.close {
                None
            } else {
                Some(&bytes[request.used..])
            }
        }
        _ => None,
    }
}

/// The requests of a stream are the same however it is read: it can be read in any pieces, it has one
/// list of requests, and a reader takes these, in whatever pieces the stream comes to it, and however
/// much it leaves unread behind the stream's end.
pub fn pieces_make_no_difference()
    ensures any { (pieces : List (List ℕ)) (ms : List Message) (end : End)
        → IsStream (flat_map (λ piece. piece) pieces) ms end → (events : List Event)
        × (pieces_of events ≡ pieces) × IsReadAs (flat_map (λ piece. piece) pieces) events end }
    ensures one { (bytes : List ℕ) (ms ns : List Message) (e f : End) → IsStream bytes ms e
        → IsStream bytes ns f → (ms ≡ ns) × IsSameEnd bytes ms e f }
    ensures read { (bytes : List ℕ) (events : List Event) (end : End) → IsReadAs bytes events end
        → IsStream bytes (requests_of events) end }
    ensures same { (bytes : List ℕ) (events others : List Event) (e f : End)
        → IsReadAs bytes events e → IsReadAs bytes others f
        → (requests_of events ≡ requests_of others) × IsSameEnd bytes (requests_of events) e f }
{}

/// Requests at the front of bytes stay there whatever follows, and further ones behind them are at the front too. Every stream of
/// the bytes begins with them, and goes on as what is behind them does.
pub fn requests_stay_at_the_front()
    ensures later { (bytes more rest : List ℕ) (ms : List Message) → LeadsTo bytes ms rest → LeadsTo (bytes ++ more) ms (rest ++ more) }
    ensures onward { (bytes behind rest : List ℕ) (ms ns : List Message) → LeadsTo bytes ms behind → LeadsTo behind ns rest
        → LeadsTo bytes (ms ++ ns) rest }
    ensures stream { (bytes rest : List ℕ) (ms ns : List Message) (end : End) → LeadsTo bytes ms rest → IsStream rest ns end
        → IsStream bytes (ms ++ ns) end }
    ensures first { (bytes rest : List ℕ) (ms all : List Message) (end : End) → LeadsTo bytes ms rest → IsStream bytes all end
        → (ns : List Message) × (all ≡ ms ++ ns) × IsStream rest ns end }
{}

/// What follows a request that closes, or what is refused, counts for nothing.
pub fn an_ended_stream_stays_ended()
    ensures { (bytes more : List ℕ) (ms : List Message) (end : End) → IsTrue (is_ended ms end) → IsStream bytes ms end
        → IsStream (bytes ++ more) ms end }
{}

/// Where a front is no request, a stream that ends there ends so: what is no request yet is nothing or a part of one, and what is
/// refused is answered the refusal, with the line that closes.
pub fn what_is_left_ends_a_stream()
    ensures not_yet { (bytes : List ℕ) → Takes bytes Taken.NotYet → EndsAs bytes (open_end bytes) }
    ensures refused { (bytes : List ℕ) (taken : Taken) (refused : Fixed) → Takes bytes taken → refusal_of taken ≡ Some refused
        → (end : End) × EndsAs bytes end × (refusal_at end ≡ Some refused) × (last_reply end ≡ fixed_reply refused true) }
{}
