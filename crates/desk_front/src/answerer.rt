ghost use Rattle.std.specs.Thread.{IsSync};
ghost use Rattle.std.specs.Prelude.{◌≡◌, ◌≢◌, ◌++◌, ℕ, List, Some, IfErr, OnErr, OnOk};
ghost use Rattle.desk_http.specs.Reply.{allow_of, fixed_reply};
ghost use Rattle.desk_http.specs.Rest.{Message};
ghost use Rattle.desk_http.specs.Taken.{IsTakenFrom, message_of};
ghost use Rattle.desk_http.specs.declared.method.Method.TheVariants as method;

use desk_http::{Fixed, Request};
use desk_text::Bytes;
use std::alloc::Global;
use std::sync::Wait;

/// What answers the requests of a stream, one after another.
pub(crate) trait Answerer {
    // A request is answered by these bytes, and what answers is changed so.
    ghost replies: { Self → Message → List ℕ → Self → Type 0 };

    /// Appends the reply to a request that was taken from the buffer.
    ///
    /// An error is the reply where that is a refusal with a fixed body, which takes no memory to write: `out` is then as it was.
    fn reply<R: Wait + Sync>(
        &mut self,
        rt: &R,
        alloc: Global,
        buffer: &[u8],
        request: &Request,
        out: &mut Bytes,
    ) -> Result<(), Fixed>
        requires taken { IsTakenFrom buffer.now request.now }

        // A trait's method is told by a clause what its bound says.
        requires shared { IsSync R.row }
        ensures ok { OnOk result ((said : List ℕ) × (out.new ≡ out.old ++ said) × replies self.old (message_of buffer.now request.now) said self.new) }
        ensures fixed { IfErr result (λ fixed. replies self.old (message_of buffer.now request.now) (fixed_reply fixed request.now.close) self.new) }
        ensures allow { IfErr result (λ fixed. allow_of fixed ≢ Some method.Other) }
        ensures err { OnErr result (out.new ≡ out.old) };
}
