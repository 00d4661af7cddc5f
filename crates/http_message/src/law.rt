// Laws of the definitions.
ghost use Rattle.std.specs.Prelude.{ℕ, Bool, List};
ghost use Rattle.skopeo_outside.specs.Wire.{Conversation};
ghost use Rattle.http_message.specs.declared.request.Request.{Request};
ghost use Rattle.http_message.specs.Spelling.{OneOutcome, OutcomeStays};
ghost use Rattle.http_message.specs.Requests.{OneHead, PutsNone, DeletesNone, HoldsOne};
ghost use Rattle.http_message.specs.Writes.{OwnWrites, PutWrites, PlainRequests};

/// All bytes that were received spell at most one outcome. One that they spell before their end, but unfinished, stays
/// whatever comes behind, so in what pieces they came plays no part.
pub fn one_outcome()
    ensures outcome { (get : Bool) (limit : ℕ) → OneOutcome get limit }
    ensures stays { (get : Bool) (limit : ℕ) → OutcomeStays get limit }
{}

/// What was sent of a request, where nothing in it ends a line, has that request's head and no other, and behind it
/// a front of its body.
/// Where the request is no manifest's put it puts none, and where it is no DELETE it deletes nothing.
pub fn one_head()
    ensures head { (r : Request) → OneHead r }
    ensures puts_none { (r : Request) → PutsNone r }
    ensures deletes_none { (r : Request) → DeletesNone r }
{}

/// What was sent of a request that may be sent, with no more of a body than it counts, holds no second request,
/// however leniently it is read.
pub fn one_request()
    ensures holds { (r : Request) → HoldsOne r }
{}

/// Where nothing in a request ends a line, it writes no manifest on a wire but its own, a put that tells its body's
/// type writes that one, and conversations of other requests write none and delete nothing.
pub fn own_writes()
    ensures own { (r : Request) → OwnWrites r }
    ensures put { (r : Request) → PutWrites r }
    ensures plain { (gained : List Conversation) → PlainRequests gained }
{}
