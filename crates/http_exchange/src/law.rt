// Laws of the definitions.
ghost use Rattle.http_exchange.specs.Plain.{PlainExchange, PlainOpening};
ghost use Rattle.http_exchange.specs.Behind.{WaitingLags, CallKeeps};
ghost use Rattle.http_exchange.specs.Joined.{PiecesGiveBody, PiecesGiveFault, PiecesExchange, PiecesFront, PiecesHoldOne, PartHoldsOne};

/// What is gained by an exchange, or by an answer that is opened, puts no manifest and deletes nothing, where the
/// request is neither a manifest's put nor a DELETE, whatever hosts and targets redirects name.
pub fn plain_exchanges()
    ensures exchange { PlainExchange }
    ensures open { PlainOpening }
{}

/// Pieces up to 0 are the body of the response that an exchange would have given, and a fault behind pieces is the fault
/// of that exchange.
pub fn given_pieces()
    ensures body { PiecesGiveBody }
    ensures fault { PiecesGiveFault }
{}

/// A request that was begun, sent in pieces, and ended is one exchange of the joined body. At a fault a front of it was
/// sent. Within what the request counts, no second request stands in what was sent.
pub fn sent_pieces()
    ensures exchange { PiecesExchange }
    ensures front { PiecesFront }
    ensures one { PiecesHoldOne }
    ensures part { PartHoldsOne }
{}

/// What was given of a body lags behind what was received by no more than what waits. Behind a call, also at a fault, it
/// is still a front of the body, and lags by no more than what waited and what that call received.
pub fn given_lags()
    ensures waiting { WaitingLags }
    ensures call { CallKeeps }
{}
