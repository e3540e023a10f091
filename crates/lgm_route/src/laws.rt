//! Laws of the definitions.

ghost use Rattle.lgm_route.specs.Choice.{AnswerIsOne};
ghost use Rattle.lgm_route.specs.Routes.{LeastIsOne, NarrowingNeverHelps};
ghost use Rattle.lgm_route.specs.Preferred.{NothingPreferred, PreferredIsOne};

/// A law of routes, stated by the contract; the call does nothing.
///
/// If two edges with one id from one node are the same, or lead back to it, a request between different nodes has at
/// most one best walk, and that walk visits no node twice.
pub fn least_is_one()
    ensures { LeastIsOne }
{}

/// A law of routes, stated by the contract; the call does nothing.
///
/// If two edges with one id from one node are the same, or lead back to it, a request has exactly one answer: that of
/// exhaustive search.
pub fn answer_is_one()
    ensures { AnswerIsOne }
{}

/// A law of routes, stated by the contract; the call does nothing.
///
/// If two edges with one id from one node are the same, or lead back to it, a request has exactly one answer by
/// preferences, within limits: that of exhaustive search.
pub fn preferred_is_one()
    ensures { PreferredIsOne }
{}

/// A law of routes, stated by the contract; the call does nothing.
///
/// Without preferences, estimates and limits that answer is the one of the walk that sends least.
pub fn nothing_preferred()
    ensures { NothingPreferred }
{}

/// A law of routes, stated by the contract; the call does nothing.
///
/// If edges are removed, or carry less, a request that had no route has none, and the best walk sends no less.
pub fn narrowing_never_helps()
    ensures { NarrowingNeverHelps }
{}
