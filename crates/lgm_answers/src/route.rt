//! Writing routes.

ghost use Rattle.std.specs.Prelude.{◌≡◌};
ghost use Rattle.lgm_script.specs.Output.{told_by, Writes};
ghost use Rattle.lgm_answers.specs.Answer.{hops_text, routed_text, route_text};
ghost use Rattle.lgm_answers.specs.Routing.{asked_route};

use lgm_payload::{Payloads, build};
use lgm_route::{Request, Route, RouteFault};
use lgm_script::{Line, Output, RouteParameters, SendFault, Sink};
use std::alloc::Global;

/// Writes a line for each hop, with its payload.
fn send_hops<W: Sink>(
    number: u64,
    route: &Route,
    payloads: &Payloads,
    output: &mut Output<'_, W>,
) -> Result<(), SendFault>
    ensures { Writes (told_by W.seen output.old) (told_by W.seen output.new)
        (hops_text number route.now payloads.now) result }
{
    let hops = route.as_slice();
    let payloads = payloads.as_slice();
    for place in 0..hops.len().min(payloads.len()) {
        let hop = Line::Hop(hops[place].scid, payloads[place].as_slice());
        output.send(number, &hop)?;
    }
    Ok(())
}

/// Writes what the payer of a route sends, when it expires and the number of hops, and then each hop.
fn send_route<W: Sink>(
    number: u64,
    route: &Route,
    payloads: &Payloads,
    output: &mut Output<'_, W>,
) -> Result<(), SendFault>
    ensures { Writes (told_by W.seen output.old) (told_by W.seen output.new)
        (routed_text number route.now payloads.now) result }
{
    let line = Line::Route {
        sent: route.sent(),
        expiry: route.expiry(),
        hops: route.as_slice().len(),
    };
    output.send(number, &line)?;
    send_hops(number, route, payloads, output)
}

/// Writes the route of a payment with this secret, with the payloads of its hops, or why there is none.
pub fn send_found<W: Sink>(
    alloc: Global,
    number: u64,
    secret: &[u8; 32],
    found: &Result<Route, RouteFault>,
    output: &mut Output<'_, W>,
) -> Result<(), SendFault>
    ensures { Writes (told_by W.seen output.old) (told_by W.seen output.new)
        (route_text number secret.now found.now) result }
{
    match found {
        Ok(route) => {
            let payloads = build(alloc, route, secret)?;
            send_route(number, route, &payloads, output)
        }
        Err(fault) => output.send(number, &Line::Word(fault.word())),
    }
}

/// The route that a payment requests.
pub fn asked_route(payment: &RouteParameters) -> Request
    ensures { result ≡ asked_route payment.now }
{
    Request {
        payer: payment.payer,
        payee: payment.payee,
        amount: payment.amount,
        expiry: payment.expiry,
    }
}
