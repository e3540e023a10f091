//! The verdicts of the caller on a message.

ghost use Rattle.std.specs.Prelude.{◌≡◌};
ghost use Rattle.lgm_c.specs.Evidence.{evidence_of};

use crate::argument_fault::ArgumentFault;
use lgm_check::{Evidence, Funding, Sig};
use lgm_gossip::Point;

/// The verdicts that the numbers stand for, or the first number that stands for none: on the signatures, of which one may be
/// the signer's, and on the funding output, which may have this many satoshi.
pub(crate) fn evidence(
    sig: u32,
    signer: &[u8; 33],
    funding: u32,
    sat: u64,
) -> Result<Evidence, ArgumentFault>
    ensures { result ≡ evidence_of sig signer.now funding sat }
{
    let sig = match sig {
        0 => Sig::AllFour(true),
        1 => Sig::AllFour(false),
        2 => Sig::By(Point(*signer)),
        3 => Sig::Nobody,
        _ => return Err(ArgumentFault::Sig),
    };
    let funding = match funding {
        0 => Funding::NotAsked,
        1 => Funding::Unspent(sat),
        2 => Funding::Spent,
        3 => Funding::Wrong,
        _ => return Err(ArgumentFault::Funding),
    };
    Ok(Evidence { sig, funding })
}
