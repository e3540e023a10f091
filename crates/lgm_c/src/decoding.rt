//! The first fault of a malformed message.

ghost use Rattle.std.specs.Prelude.{◌≡◌};
ghost use Rattle.lgm_c.specs.Decoding.{decode_number, TellsFault};

use lgm_gossip::{DecodeFault, decode};
use lgm_wire::WireFault;
use std::alloc::Global;

/// The number of a fault: 2 and 3 are those of a refusal for it.
fn decode_number(fault: DecodeFault) -> u32
    ensures { result ≡ decode_number fault }
{
    match fault {
        DecodeFault::UnknownEven(_) => 2,
        DecodeFault::UnknownOdd(_) => 3,
        DecodeFault::Long => 51,
        DecodeFault::Short => 52,
        DecodeFault::Cut => 53,
        DecodeFault::Encoding(_) => 54,
        DecodeFault::Ids => 55,
        DecodeFault::Tlv(WireFault::Cut) => 56,
        DecodeFault::Tlv(WireFault::NotMinimal) => 57,
        DecodeFault::Tlv(WireFault::TooLong) => 58,
        DecodeFault::Tlv(WireFault::Order) => 59,
        DecodeFault::TlvKind(_) => 60,
        DecodeFault::Flags => 61,
        DecodeFault::Tlv(WireFault::NoMemory) | DecodeFault::NoMemory => 102,
    }
}

/// The first fault of a message, or 0 if it has none. A fault that takes no memory to find is returned even if memory is
/// short.
#[unsafe(no_mangle)]
pub extern "C" fn lgm_fault_of(alloc: Global, message: &[u8]) -> u32
    ensures { TellsFault message.now result }
{
    match decode(alloc, message) {
        Ok(_message) => 0,
        Err(fault) => decode_number(fault),
    }
}
