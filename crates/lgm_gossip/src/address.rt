//! Network addresses of nodes.

ghost use Rattle.std.specs.Prelude.{IfOk};
ghost use Rattle.lgm_wire.specs.reading.Reading.{Gives};
ghost use Rattle.lgm_gossip.specs.Addresses.{IsLongest};
ghost use Rattle.lgm_gossip.specs.inner.AddressesReading.{descriptor_at};

use crate::fault::DecodeFault;
use crate::fields::{fixed, number8, number16, segment};
use crate::sequence::{Bytes, Sequence};
use std::alloc::{AllocError, Global};

/// An address and a port at which a node accepts connections (BOLT 7, "The node_announcement Message").
#[derive(Debug, Drop)]
pub enum Address {
    /// Type 1, IPv4: the address in network byte order, and a TCP port.
    V4 { address: [u8; 4], port: u16 },
    /// Type 2, IPv6: the same with 16 bytes.
    V6 { address: [u8; 16], port: u16 },
    /// Type 3, a Tor version 2 onion service: 10 bytes of the hash of its key, and a TCP port.
    Tor2 { address: [u8; 10], port: u16 },
    /// Type 4, a Tor version 3 onion service: its public key of 32 bytes, a checksum of two, the version, and a TCP
    /// port.
    Tor3 { address: [u8; 35], port: u16 },
    /// Type 5, a DNS hostname: up to 255 bytes, which should be ASCII, as received, and a TCP port.
    Name { hostname: Bytes, port: u16 },
}

/// A list of addresses.
pub type AddressList = Sequence<Address>;

/// The leading address, and the bytes after it.
#[tactic(auto, unfolding(crate::specs::inner::AddressesReading::descriptor_at))]
fn descriptor(alloc: Global, bytes: &[u8]) -> Result<(Address, &[u8]), DecodeFault>
    ensures { Gives DecodeFault.NoMemory (λ x. (x.0, x.1.now)) result (descriptor_at bytes.now) }
{
    let [kind, rest @ ..] = bytes else {
        return Err(DecodeFault::Cut);
    };
    match *kind {
        1 => {
            let (address, rest) = fixed(rest)?;
            let (port, rest) = number16(rest)?;
            Ok((Address::V4 { address, port }, rest))
        }
        2 => {
            let (address, rest) = fixed(rest)?;
            let (port, rest) = number16(rest)?;
            Ok((Address::V6 { address, port }, rest))
        }
        3 => {
            let (address, rest) = fixed(rest)?;
            let (port, rest) = number16(rest)?;
            Ok((Address::Tor2 { address, port }, rest))
        }
        4 => {
            let (address, rest) = fixed(rest)?;
            let (port, rest) = number16(rest)?;
            Ok((Address::Tor3 { address, port }, rest))
        }
        5 => {
            let (len, rest) = number8(rest)?;
            let (hostname, rest) = segment(usize::from(len), rest)?;
            let (port, rest) = number16(rest)?;
            let hostname = Bytes::from_slice(alloc, hostname)?;
            Ok((Address::Name { hostname, port }, rest))
        }
        _ => Err(DecodeFault::Cut),
    }
}

/// The addresses up to the first descriptor that is incomplete or of an unknown type: the longest list of addresses
/// that the bytes begin with (BOLT 7, "The node_announcement Message").
pub fn addresses(alloc: Global, bytes: &[u8]) -> Result<AddressList, AllocError>
    ensures { IfOk result (λ list. IsLongest list bytes.now) }
{
    let mut items = Vec::new(alloc);
    let mut rest = bytes;
    loop {
        match descriptor(alloc, rest) {
            Ok((address, after)) => {
                items.push(address)?;
                rest = after;
            }
            Err(fault) => {
                return match fault {
                    DecodeFault::NoMemory => Err(AllocError),
                    _ => Ok(AddressList::from_vec(items)),
                };
            }
        }
    }
}
