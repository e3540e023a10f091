//! Addresses of nodes, and feature bits.

use super::words::bytes_of;
use lgm_gossip::{Address, addresses, has_even_bit};
use std::alloc::Global;
use std::test::Fail;

fn text_of(alloc: Global, address: &Address) -> Result<String, Fail> {
    let (kind, digits, port) = match address {
        Address::V4 { address, port } => ("v4", hex::encode(alloc, address.as_slice())?, port),
        Address::V6 { address, port } => ("v6", hex::encode(alloc, address.as_slice())?, port),
        Address::Tor2 { address, port } => ("tor2", hex::encode(alloc, address.as_slice())?, port),
        Address::Tor3 { address, port } => ("tor3", hex::encode(alloc, address.as_slice())?, port),
        Address::Name { hostname, port } => (
            "name",
            hex::encode(alloc, hostname.as_slice())?,
            port,
        ),
    };
    Ok(format!(in alloc; "{kind} {digits} {port};")?)
}

/// The addresses of these words, each followed by a semicolon.
fn texts_of(alloc: Global, words: &str) -> Result<String, Fail> {
    let bytes = bytes_of(alloc, words)?;
    let list = addresses(alloc, bytes.as_slice())?;
    let mut texts = String::new(alloc);
    for address in list.as_slice() {
        texts.push_str(text_of(alloc, address)?.as_str())?;
    }
    Ok(texts)
}

/// Each kind of descriptor, and what is read before an unknown one.
#[test]
fn descriptors(rt: HostRuntime) -> Result<(), Fail> {
    let table: [(&str, &str); 9] = [
        (
            "017f0000012607 0503612e622607 09ff",
            "v4 7f000001 9735;name 612e62 9735;",
        ),
        ("02 0102*8 0001", "v6 01020102010201020102010201020102 1;"),
        ("03 0102*5 0100", "tor2 01020102010201020102 256;"),
        (
            "04 0102030405*7 0203",
            "tor3 0102030405010203040501020304050102030405010203040501020304050102030405 515;",
        ),
        ("05 00 ffff", "name  65535;"),
        ("", ""),
        ("00 7f000001 2607", ""),
        ("06 7f000001 2607", ""),
        ("01 7f000001 2607 06 01 7f000001 2607", "v4 7f000001 9735;"),
    ];
    for (words, want) in table {
        let texts = texts_of(rt.alloc(), words)?;
        assert_eq!(rt; texts.as_str(), want, "reading {words}");
    }
    Ok(())
}

/// A descriptor that is cut ends the list, whatever its kind.
#[test]
fn cut_descriptors(rt: HostRuntime) -> Result<(), Fail> {
    for words in [
        "01 7f000001 2607",
        "02 00*16 2607",
        "03 00*10 2607",
        "04 00*35 2607",
        "05 03 612e62 2607",
        "05 ff 61*255 2607",
    ] {
        let mut bytes = bytes_of(rt.alloc(), words)?;
        let whole = addresses(rt.alloc(), bytes.as_slice())?;
        assert_eq!(rt; whole.as_slice().len(), 1, "reading {words}");
        bytes.pop();
        let cut = addresses(rt.alloc(), bytes.as_slice())?;
        assert_eq!(rt;
            cut.as_slice().len(),
            0,
            "reading {words} without its last byte"
        );
    }
    Ok(())
}

/// Bits are numbered from the least one of the last byte.
#[test]
fn even_bits(rt: HostRuntime) -> Result<(), Fail> {
    for (words, want) in [
        ("", false),
        ("00*3", false),
        ("01", true),
        ("02", false),
        ("40", true),
        ("80", false),
        ("aa*4", false),
        ("0100", true),
        ("0200", false),
        ("aaaeaa", true),
    ] {
        let bytes = bytes_of(rt.alloc(), words)?;
        assert_eq!(rt; has_even_bit(bytes.as_slice()), want, "in {words}");
    }
    Ok(())
}
