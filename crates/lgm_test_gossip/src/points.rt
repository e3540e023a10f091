//! Points.

use lgm_gossip::Point;

/// The point of a number: a byte 2, and the number in 32 bytes. Such points are ordered as their numbers are.
pub fn point(number: u16) -> Point {
    let mut bytes = [0; 33];
    bytes[0] = 2;
    let [high, low] = number.to_be_bytes();
    bytes[31] = high;
    bytes[32] = low;
    Point(bytes)
}

/// The point with this first byte, and 32 times another byte.
pub fn repeated_point(first: u8, byte: u8) -> Point {
    let mut bytes = [byte; 33];
    bytes[0] = first;
    Point(bytes)
}
