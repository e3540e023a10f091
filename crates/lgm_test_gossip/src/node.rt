//! Announcements of nodes.

use crate::writing::{ZEROS, written};
use lgm_gossip::{BorrowedBytes, Bytes, Message, NodeAnnounce, Point, Signature};
use std::alloc::{AllocError, Global};

/// A `node_announcement` without addresses, whose color and alias are zeros.
#[derive(Clone, Copy)]
pub struct Node<'a> {
    pub node: Point,
    /// Seconds since 1970.
    pub timestamp: u32,
    pub features: &'a [u8],
    /// The bytes behind the last field.
    pub rest: &'a [u8],
}

impl<'a> Node<'a> {
    /// A node without features.
    pub fn new(node: Point, timestamp: u32) -> Node<'a> {
        Node {
            node,
            timestamp,
            features: &[],
            rest: &[],
        }
    }

    /// The message.
    pub fn message(&self) -> NodeAnnounce<'a> {
        NodeAnnounce {
            signature: Signature::new(&ZEROS),
            features: BorrowedBytes::new(self.features),
            timestamp: self.timestamp,
            node_id: self.node,
            rgb_color: [0; 3],
            alias: [0; 32],
            addresses: BorrowedBytes::new(&[]),
            rest: BorrowedBytes::new(self.rest),
        }
    }

    /// The bytes of the message, as [`written`] gives them.
    pub fn bytes(&self, alloc: Global) -> Result<Bytes, AllocError> {
        written(alloc, &Message::NodeAnnounce(self.message()))
    }
}
