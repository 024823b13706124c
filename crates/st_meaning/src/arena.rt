//! Nodes of a method's tree, each by its place: what names mean, where literals stand and which messages are forms is
//! settled, so that a loop comes to a node again without asking.

use crate::deed::{Value, Variable};
use st_emit::{Loop, OneSided, TwoSided};
use st_scan::Text;

/// Places of nodes, in order.
pub type NodePlaces = Vec<usize>;

/// Statements of a block or a method, and whether the last one stands after `^`.
#[derive(Drop)]
pub struct Statements {
    pub nodes: NodePlaces,
    pub returns: bool,
}

/// A message, with the places of its arguments.
#[derive(Drop)]
pub struct Message {
    pub selector: Text,
    pub arguments: NodePlaces,
}

/// The messages to a receiver: one, or those of a cascade.
pub type MessageList = Vec<Message>;

/// What a node begins with.
#[derive(Drop)]
pub enum Start {
    Known(Value),
    Held(Variable),
    /// A block, which is made.
    Block,
    /// A loop, with its condition and what is repeated.
    Loop(Loop, Statements, Statements),
}

/// What is done to a value.
#[derive(Drop)]
pub enum Act {
    Assign(Variable),
    /// Messages, to super or not.
    Send(bool, MessageList),
    One(OneSided, Statements),
    Two(TwoSided, Statements, Statements),
}

/// What is done to a value, the first first.
pub type ActList = Vec<Act>;

/// What a node begins with, and what is done to that.
#[derive(Drop)]
pub struct Node {
    pub start: Start,
    pub acts: ActList,
}

/// Nodes by their places. A node names only those before it.
pub type Arena = Vec<Node>;
