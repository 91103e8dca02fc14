//! The tags of an XML text.
use cargo_core::{Bytes, Series, Text};

/// An attribute of an element. The value is any text, as its bytes: it is escaped where it is
/// written.
#[derive(Debug, Drop)]
pub struct Attribute {
    pub name: Text,
    pub value: Bytes,
}

/// The name of an element, and its attributes in the order in which they are written.
#[derive(Debug, Drop)]
pub struct Head {
    pub name: Text,
    pub attributes: Series<Attribute>,
}

/// A tag: an element begins, or stands alone with nothing inside it, or ends.
#[derive(Debug, Drop)]
pub enum Tag {
    Open(Head),
    Alone(Head),
    Close(Text),
}
