//! XML as this project writes it: tags with attributes, one on each line, with the escapes of the
//! values in one place, and a law by which a plain reader gives the tags back.

mod escape;
mod law;
mod tag;
mod write;

pub use escape::push_escaped;
pub use law::xml_law;
pub use tag::{Attribute, Head, Tag};
pub use write::write_xml;
