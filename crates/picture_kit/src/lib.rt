//! What texts for the eye are made of: XML as this project writes it, and pictures as lists of
//! shapes, with what they are as SVG.
#![tactic(auto)]

mod ink;
mod law;
mod numbers;
mod quote;
mod shape;
mod svg;
pub mod xml_text;

pub use ink::{Ink, kind_ink};
pub use law::quote_law;
pub use quote::push_quoted;
pub use shape::{Area, Form, Picture, Segment, Shape, Spot};
pub use svg::write_svg;
pub use xml_text::{Attribute, Head, Tag, push_escaped, write_xml, xml_law};
