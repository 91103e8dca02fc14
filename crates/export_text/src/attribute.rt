//! Attributes and elements as values: what each element of a system file is made of.
ghost use Rattle.std.specs.Prelude.{◌≡◌, ◌++◌, ◌∷◌, [], IfOk, OnOk};
ghost use Rattle.export_text.specs.System.{attribute, attribute_of, same, alone};
ghost use Rattle.export_text.specs.Numbers.{hex_text};
ghost use Rattle.picture_kit.specs.declared.xml_text.tag.Tag.TheVariants.{Open, Close};
ghost use Rattle.std.specs.Fmt.{decimal};

use crate::number::write_hex;
use cargo_core::{Bytes, Memory, Series, Text};
use picture_kit::xml_text::{Attribute, Head, Tag};
use std::alloc::Global;

/// The attributes of an element, as they are made one after another.
#[derive(Drop)]
pub struct Attributes {
    alloc: Global,
    all: Series<Attribute>,
}

impl std::marker::Model for Attributes {
    ghost use Rattle.std.specs.Prelude.{List};
    ghost use Rattle.picture_kit.specs.declared.xml_text.tag.Attribute.{Attribute};

    ghost Value = { List Attribute };

    ghost view = { λ s. s.all };
}

impl Attributes {
    /// No attributes.
    pub fn new(alloc: Global) -> Attributes
        ensures { result ≡ [] }
    {
        Attributes {
            alloc,
            all: Series::new(alloc),
        }
    }

    // One more attribute.
    fn push(&mut self, name: &str, value: Bytes) -> Result<(), Memory>
        ensures { OnOk result (self.new ≡ self.old ++ attribute name.now value ∷ []) }
    {
        let name = Text::new(self.alloc, name)?;
        self.all.push(Attribute { name, value })
    }

    /// One more attribute, whose value is a text.
    pub fn text(&mut self, name: &str, value: &str) -> Result<(), Memory>
        ensures { OnOk result (self.new ≡ self.old ++ attribute name.now value.now ∷ []) }
    {
        let value = Bytes::from_slice(self.alloc, value.as_bytes())?;
        self.push(name, value)
    }

    /// One more attribute, whose value is a number in decimal.
    pub fn decimal(&mut self, name: &str, value: u64) -> Result<(), Memory>
        ensures { OnOk result (self.new ≡ self.old ++ attribute name.now (decimal value) ∷ []) }
    {
        let digits = format!(in self.alloc; "{value}")?;
        self.text(name, digits.as_str())
    }

    /// One more attribute, whose value is an address or a size.
    pub fn hex(&mut self, name: &str, value: u64) -> Result<(), Memory>
        ensures { OnOk result (self.new ≡ self.old ++ attribute name.now (hex_text value) ∷ []) }
    {
        let text = write_hex(self.alloc, value)?;
        self.push(name, text)
    }

    /// One more attribute with a text, where there is one.
    pub fn text_if(&mut self, name: &str, value: &Option<Text>) -> Result<(), Memory>
        ensures { OnOk result (self.new ≡ self.old ++ attribute_of same name.now value.now) }
    {
        match value {
            Some(value) => self.text(name, value.as_str()),
            None => Ok(()),
        }
    }

    /// One more attribute with an address, where there is one.
    pub fn hex_if(&mut self, name: &str, value: Option<u64>) -> Result<(), Memory>
        ensures { OnOk result (self.new ≡ self.old ++ attribute_of hex_text name.now value) }
    {
        match value {
            Some(value) => self.hex(name, value),
            None => Ok(()),
        }
    }

    // What a tag of these attributes has in front of its end.
    fn into_head(self, name: &str) -> Result<Head, Memory>
        ensures { IfOk result (λ head. head ≡ record { name = name.now; attributes = self }) }
    {
        Ok(Head {
            name: Text::new(self.alloc, name)?,
            attributes: self.all,
        })
    }

    /// The element of a name with these attributes that has no other inside.
    pub fn into_alone(self, name: &str) -> Result<Tag, Memory>
        ensures { IfOk result (λ tag. tag ≡ alone name.now self) }
    {
        Ok(Tag::Alone(self.into_head(name)?))
    }

    /// The beginning of the element of a name with these attributes.
    pub fn into_open(self, name: &str) -> Result<Tag, Memory>
        ensures { IfOk result (λ tag. tag
            ≡ Open (record { name = name.now; attributes = self })) }
    {
        Ok(Tag::Open(self.into_head(name)?))
    }
}

/// The beginning of the element of a name, without attributes.
pub fn open(alloc: Global, name: &str) -> Result<Tag, Memory>
    ensures { IfOk result (λ tag. tag ≡ Open (record { name = name.now; attributes = [] })) }
{
    Attributes::new(alloc).into_open(name)
}

/// The end of the element of a name.
pub fn close(alloc: Global, name: &str) -> Result<Tag, Memory>
    ensures { IfOk result (λ tag. tag ≡ Close name.now) }
{
    Ok(Tag::Close(Text::new(alloc, name)?))
}
