//! That reading gives back what was written.
ghost use Rattle.std.specs.Prelude.{◌≡◌, List, Some};
ghost use Rattle.std.specs.List.{AllByRecursion};
ghost use Rattle.picture_kit.specs.declared.xml_text.tag.Tag.{Tag};
ghost use Rattle.picture_kit.specs.XmlText.Spelling.{xml_text};
ghost use Rattle.picture_kit.specs.XmlText.Reading.{IsTag, read_xml};

/// A plain reader of the grammar gets back just the tags that were written, each once and in order,
/// with the values of their attributes as they were, whatever these are: so no text can leave its
/// attribute.
pub fn xml_law()
    ensures { (tags : List Tag) → AllByRecursion IsTag tags → read_xml (xml_text tags) ≡ Some tags }
{}
