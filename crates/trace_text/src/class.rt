//! The device classes, as the lines of hostile clients name them.
ghost use Rattle.std.specs.Prelude.{◌≡◌};
ghost use Rattle.trace_text.specs.Events.{class_of, inputs_of};

use line_text::same_text;

/// A device class.
#[derive(Clone, Copy, Debug, PartialEq, Eq)]
pub enum Class {
    Net,
    Serial,
    Blk,
}

// The class of a name.
pub fn class_of(name: &[u8]) -> Option<Class>
    ensures { result ≡ class_of name.now }
{
    if same_text(name, "net") {
        Some(Class::Net)
    } else if same_text(name, "serial") {
        Some(Class::Serial)
    } else if same_text(name, "blk") {
        Some(Class::Blk)
    } else {
        None
    }
}

// How many inputs a hostile client of a class has. It has as many outputs, which are numbered
// behind them.
pub fn inputs_of(class: Class) -> u64
    ensures { result ≡ inputs_of class }
{
    match class {
        Class::Net => 2,
        Class::Serial | Class::Blk => 1,
    }
}
