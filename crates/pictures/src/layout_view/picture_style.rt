//! The style sheets of pictures and pages: what they look like, and no more. They are put into a
//! picture or a page as they are.

ghost use Rattle.std.specs.Prelude.{◌≡◌, take, codes};
ghost use Rattle.pictures.specs.declared.layout_view.picture_style.page.TheConstants.{PAGE_FRONT};
ghost use Rattle.pictures.specs.declared.layout_view.picture_style.sheet.TheConstants.{PICTURE_STYLE};

mod page;
mod sheet;

pub use page::{PAGE_END, PAGE_FRONT};
pub use sheet::PICTURE_STYLE;

/// Where each is put it begins as it must there: a picture's style is an element, and a page says
/// of itself that it is HTML before all else.
pub fn style_law()
    ensures style { take 7 PICTURE_STYLE.now ≡ codes "<style>" }
    ensures front { take 15 PAGE_FRONT.now ≡ codes "<!DOCTYPE html>" }
{}
