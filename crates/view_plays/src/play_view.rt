//! What is drawn of a play: a chart of its steps, or how full the queues were, or a page with the
//! layout, both, the buffers and the report. The page is one file of HTML.

mod drawing;
pub mod page_text;

pub use drawing::draw_play;
