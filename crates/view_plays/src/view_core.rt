//! The program beside the main one, as one call over a shelf of texts and two sinks: it shows a
//! description in other forms. A word for another form is one case of `View`, of `read_words` and
//! of `draw`.

mod answer;
mod ask;
mod deciding;
mod drawing;
mod ended;
mod err_sink;
mod line;
mod viewing;

pub use answer::Answer;
pub use ask::{View, read_words};
pub use deciding::decide_view;
pub use ended::Ended;
pub use err_sink::ErrSink;
pub use viewing::view;
