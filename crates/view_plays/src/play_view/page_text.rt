//! One self-contained page with pictures and a report, which opens from a file.

mod page;

pub use page::{Part, write_page};
