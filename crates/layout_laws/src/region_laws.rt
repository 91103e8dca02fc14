//! Laws that tie a valid plan's regions and its step budget to its layout. Who reaches the regions
//! of queues and pools, and where these lie, is told without the tables of the rules: a grant or a
//! test that those leave out can't be proved here. The budget's formulas say what the tables of the
//! layout say.

pub mod access;
pub mod budgets;
