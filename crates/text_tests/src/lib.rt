//! Tests of the rooms that read and print texts: words, class tables, traces' frames and the
//! switch, what clients must get, reports and journals. They stand apart from `plan_rows`, since a
//! program with tests is proved twice.
#![tactic(auto)]

#[cfg(test)]
mod class_tests;
#[cfg(test)]
mod expected_tests;
#[cfg(test)]
mod frame_tests;
#[cfg(test)]
mod journal_tests;
#[cfg(test)]
mod report_tests;
#[cfg(test)]
mod switch_tests;
#[cfg(test)]
mod word_tests;
