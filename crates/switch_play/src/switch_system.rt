//! A switch between clients, as it is played.

mod playing;
mod reporting;

pub use playing::play_ports;
