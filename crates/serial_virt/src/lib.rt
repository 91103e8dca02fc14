//! The virtualisers of the serial class: one shares a driver's received bytes out to the clients,
//! by selections that stand in the input, and one merges the clients' bytes for the driver. That
//! each way has a virtualiser is sDDF's; the selections are this project's own.
#![tactic(auto)]

mod rx;
mod tx;

pub use rx::{SerialVirtRx, rx_drop_law, rx_hand_law, rx_row_law, rx_turn_law};
pub use tx::{SerialVirtTx, tx_hand_law, tx_row_law};
