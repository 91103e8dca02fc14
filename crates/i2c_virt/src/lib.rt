//! The actors of a bus that clients share by claims: the clients, the virtualiser, which answers
//! claims and hands transfers on, the driver, which copies, and the bus itself; and what all of them
//! are made of: the bytes of a request and of its reply, the devices, and who has an address.
#![tactic(auto)]

mod bus_device;
mod desk;
mod driver;
pub mod i2c_client;
pub mod i2c_kit;
mod loose;
mod owners;
mod virtualiser;
mod work;

pub use bus_device::{BusDevice, bus_law};
pub use desk::Desk;
pub use driver::{BusDriver, driver_law};
pub use i2c_client::{BusClient, client_law};
pub use i2c_kit::{
    BUFFER_BYTES, BUFFERS, Device, Head, Operation, Request, granted_to, owner_after, read_request,
    read_status, replies_alone, replies_by, write_answer, write_request,
};
pub use loose::Loose;
pub use owners::Owners;
pub use virtualiser::{I2cVirt, virt_law};
pub use work::{From, Giving, Stray, Wanting, Work};
