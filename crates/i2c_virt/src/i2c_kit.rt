//! What a bus of devices is made of that clients share by claims: the bytes by which a client asks
//! and is answered, which buffer an item names, what a device does, who has an address, and the
//! replies of each client by a plain program.

mod alone;
mod device;
mod devices;
mod entries;
mod page;
mod serving;

pub use alone::{Request, granted_to, owner_after, replies_alone, replies_by};
pub use device::Device;
pub use devices::{answer, new_devices};
pub use entries::{is_bus_request, is_own_request, is_reply_in, item_at, own_place, shared_place};
pub use page::{
    BUFFER_BYTES, BUFFERS, DATA, Head, MOST_BYTES, Operation, bytes_due, read_head, read_request,
    read_status, write_answer, write_request,
};
pub use serving::answer_to;
