//! The key table: the keys of each element, what their values have to be, and what absence means.
/// What the value of a key has to be.
#[derive(Clone, Copy, Debug, PartialEq, Eq)]
pub enum Kind {
    /// The number 1 or 2.
    Version,
    /// An integer of at least 0.
    Number,
    /// A text of 1 to 64 letters, digits, `_`, `-` or `.` in ASCII.
    Name,
    Text,
    /// The name of a program that a domain may run.
    Program,
    /// `edge` or `level`.
    Trigger,
    /// `hold` or `drop`.
    Policy,
    Truth,
    /// A list of tables.
    List,
    /// A list of two tables.
    Pair,
    Table,
}

/// What it means that a key is absent.
#[derive(Clone, Copy, Debug, PartialEq, Eq)]
pub enum Absent {
    /// The key is required.
    Refused,
    Nothing,
    Empty,
    Number(u64),
    True,
    /// The text `level`.
    Level,
    /// The policy `hold`.
    Hold,
    /// The number that the element's budget is.
    Budget,
}

/// A key of an element.
#[derive(Clone, Copy, Debug)]
pub struct Key {
    pub name: &'static str,
    pub kind: Kind,
    pub absent: Absent,
}

/// The keys of an element, as an array: of each its name, its kind, and what it means that it is
/// absent.
macro_rules! keys {
    ($($name:ident: $kind:ident, $absent:expr;)*) => {
        [$(Key {
            name: stringify!($name),
            kind: Kind::$kind,
            absent: $absent,
        }),*]
    };
}

pub(crate) const SYSTEM: [Key; 7] = keys! {
    version: Version, Absent::Number(1);
    memory_region: List, Absent::Empty;
    protection_domain: List, Absent::Refused;
    channel: List, Absent::Empty;
    net: Table, Absent::Nothing;
    serial: Table, Absent::Nothing;
    blk: Table, Absent::Nothing;
};

pub(crate) const REGION: [Key; 4] = keys! {
    name: Name, Absent::Refused;
    size: Number, Absent::Refused;
    page_size: Number, Absent::Number(4096);
    phys_addr: Number, Absent::Nothing;
};

/// The key whose number stands for an absent period.
pub(crate) const BUDGET: &str = "budget";

pub(crate) const DOMAIN: [Key; 7] = keys! {
    name: Name, Absent::Refused;
    priority: Number, Absent::Number(0);
    budget: Number, Absent::Number(1000);
    period: Number, Absent::Budget;
    program: Program, Absent::Refused;
    map: List, Absent::Empty;
    irq: List, Absent::Empty;
};

pub(crate) const MAP: [Key; 5] = keys! {
    mr: Name, Absent::Refused;
    vaddr: Number, Absent::Refused;
    perms: Text, Absent::Refused;
    cached: Truth, Absent::True;
    setvar_vaddr: Text, Absent::Nothing;
};

pub(crate) const IRQ: [Key; 3] = keys! {
    irq: Number, Absent::Refused;
    id: Number, Absent::Refused;
    trigger: Trigger, Absent::Level;
};

pub(crate) const CHANNEL: [Key; 1] = keys! {
    end: Pair, Absent::Refused;
};

pub(crate) const END: [Key; 2] = keys! {
    pd: Name, Absent::Refused;
    id: Number, Absent::Refused;
};

pub(crate) const NET: [Key; 10] = keys! {
    driver: Name, Absent::Refused;
    rx_virt: Name, Absent::Refused;
    tx_virt: Name, Absent::Refused;
    rx_region: Name, Absent::Refused;
    rx_queues: Name, Absent::Refused;
    tx_queues: Name, Absent::Refused;
    rx_buffers: Number, Absent::Refused;
    rx_capacity: Number, Absent::Refused;
    tx_capacity: Number, Absent::Refused;
    client: List, Absent::Refused;
};

/// The keys that the network class has more in version 2.
pub(crate) const NET_MORE: [Key; 2] = keys! {
    max_frame: Number, Absent::Number(1514);
    rx_buffer_size: Number, Absent::Number(2048);
};

pub(crate) const NET_CLIENT: [Key; 13] = keys! {
    pd: Name, Absent::Refused;
    copier: Name, Absent::Refused;
    mac: Text, Absent::Refused;
    lease_queues: Name, Absent::Refused;
    rx_region: Name, Absent::Refused;
    rx_queues: Name, Absent::Refused;
    tx_region: Name, Absent::Refused;
    tx_queues: Name, Absent::Refused;
    rx_buffers: Number, Absent::Refused;
    rx_capacity: Number, Absent::Refused;
    tx_buffers: Number, Absent::Refused;
    tx_capacity: Number, Absent::Refused;
    policy: Policy, Absent::Hold;
};

/// The keys that a network client has more in version 2.
pub(crate) const NET_CLIENT_MORE: [Key; 2] = keys! {
    rx_buffer_size: Number, Absent::Number(2048);
    tx_buffer_size: Number, Absent::Number(2048);
};

pub(crate) const SERIAL: [Key; 8] = keys! {
    driver: Name, Absent::Refused;
    rx_virt: Name, Absent::Refused;
    tx_virt: Name, Absent::Refused;
    rx_queues: Name, Absent::Refused;
    tx_queues: Name, Absent::Refused;
    rx_capacity: Number, Absent::Refused;
    tx_capacity: Number, Absent::Refused;
    client: List, Absent::Refused;
};

pub(crate) const SERIAL_CLIENT: [Key; 6] = keys! {
    pd: Name, Absent::Refused;
    rx_queues: Name, Absent::Refused;
    tx_queues: Name, Absent::Refused;
    rx_capacity: Number, Absent::Refused;
    tx_capacity: Number, Absent::Refused;
    policy: Policy, Absent::Hold;
};

pub(crate) const BLK: [Key; 6] = keys! {
    driver: Name, Absent::Refused;
    virt: Name, Absent::Refused;
    queues: Name, Absent::Refused;
    region: Name, Absent::Refused;
    capacity: Number, Absent::Refused;
    client: List, Absent::Refused;
};

pub(crate) const BLK_CLIENT: [Key; 6] = keys! {
    pd: Name, Absent::Refused;
    region: Name, Absent::Refused;
    queues: Name, Absent::Refused;
    partition: Number, Absent::Refused;
    buffers: Number, Absent::Refused;
    capacity: Number, Absent::Refused;
};
