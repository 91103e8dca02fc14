//! The rows of the table: what one element of a class uses. The texts are of any type, so that
//! definitions say them as lists of bytes, and the program has them where the plan has them.
use crate::Place;
use crate::class_table::role::Role;
use cargo_core::{QueueKind, Series};

/// The domain of a name, and what it is in its class.
#[derive(Clone, Copy, Debug)]
pub struct RoleUse<T> {
    pub domain: T,
    pub role: Role,
}

/// The name of a queue or a pool: of a class whole in `first`, of a client with its number between
/// `first` and `rest`.
#[derive(Clone, Copy, Debug)]
pub struct UseName<T> {
    pub first: T,
    pub client: Option<u32>,
    pub rest: T,
}

/// A region in which a queue stands, and the two domains of the queue, producer and consumer.
#[derive(Clone, Copy, Debug)]
pub struct Link<T> {
    pub region: T,
    pub from: T,
    pub to: T,
}

/// From whom to whom a queue goes, and where it stands.
#[derive(Clone, Copy, Debug)]
pub enum Ends<T> {
    /// From the device to its driver, in no region.
    FromDevice(T),
    /// From the driver to its device, in no region.
    ToDevice(T),
    /// From one domain to another, in a region.
    Across(Link<T>),
}

/// A queue that an element uses.
#[derive(Clone, Copy, Debug)]
pub struct QueueUse<T> {
    pub name: UseName<T>,
    pub kind: QueueKind,
    pub ends: Ends<T>,
    /// The kind of the queue before it in its region, which has as many entries; none where it
    /// stands first.
    pub behind: Option<QueueKind>,
    /// How many entries it has.
    pub capacity: u64,
    /// How many buffers or requests may come to stand there, so far as a rule asks for room.
    pub holds: u128,
}

/// A domain that must map a region: to read it, and to write it too where `writes` says so.
#[derive(Clone, Copy, Debug)]
pub struct Grant<T> {
    pub domain: T,
    pub writes: bool,
}

/// A pool of buffers that an element uses.
#[derive(Debug, Drop)]
pub struct PoolUse<T> {
    pub name: UseName<T>,
    pub region: T,
    /// The domains that must map the region.
    pub must: Series<Grant<T>>,
    /// The domains that may map it too.
    pub may: Series<T>,
    /// How many buffers it has.
    pub buffers: u64,
    /// The bytes of a buffer.
    pub size: u64,
}

/// What the element of a class at a place uses.
#[derive(Debug, Drop)]
pub struct ClassElement<T> {
    pub place: Place,
    /// The domains that it names, with their roles, in the order of its keys.
    pub roles: Series<RoleUse<T>>,
    /// The domain that drives the device, which needs an interrupt: of a class, and not of a
    /// client.
    pub driver: Option<T>,
    /// Its queues, in the order of their numbers.
    pub queues: Series<QueueUse<T>>,
    /// Its pools, in the order of their numbers.
    pub pools: Series<PoolUse<T>>,
}
