//! Lists that have one entry for each client.
ghost use Rattle.std.specs.Prelude.{◌≡◌, ◌<◌, [], ◌∷◌, length, OnOk, IfOk};
ghost use Rattle.line_text.specs.Lists.{per_client, grown_at};

use cargo_core::{Bytes, FrameLog, Memory, Series};
use std::alloc::Global;
use std::mem;

/// An empty list for each client.
#[tactic(auto, using(crate::proofs::Rows::per_client_more))]
pub fn no_items<T: Drop>(alloc: Global, clients: usize) -> Result<Series<Series<T>>, Memory>
    ensures { IfOk result (λ lists. lists ≡ per_client clients (λ _. [])) }
{
    let mut lists = Series::new(alloc);
    for _client in 0..clients {
        lists.push(Series::new(alloc))?;
    }
    Ok(lists)
}

/// Gives a client one more item. After want of memory the lists are gone.
#[tactic(auto, using(crate::proofs::Rows::grown_at_set))]
pub fn add_item<T: Drop>(
    alloc: Global,
    lists: &mut Series<Series<T>>,
    client: usize,
    item: T,
) -> Result<(), Memory>
    requires { client < length lists.old }
    ensures { OnOk result (lists.new ≡ grown_at lists.old client (item ∷ [])) }
{
    let mut all = mem::replace(lists, Series::new(alloc)).into_vec();
    let list = &mut all[client];
    list.push(item)?;
    *lists = Series::from_vec(all);
    Ok(())
}

/// An empty list of frames for each client.
#[tactic(auto, using(crate::proofs::Rows::per_client_more))]
pub fn no_frames(alloc: Global, clients: usize) -> Result<Series<FrameLog>, Memory>
    ensures { IfOk result (λ lists. lists ≡ per_client clients (λ _. [])) }
{
    let mut lists = Series::new(alloc);
    for _client in 0..clients {
        lists.push(FrameLog::new(alloc))?;
    }
    Ok(lists)
}

/// No bytes for each client.
#[tactic(auto, using(crate::proofs::Rows::per_client_more))]
pub fn no_bytes(alloc: Global, clients: usize) -> Result<Series<Bytes>, Memory>
    ensures { IfOk result (λ lists. lists ≡ per_client clients (λ _. [])) }
{
    let mut lists = Series::new(alloc);
    for _client in 0..clients {
        lists.push(Bytes::new(alloc))?;
    }
    Ok(lists)
}

/// Gives a client one more frame. After want of memory the lists are gone.
#[tactic(auto, using(crate::proofs::Rows::grown_at_set))]
pub fn add_frame(
    alloc: Global,
    lists: &mut Series<FrameLog>,
    client: usize,
    frame: &[u8],
) -> Result<(), Memory>
    requires { client < length lists.old }
    ensures { OnOk result (lists.new ≡ grown_at lists.old client (frame.now ∷ [])) }
{
    let mut all = mem::replace(lists, Series::new(alloc)).into_vec();
    let list = &mut all[client];
    list.push(frame)?;
    *lists = Series::from_vec(all);
    Ok(())
}

/// Gives a client more bytes. After want of memory the lists are gone.
#[tactic(auto, using(crate::proofs::Rows::grown_at_set))]
pub fn add_bytes(
    alloc: Global,
    lists: &mut Series<Bytes>,
    client: usize,
    bytes: &[u8],
) -> Result<(), Memory>
    requires { client < length lists.old }
    ensures { OnOk result (lists.new ≡ grown_at lists.old client bytes.now) }
{
    let mut all = mem::replace(lists, Series::new(alloc)).into_vec();
    let list = &mut all[client];
    list.extend_from_slice(bytes)?;
    *lists = Series::from_vec(all);
    Ok(())
}
