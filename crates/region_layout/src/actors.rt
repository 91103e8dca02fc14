//! Who acts: the actors of a plan by their numbers, and its regions by their names.
ghost use Rattle.std.specs.Prelude.{◌≡◌, ◌+◌, ◌<◌, ◌≤◌, ◌++◌, length, map, filter, codes, IfOk};
ghost use Rattle.std.specs.Prelude.{OnOk, IfSome, slice_index};
ghost use Rattle.sdf_check.specs.Names.{place_of, region_named, region_names_of};
ghost use Rattle.region_layout.specs.Bases.{bases_of};
ghost use Rattle.region_layout.specs.Rows.{acts, actors_of, devices_of, name_if, actor_named};
ghost use Rattle.region_layout.specs.Rows.{acting_count, one_if, eth_number, uart_number};
ghost use Rattle.region_layout.specs.Rows.{disk_number, device_at};

use cargo_core::{Memory, Series, Text};
use sdf_plan::{Domain, Place, Plan, Region};
use std::alloc::Global;
use wire_core::ActorId;

/// A plan, with its actors and the bases of its regions.
#[derive(Drop)]
pub struct Names<'a> {
    pub plan: &'a Plan,
    pub actors: &'a Series<Text>,
    pub bases: &'a Series<u64>,
    ghost all_actors: { actors.now ≡ actors_of plan.now },
    ghost all_bases: { bases.now ≡ bases_of plan.now.memory_region },
    ghost few_actors: { length actors.now ≤ 66 },
    ghost few_regions: { length plan.now.memory_region ≤ 256 },
}

impl Names<'_> {
    // How many domains act.
    #[tactic(auto, using(crate::proofs::NameLemmas::acting_and_devices))]
    fn acting(&self) -> usize
        ensures count { result ≡ acting_count self.now.plan.now }
        ensures few { result ≤ 66 }
    {
        let net = one_if(self.plan.net.is_some());
        let serial = one_if(self.plan.serial.is_some());
        let blk = one_if(self.plan.blk.is_some());
        self.actors.len() - (net + serial + blk) as usize
    }

    // The number of the Ethernet device.
    #[tactic(auto, unfolding(crate::specs::Rows::eth_number))]
    pub fn eth(&self) -> ActorId
        ensures { result ≡ eth_number self.now.plan.now }
    {
        ActorId(self.acting() as u16)
    }

    // The number of the UART.
    #[tactic(auto, unfolding(crate::specs::Rows::uart_number))]
    pub fn uart(&self) -> ActorId
        ensures { result ≡ uart_number self.now.plan.now }
    {
        ActorId(self.acting() as u16 + one_if(self.plan.net.is_some()))
    }

    // The number of the disk.
    #[tactic(auto, unfolding(crate::specs::Rows::disk_number))]
    pub fn disk(&self) -> ActorId
        ensures { result ≡ disk_number self.now.plan.now }
    {
        let before = one_if(self.plan.net.is_some()) + one_if(self.plan.serial.is_some());
        ActorId(self.acting() as u16 + before)
    }

    // The number of the device of the class at a place.
    pub fn device(&self, place: Place) -> ActorId
        ensures { result ≡ device_at self.now.plan.now place }
    {
        match place {
            Place::Net => self.eth(),
            Place::Serial => self.uart(),
            _ => self.disk(),
        }
    }

    // The number of a domain that acts.
    #[tactic(auto, unfolding(crate::specs::Rows::actor_named))]
    pub fn actor(&self, name: &str) -> ActorId
        ensures { result ≡ actor_named self.now.plan.now name.now }
    {
        match place_of_text(self.actors.as_slice(), name) {
            Some(place) => ActorId(place as u16),
            None => ActorId(0),
        }
    }

    // The base of the region of a name.
    pub fn base(&self, region: u32) -> u64
        ensures { result ≡ slice_index (bases_of self.now.plan.now.memory_region) region }
    {
        base_of(self.bases, region)
    }

    // The number of a region.
    pub fn region(&self, name: &str) -> Option<u32>
        ensures { result ≡ region_named self.now.plan.now name.now }
    {
        match place_of_region(self.plan.memory_region.as_slice(), name) {
            Some(place) => Some(place as u32),
            None => None,
        }
    }
}

// Whether a class is there, as a number.
fn one_if(there: bool) -> u16
    ensures value { result ≡ one_if there }
    ensures few { result ≤ 1 }
{
    if there { 1 } else { 0 }
}

// The base of the region of a number; 0 where there is none.
fn base_of(bases: &Series<u64>, region: u32) -> u64
    ensures { result ≡ slice_index bases.now region }
{
    if (region as usize) < bases.len() {
        bases.as_slice()[region as usize]
    } else {
        0
    }
}

// The place of the first of these texts that is this one.
fn place_of_text(texts: &[Text], name: &str) -> Option<usize>
    ensures place { result ≡ place_of name.now texts.now }
    ensures within { IfSome result (λ place. place < length texts.now) }
{
    for (place, text) in texts.iter().enumerate() {
        if text.as_str() == name {
            return Some(place);
        }
    }
    None
}

// The place of the first of these regions that has this name.
fn place_of_region(regions: &[Region], name: &str) -> Option<usize>
    ensures place { result ≡ place_of name.now (region_names_of regions.now) }
    ensures within { IfSome result (λ place. place < length regions.now) }
{
    for (place, region) in regions.iter().enumerate() {
        if region.name.as_str() == name {
            return Some(place);
        }
    }
    None
}

// The names of the domains that act, and of the devices.
#[tactic(auto, using(std::proofs::Common::append_assoc), unfolding(crate::specs::Rows::actors_of))]
pub fn actors_of(alloc: Global, plan: &Plan) -> Result<Series<Text>, Memory>
    ensures { IfOk result (λ actors. actors ≡ actors_of plan.now) }
{
    let mut actors = acting(alloc, plan.protection_domain.as_slice())?;
    add_device(alloc, &mut actors, plan.net.is_some(), "@eth")?;
    add_device(alloc, &mut actors, plan.serial.is_some(), "@uart")?;
    add_device(alloc, &mut actors, plan.blk.is_some(), "@disk")?;
    Ok(actors)
}

// The names of the domains that act.
fn acting(alloc: Global, domains: &[Domain]) -> Result<Series<Text>, Memory>
    ensures { IfOk result (λ names. names
        ≡ map (λ (d : Domain). d.name) (filter acts domains.now)) }
{
    let mut names = Series::new(alloc);
    for domain in domains {
        if domain.program.as_str() != "idle" {
            names.push(Text::new(alloc, domain.name.as_str())?)?;
        }
    }
    Ok(names)
}

// The name of a device, where its class is there.
fn add_device(
    alloc: Global,
    actors: &mut Series<Text>,
    there: bool,
    name: &str,
) -> Result<(), Memory>
    ensures { OnOk result (actors.new ≡ actors.old ++ name_if there name.now) }
{
    if there {
        actors.push(Text::new(alloc, name)?)?;
    }
    Ok(())
}
