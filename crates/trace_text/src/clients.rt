//! The clients of each class of a plan, as the lines of a trace name them.
ghost use Rattle.std.specs.Prelude.{◌≡◌, length};
ghost use Rattle.trace_text.specs.Events.{net_clients, serial_clients, blk_clients, runs};
ghost use Rattle.trace_text.specs.Events.{is_source, is_speaker, is_script, is_net_rogue};
ghost use Rattle.trace_text.specs.Events.{is_serial_rogue, is_blk_rogue, is_rogue};
ghost use Rattle.trace_text.specs.Reading.{clients_in};

use crate::class::Class;
use cargo_core::Text;
use line_text::same_text;
use sdf_plan::{Domain, Plan};

// How many clients the network class has.
pub fn net_client_count(plan: &Plan) -> usize
    ensures { result ≡ length (net_clients plan.now) }
{
    match &plan.net {
        Some(net) => net.client.len(),
        None => 0,
    }
}

// How many clients the serial class has.
pub fn serial_client_count(plan: &Plan) -> usize
    ensures { result ≡ length (serial_clients plan.now) }
{
    match &plan.serial {
        Some(serial) => serial.client.len(),
        None => 0,
    }
}

// How many clients the block class has.
pub fn blk_client_count(plan: &Plan) -> usize
    ensures { result ≡ length (blk_clients plan.now) }
{
    match &plan.blk {
        Some(blk) => blk.client.len(),
        None => 0,
    }
}

/// Whether the network client of a number sends frames of its own.
#[tactic(auto, unfolding(crate::specs::Events::is_source))]
pub fn is_source(plan: &Plan, client: u64) -> bool
    ensures { result ≡ is_source plan.now client }
{
    match &plan.net {
        Some(net) if client < net.client.len() as u64 => runs(
            plan.protection_domain.as_slice(),
            &net.client.get(client as usize).pd,
            "net_source",
        ),
        _ => false,
    }
}

// Whether the serial client of a number says bytes of its own.
#[tactic(auto, unfolding(crate::specs::Events::is_speaker))]
pub fn is_speaker(plan: &Plan, client: u64) -> bool
    ensures { result ≡ is_speaker plan.now client }
{
    match &plan.serial {
        Some(serial) if client < serial.client.len() as u64 => runs(
            plan.protection_domain.as_slice(),
            &serial.client.get(client as usize).pd,
            "serial_speaker",
        ),
        _ => false,
    }
}

// Whether the block client of a number makes requests of its own.
#[tactic(auto, unfolding(crate::specs::Events::is_script))]
pub fn is_script(plan: &Plan, client: u64) -> bool
    ensures { result ≡ is_script plan.now client }
{
    match &plan.blk {
        Some(blk) if client < blk.client.len() as u64 => runs(
            plan.protection_domain.as_slice(),
            &blk.client.get(client as usize).pd,
            "blk_script",
        ),
        _ => false,
    }
}

/// Whether the network client of a number is a hostile one.
#[tactic(auto, unfolding(crate::specs::Events::is_net_rogue))]
pub fn is_net_rogue(plan: &Plan, client: u64) -> bool
    ensures { result ≡ is_net_rogue plan.now client }
{
    match &plan.net {
        Some(net) if client < net.client.len() as u64 => runs(
            plan.protection_domain.as_slice(),
            &net.client.get(client as usize).pd,
            "net_rogue",
        ),
        _ => false,
    }
}

/// Whether the serial client of a number is a hostile one.
#[tactic(auto, unfolding(crate::specs::Events::is_serial_rogue))]
pub fn is_serial_rogue(plan: &Plan, client: u64) -> bool
    ensures { result ≡ is_serial_rogue plan.now client }
{
    match &plan.serial {
        Some(serial) if client < serial.client.len() as u64 => runs(
            plan.protection_domain.as_slice(),
            &serial.client.get(client as usize).pd,
            "serial_rogue",
        ),
        _ => false,
    }
}

/// Whether the block client of a number is a hostile one.
#[tactic(auto, unfolding(crate::specs::Events::is_blk_rogue))]
pub fn is_blk_rogue(plan: &Plan, client: u64) -> bool
    ensures { result ≡ is_blk_rogue plan.now client }
{
    match &plan.blk {
        Some(blk) if client < blk.client.len() as u64 => runs(
            plan.protection_domain.as_slice(),
            &blk.client.get(client as usize).pd,
            "blk_rogue",
        ),
        _ => false,
    }
}

// Whether the client of a number is a hostile one of its class.
pub fn is_rogue(plan: &Plan, class: Class, client: u64) -> bool
    ensures { result ≡ is_rogue plan.now class client }
{
    match class {
        Class::Net => is_net_rogue(plan, client),
        Class::Serial => is_serial_rogue(plan, client),
        Class::Blk => is_blk_rogue(plan, client),
    }
}

// How many clients a class has.
pub fn client_count(plan: &Plan, class: Class) -> usize
    ensures { result ≡ clients_in plan.now class }
{
    match class {
        Class::Net => net_client_count(plan),
        Class::Serial => serial_client_count(plan),
        Class::Blk => blk_client_count(plan),
    }
}

/// Whether the first domain of a name runs a program.
pub fn runs(domains: &[Domain], name: &Text, program: &str) -> bool
    ensures { result ≡ runs domains.now name.now program.now }
{
    for domain in domains {
        if same_text(domain.name.as_str().as_bytes(), name.as_str()) {
            return same_text(domain.program.as_str().as_bytes(), program);
        }
    }
    false
}
