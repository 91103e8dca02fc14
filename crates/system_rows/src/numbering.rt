//! Whether each list of a plan has fewer than 2^32 elements, as a plan that was read has: one made
//! by hand is asked.
ghost use Rattle.std.specs.Prelude.{◌≡◌, ◌<◌, ◌^◌, true, length, All, IfSome};
ghost use Rattle.sdf_plan.specs.Elements.{IsNumbered};
ghost use Rattle.sdf_plan.specs.declared.plan.Channel.{Channel};
ghost use Rattle.sdf_plan.specs.declared.plan.Domain.{Domain};

use sdf_plan::{Channel, Domain, Plan};

const MOST: usize = 4294967295;

fn has_few_maps(domains: &[Domain]) -> bool
    ensures { result ≡ true → All (λ (d : Domain). length d.map < 2 ^ 32) domains.now }
{
    for domain in domains {
        if domain.map.len() > MOST {
            return false;
        }
    }
    true
}

fn has_few_irqs(domains: &[Domain]) -> bool
    ensures { result ≡ true → All (λ (d : Domain). length d.irq < 2 ^ 32) domains.now }
{
    for domain in domains {
        if domain.irq.len() > MOST {
            return false;
        }
    }
    true
}

fn has_few_ends(channels: &[Channel]) -> bool
    ensures { result ≡ true → All (λ (c : Channel). length c.end < 2 ^ 32) channels.now }
{
    for channel in channels {
        if channel.end.len() > MOST {
            return false;
        }
    }
    true
}

// Whether the classes have few clients.
fn has_few_clients(plan: &Plan) -> bool
    ensures net { result ≡ true → IfSome plan.now.net (λ n. length n.client < 2 ^ 32) }
    ensures serial { result ≡ true → IfSome plan.now.serial (λ s. length s.client < 2 ^ 32) }
    ensures blk { result ≡ true → IfSome plan.now.blk (λ b. length b.client < 2 ^ 32) }
{
    if let Some(net) = &plan.net {
        if net.client.len() > MOST {
            return false;
        }
    }
    if let Some(serial) = &plan.serial {
        if serial.client.len() > MOST {
            return false;
        }
    }
    if let Some(blk) = &plan.blk {
        if blk.client.len() > MOST {
            return false;
        }
    }
    true
}

/// Whether each list of a plan has fewer than 2^32 elements.
pub fn is_numbered(plan: &Plan) -> bool
    ensures { result ≡ true → IsNumbered plan.now }
{
    let domains = plan.protection_domain.as_slice();
    let channels = plan.channel.as_slice();
    let shallow = plan.memory_region.len() <= MOST && domains.len() <= MOST;
    let few = shallow && channels.len() <= MOST && has_few_clients(plan);
    few && has_few_maps(domains) && has_few_irqs(domains) && has_few_ends(channels)
}
