//! The names of variables that a system file can have.
ghost use Rattle.std.specs.Prelude.{◌≡◌, ◌<◌, ◌^◌, length, All};
ghost use Rattle.std.specs.List.{list_all};
ghost use Rattle.sdf_plan.specs.declared.plan.Domain.{Domain};
ghost use Rattle.sdf_plan.specs.Elements.{IsNumbered};
ghost use Rattle.picture_kit.specs.XmlText.Reading.{is_name_byte};
ghost use Rattle.export_text.specs.Symbols.{is_identifier, is_symbol, bad_map, bad_symbol};
ghost use Rattle.export_text.specs.Symbols.{bad_domain};

use cargo_core::Text;
use sdf_plan::{Domain, Map, Place, Plan};

// Whether a byte may stand in an identifier.
fn is_name_byte(byte: u8) -> bool
    ensures { result ≡ is_name_byte byte }
{
    byte.is_ascii_lowercase() || byte.is_ascii_uppercase() || byte.is_ascii_digit() || byte == b'_'
}

// Whether all bytes may.
fn are_name_bytes(bytes: &[u8]) -> bool
    ensures { result ≡ list_all is_name_byte bytes.now }
{
    for byte in bytes {
        if !is_name_byte(*byte) {
            return false;
        }
    }
    true
}

// Whether a text is an identifier of C.
fn is_identifier(text: &[u8]) -> bool
    ensures { result ≡ is_identifier text.now }
{
    match text {
        [] => false,
        [first, rest @ ..] => {
            !first.is_ascii_digit() && is_name_byte(*first) && are_name_bytes(rest)
        }
    }
}

// Whether the name of a map's variable is one, or there is none.
fn is_symbol(name: &Option<Text>) -> bool
    ensures { result ≡ is_symbol name.now }
{
    match name {
        Some(name) => is_identifier(name.as_str().as_bytes()),
        None => true,
    }
}

// The first map of a domain whose variable has no such name.
fn bad_map(domain: u32, maps: &[Map]) -> Option<Place>
    requires { length maps.now < 2 ^ 32 }
    ensures { result ≡ bad_map domain 0 maps.now }
{
    for (at, map) in maps.iter().enumerate() {
        if !is_symbol(&map.setvar_vaddr) {
            return Some(Place::Map(domain, at as u32));
        }
    }
    None
}

// The first map of some domains whose variable has no such name.
fn bad_domain(domains: &[Domain]) -> Option<Place>
    requires few { length domains.now < 2 ^ 32 }
    requires maps { All (λ (d : Domain). length d.map < 2 ^ 32) domains.now }
    ensures { result ≡ bad_domain 0 domains.now }
{
    for (at, domain) in domains.iter().enumerate() {
        let bad = bad_map(at as u32, domain.map.as_slice());
        if bad.is_some() {
            return bad;
        }
    }
    None
}

/// The first map of a plan whose `setvar_vaddr` is no identifier of C, if there is one: the
/// Microkit sets a variable of that name in the domain's program, so there can be none.
pub fn first_bad_symbol(plan: &Plan) -> Option<Place>
    requires { IsNumbered plan.now }
    ensures { result ≡ bad_symbol plan.now }
{
    bad_domain(plan.protection_domain.as_slice())
}
