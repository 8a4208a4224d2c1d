//! A map whose keys are short texts.

use std::alloc::{AllocError, Global};
use std::collections::BTreeMap;
use tinyvec_text::InlineText;

/// The ports of services, by their names.
pub type Ports = BTreeMap<InlineText<16>, u16>;

/// Adds a service. A name of up to 16 bytes allocates nothing, but a new node of the map may.
pub fn add(alloc: Global, ports: &mut Ports, name: &str, port: u16) -> Result<(), AllocError> {
    ports.insert(InlineText::from_str(alloc, name)?, port)?;
    Ok(())
}

/// The port of a service, if its name is a key of up to 16 bytes. It allocates nothing, so it cannot fail.
pub fn port_of(alloc: Global, ports: &Ports, name: &str) -> Option<u16> {
    if name.len() > 16 {
        return None;
    }
    match InlineText::from_str(alloc, name) {
        Ok(key) => ports.get(&key).copied(),
        Err(_) => unreachable!(),
    }
}
