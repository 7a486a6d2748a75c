// What a run is given.
use crate::aides::Aide;
use outside::Text;
use std::alloc::{AllocError, Global};

/// What one run is given besides its words and its keeper: which calls of its shelf, its sink and its port fail, the
/// connections, and the helpers.
#[derive(Drop)]
pub struct Given {
    pub shelf: Vec<u64>,
    pub sink: Vec<u64>,
    pub port: Vec<u64>,
    pub peers: Vec<Text>,
    pub aides: Vec<Aide>,
}

impl Given {
    /// No call fails, nobody connects, and no helper is asked.
    pub fn nothing(alloc: Global) -> Given {
        Given {
            shelf: Vec::new(alloc),
            sink: Vec::new(alloc),
            port: Vec::new(alloc),
            peers: Vec::new(alloc),
            aides: Vec::new(alloc),
        }
    }

    /// These peers connect.
    pub fn peers(alloc: Global, peers: &[Text]) -> Result<Given, AllocError> {
        let mut given = Given::nothing(alloc);
        for peer in peers {
            given.peers.push(Text::copy(alloc, peer.bytes())?)?;
        }
        Ok(given)
    }

    /// A peer that sends these bytes connects.
    pub fn peer(alloc: Global, bytes: &[u8]) -> Result<Given, AllocError> {
        let mut given = Given::nothing(alloc);
        given.peers.push(Text::copy(alloc, bytes)?)?;
        Ok(given)
    }
}

/// These peers connect, and the put of this number fails.
pub fn failing_put(alloc: Global, peers: &[Text], at: usize) -> Result<Given, AllocError> {
    let mut given = Given::peers(alloc, peers)?;
    given.sink.push(at as u64)?;
    Ok(given)
}

/// These peers connect, and the call of the port of this number fails.
pub fn failing_port(alloc: Global, peers: &[Text], at: usize) -> Result<Given, AllocError> {
    let mut given = Given::peers(alloc, peers)?;
    given.port.push(at as u64)?;
    Ok(given)
}
