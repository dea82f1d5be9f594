//! An engine with two clients.
use engine::{Client, Clients, Engine, EngineId, Report};
use std::sync::Wait;

/// The two clients of an engine that was opened with two.
pub fn two_of<J: EngineId>(clients: &mut Clients<J>) -> Option<(Client<J>, Client<J>)> {
    let other = clients.pop()?;
    let one = clients.pop()?;
    Some((one, other))
}

/// Whether a client is accepted back.
fn takes_back<J: EngineId>(clients: &mut Clients<J>, client: Client<J>) -> bool {
    clients.push(client).is_ok()
}

/// Ends an engine with its two clients.
pub fn end<J: EngineId, R: Wait>(
    rt: &R,
    engine: Engine<J>,
    mut clients: Clients<J>,
    one: Client<J>,
    other: Client<J>,
) -> Option<Report> {
    let first = takes_back(&mut clients, one);
    let second = takes_back(&mut clients, other);
    if first && second {
        engine.close(rt, clients).ok()
    } else {
        None
    }
}
