//! Tests of engines: threads with a client each and flushers beside them, the end of an engine, and what each turn of a flusher does; long
//! runs over names that all clients share, what is pending in a slot after its mark is removed, and an engine that is opened with a volume
//! that has marks.
#![tactic(auto)]

#[cfg(test)]
mod between;
#[cfg(test)]
mod closed;
#[cfg(test)]
mod crew;
#[cfg(test)]
mod depth;
#[cfg(test)]
mod ends;
#[cfg(test)]
mod filled;
#[cfg(test)]
mod folded;
#[cfg(test)]
mod lists;
#[cfg(test)]
mod marked;
#[cfg(test)]
mod meeting;
#[cfg(test)]
mod own;
#[cfg(test)]
mod requests;
#[cfg(test)]
mod scene;
#[cfg(test)]
mod stress;
#[cfg(test)]
mod tally;
#[cfg(test)]
mod typed;
#[cfg(test)]
mod unlocked;
