//! What a session works with.
use oct_io::{Sink, Store};
use oct_map::OccMap;
use std::alloc::Global;

/// What a session works with: where memory comes from, its map, its store and its sink.
#[derive(Drop)]
pub struct Context<'a, K: Sink, F: Store> {
    pub alloc: Global,
    pub map: &'a mut OccMap,
    pub store: &'a mut F,
    pub sink: &'a mut K,
}
