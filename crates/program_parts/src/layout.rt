//! Which fields of a record a row in memory has.
ghost use Rattle.std.specs.Prelude.{◌≡◌, [], IfOk, nat_eq, not};
ghost use Rattle.std.specs.List.{filter, list_any, range_with_len};

use crate::failure::push;
use std::alloc::{AllocError, Global};

/// The places of the fields of a row's key among those of a record, and of its other fields.
#[derive(Drop)]
pub struct Layout {
    pub key: Vec<usize>,
    pub rest: Vec<usize>,
}

impl Layout {
    /// The key, and all fields of a record of this width.
    pub fn with_all(alloc: Global, key: Vec<usize>, width: usize) -> Result<Layout, AllocError>
        ensures key { IfOk result (λ layout. layout.key ≡ key) }
        ensures rest { IfOk result (λ layout. layout.rest.items ≡ range_with_len 0 width) }
    {
        let rest = all_places(alloc, width)?;
        Ok(Layout { key, rest })
    }

    /// The key, and the other fields of a record of this width.
    pub fn with_others(alloc: Global, key: Vec<usize>, width: usize) -> Result<Layout, AllocError>
        ensures key { IfOk result (λ layout. layout.key ≡ key) }
        ensures rest { IfOk result (λ layout. layout.rest.items
            ≡ filter (λ place. not (list_any (λ other. nat_eq other place) key.items)) (range_with_len 0 width)) }
    {
        let rest = other_places(alloc, &key, width)?;
        Ok(Layout { key, rest })
    }

    /// All fields of a record of this width are the key.
    pub fn of_key(alloc: Global, width: usize) -> Result<Layout, AllocError>
        ensures key { IfOk result (λ layout. layout.key.items ≡ range_with_len 0 width) }
        ensures rest { IfOk result (λ layout. layout.rest.items ≡ []) }
    {
        Ok(Layout {
            key: all_places(alloc, width)?,
            rest: Vec::new(alloc),
        })
    }
}

// The places of so many fields.
fn all_places(alloc: Global, width: usize) -> Result<Vec<usize>, AllocError>
    ensures { IfOk result (λ places. places.items ≡ range_with_len 0 width) }
{
    let mut all = Vec::with_capacity(alloc, width)?;
    for place in 0..width {
        push(&mut all, place)?;
    }
    Ok(all)
}

// Those of them that are none of these.
fn other_places(alloc: Global, places: &[usize], width: usize) -> Result<Vec<usize>, AllocError>
    ensures { IfOk result (λ others. others.items
        ≡ filter (λ place. not (list_any (λ other. nat_eq other place) places.now)) (range_with_len 0 width)) }
{
    let mut others = Vec::new(alloc);
    for place in 0..width {
        if !is_among(places, place) {
            push(&mut others, place)?;
        }
    }
    Ok(others)
}

// Whether the place is one of these.
fn is_among(places: &[usize], place: usize) -> bool
    ensures { result ≡ list_any (λ other. nat_eq other place) places.now }
{
    places.iter().any(|other| *other == place)
}
