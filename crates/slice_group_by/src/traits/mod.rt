//! The methods: groups of slices and of texts, called on what holds or lends them.
pub mod group_by;
pub mod group_by_mut;
pub mod holders;
pub mod str_group_by;
