//! A block of memory as a row of cells, each of which is empty or has a value: what raw pointers
//! are needed for, in five functions.
//!
//! [`allocate`] answers three things. An [`Address`] is a pointer that owns nothing and can be
//! copied. [`Cells`] are the memory and the values in it, seen as a list of optional values. A
//! [`Grant`] is the right to give the block back. `Cells` and `Grant` take no space, and neither
//! can be copied or dropped: whoever has them must hand them to [`deallocate`], else the program is
//! refused. So no block is lost, and none is given back twice.
//!
//! ```text
//! let (address, mut cells, grant) = allocate(&alloc, 4)?;
//! cells.write(address, 0, 7u64);
//! let seven = *cells.get(address, 0);
//! *cells.get_mut(address, 0) = 8;
//! deallocate(&alloc, address, 4, cells, grant);
//! ```
//!
//! [`Cells::write`] fills an empty cell, [`Cells::get`] shows a value and [`Cells::get_mut`] lends
//! one to be changed. Each asks for the address of these cells, and for a cell that is there and
//! empty, or has a value. A block never moves. Values that are still in it when it is given back
//! are forgotten, so it is for values that need no drop, as the groups of an arena, which are
//! `Copy`.
//!
//! `oct_arena` alone stands on it.
#![tactic(auto)]

mod cells;

pub use cells::{Address, Cells, Grant, allocate, deallocate};
