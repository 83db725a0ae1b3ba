//! Log-odds of occupancy, and what an observation does to them.
//!
//! A voxel of an occupancy map is unknown, or it has a log-odds: a whole number of thousandths,
//! positive where it is more likely occupied than free. An [`OddsModel`] says how much a hit adds
//! to it and a miss takes off it, between which bounds it is kept, and from which value on a voxel
//! counts as occupied. The rules are those of Hornung et al. 2013 and of the OctoMap library; the
//! library computes with floating-point numbers, and this crate with whole ones, so that equal
//! histories give equal values.
//!
//! ```text
//! let model = OddsModel::new(850, -400, -2000, 3500, 0)?;
//! let value = model.apply(Event::Add(850), None);                    // Some(850)
//! let value = model.apply(Event::Add(-400), value);                  // Some(450)
//! let class = model.class(value);                                    // Class::Occupied
//! ```
//!
//! What the contracts promise:
//!
//! - [`OddsModel::new`] accepts exactly the numbers that meet the conditions on a model, and
//!   otherwise names the first field at fault. Each model that exists meets the conditions, since
//!   its type keeps them.
//! - [`OddsModel::apply`] is the table of events (`applied` in `specs/Update.antt`): each sum is
//!   clamped at once, and not when it is asked for. A value that lies within the bounds stays
//!   within them.
//! - [`OddsModel::class`] is the comparison with the threshold.
//!
//! No call allocates, fails by memory or touches anything but its arguments. Values of voxels,
//! trees, maps and sessions stand on this crate, and cite its definitions: `Odds` and `odds_of` for
//! the five numbers, `Value` for what is known of a voxel, `applied` and `class_of`.

#![tactic(auto)]

mod conditions;
mod event;
mod model;

pub use event::{Class, Event};
pub use model::{BadModel, OddsField, OddsModel};
