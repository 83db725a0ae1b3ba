//! Maps as other programs read them: a height band as a grey picture or as the cells of a grid, and
//! occupied space as boxes.
//!
//! ```text
//! let grey = band(&tree, x, y, low, high);              // one column, seen along z
//! let bytes = pgm(&tree, low_corner, high_corner, &mut sink)?;
//! fill_cells(&tree, low_corner, high_corner, &mut cells);
//! let boxes = box_count(&tree);
//! let bytes = vrml(&tree, &mut sink)?;
//! ```
//!
//! What the contracts promise:
//!
//! - [`band`] is what a column of voxels shows between two numbers on z: occupied where one of them
//!   is, else free where one is, else unknown (`band_class`).
//! - [`pgm`] writes the columns of a box as a picture in the form PGM (`pgm_text`): a byte for each
//!   column, black where it is occupied, 254 where it is free and 205 where it is unknown, as the
//!   map server of ROS has them. The first row is that of the highest y, and x ascends in it.
//! - [`fill_cells`] puts the same columns into the cells of an occupancy grid (`cells_of`): 100, 0
//!   and -1 of an `OccupancyGrid` of ROS, the row of the lowest y first. [`column_count`] says how
//!   many these are.
//! - [`vrml`] writes a scene of VRML97 (`scene_text`) with a box for each block that is occupied
//!   throughout and is the whole map or lies in one that isn't (`boxes_of`), by ascending Morton
//!   code of its lowest voxel, with its middle and its edge in metres, to the half nanometre.
//!   [`box_count`] says how many these are, and the law [`boxes_rise`] that they stand in that
//!   order.
//! - Both writers answer the length of their text. After an error a part of it was written, and
//!   exactly one write of the sink gave up, for that reason.
//!
//! All is said of the classes of voxels alone, so that it makes no difference how a tree is split
//! into leaves.
//!
//! How it works: a column is looked at block by block, from the lowest voxel up. What it shows, the
//! next columns of the row show as well, as far as all the blocks reach that were looked at, or as
//! far as the one does that is occupied; so a row is written strip by strip. The boxes are found in
//! one walk through the tree, in the order of the codes. As long as all voxels of a block so far
//! are occupied, the walk writes nothing; at the first other voxel it writes the boxes that it
//! waited with, which are the children before its way down. No call takes memory: bytes go through
//! the fixed buffer of a `Gather`, and lines are made in one of their own.
//!
//! Any viewer of PGM shows the grid, and any viewer of VRML97 the boxes. The tasks `project` and
//! `vrml` of the program stand on this crate, and so does `octofix_grid` of the library.
#![tactic(auto)]

mod cells;
mod counting;
mod grid;
mod laws;
mod line;
mod scene;
mod strip;

pub use cells::{column_count, fill_cells};
pub use counting::box_count;
pub use grid::pgm;
pub use laws::boxes_rise;
pub use scene::vrml;
pub use strip::band;
