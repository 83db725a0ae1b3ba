//! A block of memory, the cells in it, and the right to give it back.
ghost use Rattle.std.specs.Prelude.{◌≡◌, ℕ, ◌<◌, List, Option, Some, None, length, replicate};
ghost use Rattle.std.specs.Prelude.{slice_index_or, slice_set, IfOk, ⊤};
ghost use Rattle.std.specs.Borrow.{sem};
ghost use Rattle.std.specs.Vec.Ownership.{FitsInBlock};
ghost use base.Fml.{ftrue};
ghost use denote.RawPtr.{Ptr};
ghost use Rattle.oct_cells.specs.Cells.{HasValue};
ghost use Rattle.oct_cells.specs.Ownership.{row_owned, row_lent, grant_owned};

use std::alloc::{AllocError, Allocator};
use std::marker::{Model, PhantomData};
use std::mem::{align_of, size_of};

/// Where a block begins. It owns nothing.
pub struct Address<T> {
    /// The pointer to the first cell.
    pub ptr: *mut T,
}

impl<T> Clone for Address<T> {
    ghost is_clone = { λ x y. y ≡ x };

    ghost is_infallible = { λ _. ⊤ };

    fn clone(&self) -> Result<Address<T>, AllocError> {
        Ok(*self)
    }
}

impl<T> Copy for Address<T> {}

/// The cells of a block and the values in them. It takes no space: whoever has the cells keeps
/// their address beside them.
pub struct Cells<T> {
    mark: PhantomData<*const T>,
    /// Where the cells begin.
    pub ghost at: { Ptr },
    /// The value in each cell, or none where it is empty.
    pub ghost values: { List (Option T) },
}

impl<T> Model for Cells<T> {
    ghost also_owns = { λ c. row_owned T.row c.at c.values };

    ghost also_shares = { λ c _ κ. row_lent T.row c.at c.values κ };
}

/// The right to give a block back. It takes no space.
pub struct Grant<T, A: Allocator> {
    mark: PhantomData<*const (T, A)>,
    /// Where the block begins.
    pub ghost at: { Ptr },
    /// How many cells the block has.
    pub ghost count: { ℕ },
    /// The allocator that the block goes back to.
    pub ghost alloc: { A },
}

impl<T, A: Allocator> Model for Grant<T, A> {
    ghost also_owns = { λ g. grant_owned T.row (A.dealloc_token g.alloc) g.at g.count };

    ghost also_shares = { λ _ _ _. ftrue };
}

/// A new block of empty cells.
pub fn allocate<T, A: Allocator>(
    alloc: &A,
    count: usize,
) -> Result<(Address<T>, Cells<T>, Grant<T, A>), AllocError>
    requires { FitsInBlock T.row count }
    ensures { IfOk result (λ r. (r.1.at ≡ r.0.ptr) × (r.1.values ≡ replicate count None)
        × (r.2.at ≡ r.0.ptr) × (r.2.count ≡ count) × (r.2.alloc ≡ alloc.now)) }
{
    match alloc.allocate(count * size_of::<T>(), align_of::<T>()) {
        Ok(block) => {
            let address = Address {
                ptr: block as *mut T,
            };
            Ok((
                address,
                Cells { mark: PhantomData },
                Grant { mark: PhantomData },
            ))
        }
        Err(error) => Err(error),
    }
}

/// Gives a block back. Values that are still in it are forgotten, and not dropped.
///
/// The cells and the grant are taken, so that nobody can use the block afterwards. That the
/// allocator gets the block back is for the body to show: std's `Allocator::deallocate` promises
/// nothing that a clause here could pass on.
pub fn deallocate<T, A: Allocator>(
    alloc: &A,
    address: Address<T>,
    count: usize,
    cells: Cells<T>,
    grant: Grant<T, A>,
)
    requires { (cells.at ≡ address.ptr) × (length cells.values ≡ count)
        × (grant.at ≡ address.ptr) × (grant.count ≡ count) × (grant.alloc ≡ alloc.now) }
{
    let Cells { mark: _ } = cells;
    let Grant { mark: _ } = grant;
    unsafe {
        alloc.deallocate(
            address.ptr as *mut u8,
            count * size_of::<T>(),
            align_of::<T>(),
        );
    }
}

impl<T> Cells<T> {
    ghost use Rattle.oct_cells.specs.Lends.{cell_lends};

    /// Puts a value into an empty cell.
    pub fn write(&mut self, address: Address<T>, index: usize, value: T)
        requires { (address.ptr ≡ self.old.at) × (index < length self.old.values)
            × (slice_index_or self.old.values index None ≡ None) }
        ensures { (self.new.at ≡ self.old.at)
            × (self.new.values ≡ slice_set self.old.values index (Some value)) }
    {
        unsafe { address.ptr.add(index).write(value) }
    }

    /// The value in a cell.
    pub fn get(&self, address: Address<T>, index: usize) -> &T
        requires { (address.ptr ≡ self.now.at) × HasValue self.now.values index }
        ensures { slice_index_or self.now.values index None ≡ Some result.now }
    {
        unsafe { &*address.ptr.add(index) }
    }

    /// The value in a cell, to be changed.
    pub fn get_mut(&mut self, address: Address<T>, index: usize) -> &mut T
        requires { (address.ptr ≡ self.old.at) × HasValue self.old.values index }
        ensures* writes_back { sem 𝓛 (cell_lends T.row self.entry index result) }
        ensures value { slice_index_or self.old.values index None ≡ Some result.now }
    {
        unsafe { &mut *address.ptr.add(index) }
    }
}
