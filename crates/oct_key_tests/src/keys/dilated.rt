//! Numbers with their bits at every third place, counted up and down.
use super::expect_number;
use oct_key::{Dilated, morton_of_axes};

#[test]
fn counts_with_the_bits_at_their_places(rt: HostRuntime) {
    let mut y = Dilated::new(7);
    y.increment();
    let mut z = Dilated::new(8);
    z.decrement();
    expect_number(&rt, morton_of_axes(&Dilated::new(3), &y, &z), 0o2455);
}

#[test]
fn steps_where_it_is_to(rt: HostRuntime) {
    let mut x = Dilated::new(7);
    x.step(true, 1);
    let mut y = Dilated::new(8);
    y.step(false, 1);
    let mut z = Dilated::new(0);
    z.step(false, 0);
    expect_number(&rt, morton_of_axes(&x, &y, &z), 0o1222);
}
