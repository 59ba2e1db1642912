// The waiting list: entries of one type, first in, first out, in memory that the caller lends.
#![tactic(auto)]

ghost use Rattle.std.specs.Prelude.{◌≤◌, length};

mod turns;

// A slice with a head and a length, since the caller lends the memory and nothing here allocates.
#[derive(Drop)]
pub struct WaitingList<'a, T> {
    slots: &'a mut [T],
    head: usize,
    len: usize,
    ghost ok: { (head ≤ length slots.now) × (len ≤ length slots.now) },
}
