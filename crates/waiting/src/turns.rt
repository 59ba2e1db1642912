// What waits: new, clear, push at the end, pop at the front.
ghost use Rattle.std.specs.Prelude.{◌≡◌, ℕ, ◌<◌, ◌≤◌, true, [], ◌∷◌, ◌++◌, length, MatchBool};
ghost use Rattle.waiting.specs.Slots.{SlotAfter};
ghost use Rattle.waiting.specs.WaitingLists.{waits, room, Pushed, Popped};

use super::WaitingList;

// What each method keeps stands in two clauses, and not in one word for both: callers cite `room` alone, and `same` is for borrows.
impl<'a, T: Copy> WaitingList<'a, T> {
    // A list over these slots; none waits.
    pub fn new(slots: &'a mut [T]) -> WaitingList<'a, T>
        ensures empty { waits result ≡ [] }
        ensures room { room result ≡ length slots.old }
        ensures same { result.slots.ghost_name ≡ slots.entry.ghost_name }
    {
        WaitingList {
            slots,
            head: 0,
            len: 0,
        }
    }

    // How many can wait.
    pub fn room(&self) -> usize
        ensures { result ≡ room self.now }
    {
        self.slots.len()
    }

    // Has none wait.
    pub fn clear(&mut self)
        ensures empty { waits self.new ≡ [] }
        ensures room { room self.new ≡ room self.old }
        ensures same { self.new.slots.ghost_name ≡ self.old.slots.ghost_name }
    {
        self.head = 0;
        self.len = 0;
    }

    // Whether as many wait as can.
    fn is_full(&self) -> bool
        ensures { MatchBool result (length (waits self.now) ≡ room self.now) (length (waits self.now) < room self.now) }
    {
        self.len == self.slots.len()
    }

    // Has `x` wait as the last.
    fn put_last(&mut self, x: T)
        requires { length (waits self.old) < room self.old }
        ensures pushed { Pushed self.old x self.new true }
        ensures room { room self.new ≡ room self.old }
        ensures same { self.new.slots.ghost_name ≡ self.old.slots.ghost_name }
    {
        let at = slot_after(self.head, self.len, self.slots.len());
        self.slots[at] = x;
        self.len += 1;
    }

    // Takes the first that waits.
    fn take_first(&mut self) -> T
        requires { 0 < self.old.len }
        ensures first { waits self.old ≡ result ∷ waits self.new }
        ensures room { room self.new ≡ room self.old }
        ensures same { self.new.slots.ghost_name ≡ self.old.slots.ghost_name }
    {
        let at = slot_after(self.head, 0, self.slots.len());
        let x = self.slots[at];
        self.head = at + 1;
        self.len -= 1;
        x
    }

    // Has `x` wait as the last; false where there is no room. (No Result: `x` is a copy, so an error would have nothing to
    // hand back.)
    pub fn push(&mut self, x: T) -> bool
        ensures pushed { Pushed self.old x self.new result }
        ensures room { room self.new ≡ room self.old }
        ensures same { self.new.slots.ghost_name ≡ self.old.slots.ghost_name }
    {
        if self.is_full() {
            return false;
        }
        self.put_last(x);
        true
    }

    // Takes the first that waits, or none.
    pub fn pop(&mut self) -> Option<T>
        ensures popped { Popped (waits self.old) (waits self.new) result }
        ensures room { room self.new ≡ room self.old }
        ensures same { self.new.slots.ghost_name ≡ self.old.slots.ghost_name }
    {
        if self.len == 0 {
            return None;
        }
        Some(self.take_first())
    }
}

// The slot `len` places after `head`, round the end of `cap` slots.
fn slot_after(head: usize, len: usize, cap: usize) -> usize
    requires { (head ≤ cap) × (len < cap) }
    ensures { SlotAfter head len cap result }
{
    let rest = cap - head;
    if len < rest { head + len } else { len - rest }
}
