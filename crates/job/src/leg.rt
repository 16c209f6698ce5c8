// A leg as a job keeps it: beside its ends and its cost, the leg laid before it that leaves the same point.
ghost use Rattle.std.specs.Prelude.{None};

use chains::Linked;

#[derive(Clone, Copy)]
pub struct Leg {
    pub from: usize,
    pub to: usize,
    pub cost: u32,
    pub next: Option<usize>,
}

impl Linked for Leg {
    ghost link = { λ l. l.next };

    ghost back = { λ _. None };

    ghost bare = { λ l. record { from = l.from; to = l.to; cost = l.cost; next = None } };

    fn next(&self) -> Option<usize> {
        self.next
    }

    fn set_next(&mut self, next: Option<usize>) {
        self.next = next;
    }
}
