// Chains: lists threaded through the elements of a slice that is lent to each call.
//
// One text serves every kind of element: the cells of a ring's slot, those of a wheel's compartment, the legs that
// leave a point. An element out of the slice's range is never followed, so every call is safe on any links.
//
// A call is stated over three rows of the slice: the next links, the previous links, and the bare elements, which are
// what is left of the elements when their links are ignored. It promises each row after the call, exactly, and touches
// nothing but links; `entered` and `left` write an item's key too, and promise the row of keys.
#![tactic(auto)]

ghost use Rattle.std.specs.Prelude.{◌≡◌, ℕ, map, None, Option, slice_index_or, slice_set};
ghost use Rattle.chains.specs.Links.{put_at, onward, fronted, fronted_prevs, unlinked, unlinked_nexts, unlinked_prevs};

mod cells;

pub use cells::Cell;

// An element that can lie in one chain.
pub trait Linked {
    // The element after this one.
    ghost link: { Self → Option ℕ };

    // The element before this one, where the element knows it.
    ghost back: { Self → Option ℕ };

    // The element without its links.
    ghost bare: { Self → Self };

    fn next(&self) -> Option<usize>
        ensures { result ≡ link self.now };

    fn set_next(&mut self, next: Option<usize>)
        ensures after { link self.new ≡ next }
        ensures keeps { back self.new ≡ back self.old }
        ensures same { bare self.new ≡ bare self.old };
}

// An element that knows the one before it, so that it can leave its chain in constant time.
pub trait DoublyLinked: Linked {
    fn prev(&self) -> Option<usize>
        ensures { result ≡ Self.Linked.back self.now };

    fn set_prev(&mut self, prev: Option<usize>)
        ensures after { Self.Linked.back self.new ≡ prev }
        ensures keeps { Self.Linked.link self.new ≡ Self.Linked.link self.old }
        ensures same { Self.Linked.bare self.new ≡ Self.Linked.bare self.old };
}

// A chain, by its first element. Links are indices, since the elements lie in memory that the caller lends.
#[derive(Clone, Copy, PartialEq, Eq, Debug)]
pub struct Chain {
    first: Option<usize>,
}

// Next and previous links are read and written by twins: one text for both would take the method and its row as arguments.

// The next link of the element at a place, none past the end.
fn next_at<T: Linked>(elements: &[T], i: usize) -> Option<usize>
    ensures { result ≡ slice_index_or (map T.Linked.link elements.now) i None }
{
    elements.get(i)?.next()
}

// The previous link of the element at a place, none past the end.
fn prev_at<T: DoublyLinked>(elements: &[T], i: usize) -> Option<usize>
    ensures { result ≡ slice_index_or (map T.Linked.back elements.now) i None }
{
    elements.get(i)?.prev()
}

// The head of a chain once element `i` is put in front of it.
fn front<T: Linked>(elements: &[T], i: usize, head: Option<usize>) -> Option<usize>
    ensures { result ≡ fronted (map T.Linked.link elements.now) i head }
{
    if i < elements.len() { Some(i) } else { head }
}

// The head of a chain once element `i` is taken out of it.
fn bypass<T: DoublyLinked>(elements: &[T], i: usize, head: Option<usize>) -> Option<usize>
    ensures { result ≡ unlinked (map T.Linked.link elements.now) (map T.Linked.back elements.now) i head }
{
    let Some(element) = elements.get(i) else {
        return head;
    };
    match element.prev() {
        Some(_) => head,
        None => element.next(),
    }
}

// Writes the next link of the element at a place, if there is one.
fn link_next<T: Linked>(elements: &mut [T], at: Option<usize>, next: Option<usize>)
    ensures after { map T.Linked.link elements.new ≡ put_at (map T.Linked.link elements.old) at next }
    ensures keeps { map T.Linked.back elements.new ≡ map T.Linked.back elements.old }
    ensures same { map T.Linked.bare elements.new ≡ map T.Linked.bare elements.old }
{
    if let Some(i) = at {
        // By index: of a slice's `get_mut` a proof knows the length alone, so the rows stayed open.
        if i < elements.len() {
            elements[i].set_next(next);
        }
    }
}

// Writes the previous link of the element at a place, if there is one.
fn link_prev<T: DoublyLinked>(elements: &mut [T], at: Option<usize>, prev: Option<usize>)
    ensures after { map T.Linked.back elements.new ≡ put_at (map T.Linked.back elements.old) at prev }
    ensures keeps { map T.Linked.link elements.new ≡ map T.Linked.link elements.old }
    ensures same { map T.Linked.bare elements.new ≡ map T.Linked.bare elements.old }
{
    if let Some(i) = at {
        // By index, as above.
        if i < elements.len() {
            elements[i].set_prev(prev);
        }
    }
}

// Writes the previous links for element `i` in front of a chain.
fn link_back<T: DoublyLinked>(elements: &mut [T], i: usize, head: Option<usize>)
    ensures after { map T.Linked.back elements.new ≡ fronted_prevs (map T.Linked.back elements.old) i head }
    ensures keeps { map T.Linked.link elements.new ≡ map T.Linked.link elements.old }
    ensures same { map T.Linked.bare elements.new ≡ map T.Linked.bare elements.old }
{
    if i < elements.len() {
        link_prev(elements, head, Some(i));
        link_prev(elements, Some(i), None);
    }
}

impl Chain {
    // The chain of no element.
    pub const fn new() -> Chain
        ensures { result.first ≡ None }
    {
        Chain { first: None }
    }

    // The first element, if there is one.
    pub fn first(self) -> Option<usize>
        ensures { result ≡ self.first }
    {
        self.first
    }

    // The chain from its second element on: a step of a walk. Constant time. No iterator of chains is made, since std's
    // `successors` over `next`, cut off by `take`, is one.
    pub fn rest<T: Linked>(self, elements: &[T]) -> Chain
        ensures { result.first ≡ onward (map T.Linked.link elements.now) self.first }
    {
        Chain {
            first: self.first.and_then(|at| next_at(elements, at)),
        }
    }

    // The chain with element `i` in front. Constant time. Past the end nothing changes.
    pub fn pushed<T: Linked>(self, elements: &mut [T], i: usize) -> Chain
        ensures value { result.first ≡ fronted (map T.Linked.link elements.old) i self.first }
        ensures after { map T.Linked.link elements.new ≡ slice_set (map T.Linked.link elements.old) i self.first }
        ensures keeps { map T.Linked.back elements.new ≡ map T.Linked.back elements.old }
        ensures same { map T.Linked.bare elements.new ≡ map T.Linked.bare elements.old }
    {
        let first = front(elements, i, self.first);
        link_next(elements, Some(i), self.first);
        Chain { first }
    }

    // The chain with element `i` in front, where elements know the one before. Constant time.
    pub fn inserted<T: DoublyLinked>(self, elements: &mut [T], i: usize) -> Chain
        ensures value { result.first ≡ fronted (map T.Linked.link elements.old) i self.first }
        ensures after { map T.Linked.link elements.new ≡ slice_set (map T.Linked.link elements.old) i self.first }
        ensures keeps { map T.Linked.back elements.new ≡ fronted_prevs (map T.Linked.back elements.old) i self.first }
        ensures same { map T.Linked.bare elements.new ≡ map T.Linked.bare elements.old }
    {
        link_back(elements, i, self.first);
        self.pushed(elements, i)
    }

    // The chain without its element `i`. Constant time. Past the end nothing changes.
    pub fn removed<T: DoublyLinked>(self, elements: &mut [T], i: usize) -> Chain
        ensures value { result.first ≡ unlinked (map T.Linked.link elements.old) (map T.Linked.back elements.old) i self.first }
        ensures after { map T.Linked.link elements.new ≡ unlinked_nexts (map T.Linked.link elements.old) (map T.Linked.back elements.old) i }
        ensures keeps { map T.Linked.back elements.new ≡ unlinked_prevs (map T.Linked.link elements.old) (map T.Linked.back elements.old) i }
        ensures same { map T.Linked.bare elements.new ≡ map T.Linked.bare elements.old }
    {
        let first = bypass(elements, i, self.first);
        let next = next_at(elements, i);
        let prev = prev_at(elements, i);
        link_prev(elements, next, prev);
        link_next(elements, prev, next);
        Chain { first }
    }
}
