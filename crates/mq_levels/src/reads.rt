//! Who reads whom, asked one node at a time.

ghost use Rattle.std.specs.Prelude.{◌≡◌, ℕ, ◌<◌, ◌≤◌, None, List, [], length, take, true, IfSome, MatchOption};
ghost use Rattle.std.specs.List.{All, Contains, list_all};
ghost use Rattle.mq_levels.specs.Levels.{reads_in, reads_of};
ghost use Rattle.mq_levels.specs.Numbers.{has_number};
ghost use Rattle.mq_levels.specs.Places.{EndsOpen};

/// An open read, one that has no number yet, and the place in the reader's list at which it stands.
#[derive(Clone, Copy)]
pub struct Open<P> {
    pub read: u32,
    pub place: P,
}

/// For each node the nodes that it reads, as a list that is gone through from its end.
///
/// A node waits for the first of its reads at first, then for the last open one, and goes on from there towards the front.
/// What stands behind a place has numbers, so each list is gone through once. From the end, since rules mostly read what
/// stands before them in order (a running total reads all below): there the last read is the one that gets its number
/// last, and a node is woken twice. Where a node reads all above it, its first read is the one, and it is woken once.
pub trait Reads {
    /// How much of a list is left to be gone through.
    type Place: Copy + Drop;

    ghost reads: { Self → List (List ℕ) };

    ghost is_place: { Self → ℕ → Self.Place → Type 0 };

    // the reads of a node that are left at a place
    ghost left: { Self → ℕ → Self.Place → List ℕ };

    /// How many nodes there are.
    fn len(&self) -> usize
        ensures { result ≡ length (reads self.now) };

    /// One of the reads of a node, best its first; none where it reads nothing.
    fn first(&self, node: u32) -> Option<u32>
        requires { node < length (reads self.now) }
        ensures { MatchOption result (reads_of (reads self.now) node ≡ []) (Contains (reads_of (reads self.now) node)) };

    /// The place at which all of a node's list is left.
    fn whole(&self, node: u32) -> Self::Place
        requires { node < length (reads self.now) }
        ensures place { is_place self.now node result }
        ensures left { left self.now node result ≡ reads_of (reads self.now) node };

    /// The last of the reads that are left which has no number, with its place; none where all have one.
    fn last_open(
        &self,
        node: u32,
        place: Self::Place,
        numbers: &[Option<u32>],
    ) -> Option<Open<Self::Place>>
        requires node { node < length (reads self.now) }
        requires place { is_place self.now node place }
        requires few { length numbers.now ≤ u32.MAX }
        requires within { All (λ read. read < length numbers.now) (left self.now node place) }
        ensures none { result ≡ None → list_all (has_number numbers.now) (left self.now node place) ≡ true }
        ensures place { IfSome result (λ found. is_place self.now node found.place) }
        ensures ends { IfSome result (λ found.
            EndsOpen numbers.now (left self.now node place) (left self.now node found.place) found.read) };
}

/// Reads as lists of numbers.
#[derive(Clone, Copy, Drop)]
pub struct Lists<'a> {
    pub lists: &'a [Vec<u32>],
}

// The first of a list.
fn first_in(list: &[u32]) -> Option<u32>
    ensures { MatchOption result (list.now ≡ []) (Contains list.now) }
{
    if list.is_empty() {
        return None;
    }
    Some(list[0])
}

// The last of a list's first `count` reads that has no number.
fn last_open_in(list: &[u32], count: usize, numbers: &[Option<u32>]) -> Option<Open<usize>>
    requires count { count ≤ length list.now }
    requires within { All (λ read. read < length numbers.now) (take count list.now) }
    ensures none { result ≡ None → list_all (has_number numbers.now) (take count list.now) ≡ true }
    ensures place { IfSome result (λ found. found.place ≤ length list.now) }
    ensures ends { IfSome result (λ found.
        EndsOpen numbers.now (take count list.now) (take found.place list.now) found.read) }
{
    let mut left = count;
    while left > 0 {
        let read = list[left - 1];
        if numbers[read as usize].is_none() {
            return Some(Open { read, place: left });
        }
        left -= 1;
    }
    None
}

impl Reads for Lists<'_> {
    type Place = usize;

    ghost use Rattle.std.specs.Prelude.{◌≤◌, length, take};
    ghost use Rattle.mq_levels.specs.Levels.{reads_in, reads_of};

    ghost reads = { λ s. reads_in s.lists.now };

    ghost is_place = { λ s node place. place ≤ length (reads_of (reads_in s.lists.now) node) };

    ghost left = { λ s node place. take place (reads_of (reads_in s.lists.now) node) };

    fn len(&self) -> usize {
        self.lists.len()
    }

    fn first(&self, node: u32) -> Option<u32> {
        first_in(&self.lists[node as usize])
    }

    fn whole(&self, node: u32) -> usize {
        self.lists[node as usize].len()
    }

    fn last_open(&self, node: u32, place: usize, numbers: &[Option<u32>]) -> Option<Open<usize>> {
        last_open_in(&self.lists[node as usize], place, numbers)
    }
}
