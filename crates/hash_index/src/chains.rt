ghost use Rattle.std.specs.Prelude.{◌≡◌, ℕ, ◌+◌, ◌*◌, ◌<◌, ◌≤◌, None, length};
ghost use Rattle.hash_index.specs.inside.Chains.{most_places, place_of, key_of, link_of, head_of, bucket_of, with_place};

/// How many numbers a place takes: its key, and the place before it in its bucket.
const KEY_AND_LINK: usize = 2;

/// Where the link stands after the key.
const LINK: usize = 1;

/// Stands where there is no place.
const NO_PLACE: u32 = u32::MAX;

/// The places of each bucket, from the last to the first, in lent numbers.
///
/// Each place has two numbers, and each bucket one after those, its last place.
#[derive(Drop)]
pub(crate) struct Chains<'a> {
    pub(crate) numbers: &'a mut [u32],
}

/// The bucket of a key, which is scaled to the buckets: that takes no division, and goes by the key's high bits.
#[tactic(auto, unfolding(crate::specs::inside::Chains::bucket_of), using(crate::proofs::Buckets::bucket_below))]
pub(crate) fn bucket_of(capacity: usize, key: u32) -> usize
    requires some { 0 < capacity }
    requires few { capacity ≤ most_places }
    ensures named { result ≡ bucket_of capacity key }
    ensures below { result < capacity }
{
    (capacity as u64 * u64::from(key) >> u32::BITS) as usize
}

fn place_in(number: u32) -> Option<usize>
    ensures { result ≡ place_of number }
{
    if number == NO_PLACE {
        None
    } else {
        Some(number as usize)
    }
}

fn clear_heads(numbers: &mut [u32], capacity: usize)
    requires few { capacity ≤ most_places }
    requires long { 3 * capacity ≤ length numbers.old }
    ensures length { length numbers.new ≡ length numbers.old }
    ensures heads { (bucket : ℕ) → bucket < capacity → head_of numbers.new capacity bucket ≡ None }
{
    numbers[KEY_AND_LINK * capacity..].fill(NO_PLACE);
}

fn add_to(numbers: &mut [u32], capacity: usize, place: usize, key: u32)
    requires few { capacity ≤ most_places }
    requires room { place < capacity }
    requires long { 3 * capacity ≤ length numbers.old }
    ensures { numbers.new ≡ with_place numbers.old capacity place key }
{
    let head = KEY_AND_LINK * capacity + bucket_of(capacity, key);
    let last = numbers[head];
    numbers[KEY_AND_LINK * place] = key;
    numbers[KEY_AND_LINK * place + LINK] = last;
    numbers[head] = place as u32;
}

impl<'a> Chains<'a> {
    /// Leaves each bucket with no place.
    pub(crate) fn clear(&mut self, capacity: usize)
        requires few { capacity ≤ most_places }
        requires long { 3 * capacity ≤ length self.old.numbers.now }
        ensures length { length self.new.numbers.now ≡ length self.old.numbers.now }
        ensures heads { (bucket : ℕ) → bucket < capacity → head_of self.new.numbers.now capacity bucket ≡ None }
    {
        clear_heads(self.numbers, capacity);
    }

    /// Puts a place in front of the chain of its key's bucket.
    pub(crate) fn add(&mut self, capacity: usize, place: usize, key: u32)
        requires few { capacity ≤ most_places }
        requires room { place < capacity }
        requires long { 3 * capacity ≤ length self.old.numbers.now }
        ensures { self.new.numbers.now ≡ with_place self.old.numbers.now capacity place key }
    {
        add_to(self.numbers, capacity, place, key);
    }

    /// The key of a place.
    pub(crate) fn key(&self, place: usize) -> u32
        requires few { place < most_places }
        requires within { 2 * place < length self.now.numbers.now }
        ensures { result ≡ key_of self.now.numbers.now place }
    {
        self.numbers[KEY_AND_LINK * place]
    }

    /// The place before it in its bucket.
    pub(crate) fn link(&self, place: usize) -> Option<usize>
        requires few { place < most_places }
        requires within { 2 * place + 1 < length self.now.numbers.now }
        ensures { result ≡ link_of self.now.numbers.now place }
    {
        place_in(self.numbers[KEY_AND_LINK * place + LINK])
    }

    /// The last place of a bucket.
    pub(crate) fn head(&self, capacity: usize, bucket: usize) -> Option<usize>
        requires few { capacity ≤ most_places }
        requires within { bucket < capacity }
        requires long { 3 * capacity ≤ length self.now.numbers.now }
        ensures { result ≡ head_of self.now.numbers.now capacity bucket }
    {
        place_in(self.numbers[KEY_AND_LINK * capacity + bucket])
    }
}
