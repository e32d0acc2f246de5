// Sets of nodes as 64-bit words: node v is bit v % 64 of word v / 64.
#![tactic(auto)]

ghost use Rattle.std.specs.Prelude.{◌≡◌, ℕ, ◌*◌, ◌/◌, ◌^◌, ◌<◌, ◌≤◌, T, ltb, length, get_or, replicate};
ghost use Rattle.std.specs.List.{find};
ghost use Rattle.model.specs.Basics.{up_to, has, keep};
ghost use Rattle.std.specs.Prelude.{if◌then◌else◌};
ghost use Rattle.base_nodeset.specs.NodeSet.{member, inserted, intersection, difference, members_from};

// A set of the nodes of a survey, and one of its links: bit 1024 * a + b is link a-b.
pub type NodeSet = [u64; 16];

pub type Matrix = [u64; 16384];

pub fn insert(words: &mut [u64], v: usize)
    requires { v / 64 < length words.old }
    ensures { member words.new ≡ inserted (member words.old) v }
{
    words[v / 64] |= 1 << (v % 64);
}

#[tactic(auto, unfolding(crate::specs::NodeSet::member, crate::specs::NodeSet::bit))]
pub fn contains(words: &[u64], v: usize) -> bool
    requires { v / 64 < length words.now }
    ensures { result ≡ member words.now v }
{
    (words[v / 64] >> (v % 64)) % 2 == 1
}

// How many members a set has: ones are counted word by word.
pub fn count(words: &[u64]) -> usize
    requires { 64 * length words.now < 2 ^ 32 }
    ensures { result ≡ length (keep (member words.now) (up_to (64 * length words.now))) }
{
    words.iter().map(|word| word.count_ones() as usize).sum()
}

// A third set becomes the intersection of two.
pub fn write_intersection(a: &[u64], b: &[u64], into: &mut [u64])
    requires { (length a.now ≡ length b.now) × (length into.old ≡ length a.now) }
    ensures { member into.new ≡ intersection (member a.now) (member b.now) }
{
    for (i, word) in into.iter_mut().enumerate() {
        *word = a[i] & b[i];
    }
}

// Set difference: the members of b are removed from a.
pub fn subtract(a: &mut [u64], b: &[u64])
    requires { length a.old ≡ length b.now }
    ensures { member a.new ≡ difference (member a.old) (member b.now) }
{
    for (i, word) in a.iter_mut().enumerate() {
        *word &= !b[i];
    }
}

// The smallest member, by the trailing zeros of the first word that is not 0.
pub fn smallest(words: &[u64]) -> Option<usize>
    requires { 64 * length words.now < 2 ^ 32 }
    ensures { result ≡ find (member words.now) (up_to (64 * length words.now)) }
{
    let i = words.iter().position(|&word| word != 0)?;
    Some(64 * i + words[i].trailing_zeros() as usize)
}

// The nodes below n, put into the empty set: whole words, and the low bits of one more.
pub fn insert_below(words: &mut NodeSet, n: usize)
    requires { (words.old ≡ replicate 16 0) × (n ≤ 1024) }
    ensures { member words.new ≡ (λ v. ltb v n) }
{
    let last = n / 64;
    let k = n % 64;
    words[..last].fill(!0);
    if k != 0 {
        words[last] = (1 << k) - 1;
    }
}

// The entries that the set bits of a word name become the value, where its lowest bit names entry `base`.
fn write_word(word: u64, base: usize, value: u16, list: &mut [u16])
    requires { (v : ℕ) → T (has v (members_from 64 base word)) → v < length list.old }
    ensures { (x : ℕ) → get_or list.new x 0
        ≡ (if has x (members_from 64 base word) then value else get_or list.old x 0) }
{
    let mut left = word;
    while left != 0 {
        let t = left.trailing_zeros();
        list[base + t as usize] = value;
        left -= 1 << t;
    }
}

// The entries of all members become the value.
pub fn write_members(words: &[u64], value: u16, list: &mut [u16])
    requires { (64 * length words.now < 2 ^ 32) × ((v : ℕ) → T (member words.now v) → v < length list.old) }
    ensures { (x : ℕ) → get_or list.new x 0
        ≡ (if member words.now x then value else get_or list.old x 0) }
{
    for (i, word) in words.iter().enumerate() {
        write_word(*word, 64 * i, value, list);
    }
}
