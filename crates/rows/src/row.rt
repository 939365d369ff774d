// A row as a slice of words, of any width: what is read of it and what is written into it.
// `within`, `meets` and `empty` look once at what they gathered. A way out at each word, by `all`, was tried: for rows of four words that pass, it
// takes 1.4 to 1.8 times as long, for others 0.8; a change may cost 3 %. The counts of bits go by `as`, since `usize` has no `From<u32>`.
ghost use Rattle.std.specs.Prelude.{◌≡◌, not, ◌+◌, ◌-◌, ◌*◌, ◌^◌, ◌<◌, ◌≤◌, length, take, drop, ltb, MatchOption};
ghost use Rattle.limits.specs.Book.{word_bits};
ghost use Rattle.sets.specs.Set as Set;
ghost use Rattle.sets.specs.Set.{only, union};
ghost use Rattle.words.specs.Row.{row, pack};

use limits::Book;

// Row i of an area whose rows have so many entries each.
pub fn nth<T>(area: &[T], i: usize, width: usize) -> &[T]
    requires { i * width + width ≤ length area.now }
    ensures row { result.now ≡ take width (drop (i * width) area.now) }
    ensures long { length result.now ≡ width }
{
    let at = i * width;
    &area[at..at + width]
}

// Whether atom a is in the row.
#[tactic(auto, using(crate::proofs::Reading::member_bit))]
pub fn member(words: &[u64], a: usize) -> bool
    requires { a < length words.now * word_bits }
    ensures { result ≡ row words.now a }
{
    (words[Book::word_of(a)] >> Book::bit_of(a)) % 2 == 1
}

// Whether each atom of row a is one of row b.
pub fn within(a: &[u64], b: &[u64]) -> bool
    requires { length a.now ≡ length b.now }
    ensures { result ≡ Set.within (length a.now * word_bits) (row a.now) (row b.now) }
{
    let mut past = 0u64;
    for (x, y) in a.iter().zip(b) {
        past |= *x & !*y;
    }
    past == 0
}

// Whether the two rows have a common atom.
pub fn meets(a: &[u64], b: &[u64]) -> bool
    requires { length a.now ≡ length b.now }
    ensures { result ≡ Set.meets (length a.now * word_bits) (row a.now) (row b.now) }
{
    let mut common = 0u64;
    for (x, y) in a.iter().zip(b) {
        common |= *x & *y;
    }
    common != 0
}

// Whether the two rows have the same atoms.
pub fn equal(a: &[u64], b: &[u64]) -> bool
    requires { length a.now ≡ length b.now }
    ensures { result ≡ Set.same (length a.now * word_bits) (row a.now) (row b.now) }
{
    a == b
}

// Whether the row has no atom.
pub fn empty(words: &[u64]) -> bool
    ensures { result ≡ not (Set.exists (length words.now * word_bits) (row words.now)) }
{
    let mut found = 0;
    for &x in words {
        found |= x;
    }
    found == 0
}

// The number of atoms in the row.
pub fn count(words: &[u64]) -> usize
    requires { length words.now * word_bits < 2 ^ 64 }
    ensures { result ≡ Set.count (length words.now * word_bits) (row words.now) }
{
    let mut n = 0;
    for &word in words {
        n += word.count_ones() as usize;
    }
    n
}

// The first atom of the row at or past a.
pub fn next(words: &[u64], a: usize) -> Option<usize>
    requires { (a ≤ length words.now * word_bits) × (length words.now * word_bits < 2 ^ 64) }
    ensures { MatchOption result (Set.next (length words.now * word_bits - a) (row words.now) a ≡ length words.now * word_bits)
        (λ p. (p ≡ Set.next (length words.now * word_bits - a) (row words.now) a) × (p < length words.now * word_bits)) }
{
    let mut p = a;
    while p < words.len() * Book::WORD_BITS {
        let k = Book::word_of(p);
        let rest = words[k] >> Book::bit_of(p);
        let some = rest != 0;
        if some {
            return Some(p + rest.trailing_zeros() as usize);
        }
        p = (k + 1) * Book::WORD_BITS;
    }
    None
}

// Whether the row has no atom at or past a.
pub fn ends(words: &[u64], a: usize) -> bool
    requires { (a ≤ length words.now * word_bits) × (length words.now * word_bits < 2 ^ 64) }
    ensures { result ≡ Set.within (length words.now * word_bits) (row words.now) (λ k. ltb k a) }
{
    next(words, a).is_none()
}

// Atom a joins the row.
pub fn insert(words: &mut [u64], a: usize)
    requires { a < length words.old * word_bits }
    ensures { words.new ≡ pack (length words.old) (union (row words.old) (only a)) }
{
    words[Book::word_of(a)] |= 1 << Book::bit_of(a);
}

// The atoms of row `from` join row `to`.
pub fn unite(to: &mut [u64], from: &[u64])
    requires { length from.now ≡ length to.old }
    ensures { to.new ≡ pack (length to.old) (union (row to.old) (row from.now)) }
{
    // of a loop over `to.iter_mut().zip(from)` nothing is known of what `to` ends as
    for j in 0..from.len() {
        to[j] |= from[j];
    }
}
