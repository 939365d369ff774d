// The public call that folds rows, each fold from the rows before it, by turns into the spare and back; and its work without the tests.
#![tactic(auto)]

ghost use Rattle.std.specs.Prelude.{◌≡◌, true, ◌&&◌, [], ◌+◌, ◌*◌, ◌<◌, ◌≤◌, length};
ghost use Rattle.limits.specs.Book.{atoms, folds, word_bits, row_words, row_area};
ghost use Rattle.limits.specs.Refusal.{number_in};
ghost use Rattle.sets.specs.Set.{exists, union};
ghost use Rattle.areas.specs.Area.{begun, filled, cleared, Clear};
ghost use Rattle.words.specs.Row.{bit, row, pack};
ghost use Rattle.program.specs.System.{unfold_once};
ghost use Rattle.systems.specs.Rows.{row_in, packed, formed_rows};
ghost use Rattle.systems.specs.Fold.{folded_area, fold_call};

use limits::{Book, Refusal};
use rows::clear::{clear, clear_stale};
use rows::row;
use std::marker::Model;

// The rows before a fold, in an area of their stated size.
#[derive(Drop)]
struct Rows<'a> {
    words: &'a [u64],
}

impl<'a> Model for Rows<'a> {
    ghost use Rattle.std.specs.Prelude.{List, ℕ, ◌≤◌, length};
    ghost use Rattle.limits.specs.Book.{row_area};

    ghost Value = { List ℕ };

    ghost view = { λ r. r.words.now };

    ghost invariant = { λ r. row_area ≤ length r.words.now };
}

impl<'a> Rows<'a> {
    // The rows of the atoms that `word` names, as word k of a row, join the row `to`. Each turn takes the lowest bit out of the rest; its place
    // goes by `as`, since `usize` has no `From<u32>`. By `Members` a full row takes 1.7 times the instructions: a change may cost 3 %.
    #[tactic(auto, using(crate::proofs::Uniting::uniting_words))]
    fn fold_word(&self, to: &mut [u64], word: u64, k: usize)
        requires { (k < row_words) × (length to.old ≡ row_words) }
        ensures { to.new ≡ pack row_words
            (union (row to.old) (λ a. exists word_bits (λ b. bit word b && row_in row_words self.now (k * word_bits + b) a))) }
    {
        let mut rest = word;
        while rest != 0 {
            let j = k * Book::WORD_BITS + rest.trailing_zeros() as usize;
            row::unite(to, row::nth(self.words, j, Book::ROW_WORDS));
            rest &= rest - 1;
        }
    }

    // Row i after the fold: the union of the rows j for all j in row i.
    #[tactic(auto, using(crate::proofs::Uniting::folding))]
    fn fold_row(&self, i: usize) -> [u64; Book::ROW_WORDS]
        requires { i < atoms }
        ensures { result ≡ pack row_words (unfold_once atoms (row_in row_words self.now) i) }
    {
        let mut new = [0; Book::ROW_WORDS];
        for (k, &word) in row::nth(self.words, i, Book::ROW_WORDS).iter().enumerate() {
            self.fold_word(&mut new, word, k);
        }
        new
    }

    // The first count rows after the fold are put into `to`. A part that is written is cut where it is used: a function that hands one out tells
    // what the area ends as by `Lends` alone, a longer clause.
    #[tactic(auto, using(crate::proofs::Uniting::putting))]
    fn fold(&self, to: &mut [u64], count: usize)
        requires { (count ≤ atoms) × (row_area ≤ length to.old) }
        ensures { to.new ≡ begun (packed row_words count (unfold_once atoms (row_in row_words self.now))) to.old }
    {
        for i in 0..count {
            let at = Book::row_at(i);
            to[at..at + Book::ROW_WORDS].copy_from_slice(&self.fold_row(i));
        }
    }
}

// k folds of the first count rows by turns into the spare and back; no row is copied but after an odd number of them. The rows of the spare are
// zero then; what it has past them is left.
// The areas stay two parameters, here and in `fold_formed`: a struct of two `&mut` areas needs one clause more at each function that takes it, that
// they stay the same areas.
fn fold_turns(all: &mut [u64], spare: &mut [u64], count: usize, k: usize)
    requires { (count ≤ atoms) × (k ≤ folds) × (row_area ≤ length all.old) × (row_area ≤ length spare.old)
        × (formed_rows row_words atoms count all.old ≡ true) }
    ensures all { all.new ≡ folded_area k count all.old }
    ensures spare { spare.new ≡ cleared 0 (count * row_words) spare.old }
{
    for _ in 0..k / 2 {
        Rows { words: all }.fold(spare, count);
        Rows { words: spare }.fold(all, count);
    }
    let used = Book::row_at(count);
    let odd = k % 2 == 1;
    if odd {
        Rows { words: all }.fold(spare, count);
        all[..used].copy_from_slice(&spare[..used]);
    }
    clear(spare, 0, used);
}

// k folds of the first count rows, after which the spare is zero. For a caller that knows its rows to be in order, as after standardising:
// they are not judged again. Nor is a spare cleared past them that it knows to be clear (fresh).
// `fresh` is a fact of the spare that the caller has: a closure or a type for the clearing would need the same condition in more words. `count` stays
// a number with `count ≤ atoms` beside it: a type for it would be made at each call and taken apart at once.
pub fn fold_formed(all: &mut [u64], spare: &mut [u64], count: usize, k: usize, fresh: bool)
    requires { (count ≤ atoms) × (k ≤ folds) × (row_area ≤ length all.old) × (row_area ≤ length spare.old)
        × (formed_rows row_words atoms count all.old ≡ true) × (fresh ≡ true → Clear row_area spare.old) }
    ensures all { all.new ≡ folded_area k count all.old }
    ensures spare { spare.new ≡ filled row_area [] spare.old }
{
    fold_turns(all, spare, count, k);
    clear_stale(spare, Book::row_at(count), Book::ROW_AREA, fresh);
}

// Judges the rows of count atoms, makes k folds of them, and clears the spare; a refusal leaves all as it was.
#[tactic(auto, using(crate::proofs::Outcomes::refusing))]
pub fn fold(all: &mut [u64], spare: &mut [u64], count: usize, k: usize) -> Result<(), Refusal>
    ensures { record { number = number_in result; all = all.new; spare = spare.new } ≡ fold_call all.old spare.old count k }
{
    if all.len() < Book::ROW_AREA || spare.len() < Book::ROW_AREA {
        return Err(Refusal::ShortArea);
    }
    if Book::FOLDS < k {
        return Err(Refusal::Folds);
    }
    if !rowcheck::formed(all, count) {
        return Err(Refusal::IllFormed);
    }
    fold_formed(all, spare, count, k, false);
    Ok(())
}
