// The entries of a lent area, by their numbers; and definitions and laws: what stands in such an area, for elements of any width.
#![tactic(auto)]

ghost use Rattle.std.specs.Prelude.{◌≡◌, ℕ, refl};
ghost use Rattle.std.proofs.Common.{rules};

// What a lent area has in each place: a value that stands for a number.
pub trait Entry: Copy {
    ghost number: { Self → ℕ };

    ghost ZERO: { Self };

    const ZERO: Self;

    fn number(self) -> u64
        ensures { result ≡ number self };

    ghost zero: { number ZERO ≡ 0 };

    // A clone of an entry is that entry.
    ghost clones: { (x y : Self) → Self.Clone.is_infallible x × (Self.Clone.is_clone x y → y ≡ x) };
}

// The impls differ in the type alone, and are written out: the gate takes no impl that a macro of the repository wrote.
impl Entry for u8 {
    ghost number = { λ n. n };

    ghost ZERO = { 0 };

    const ZERO: u8 = 0;

    ghost zero = { refl };

    ghost clones = { Prim.search rules };

    fn number(self) -> u64 {
        u64::from(self)
    }
}

impl Entry for u16 {
    ghost number = { λ n. n };

    ghost ZERO = { 0 };

    const ZERO: u16 = 0;

    ghost zero = { refl };

    ghost clones = { Prim.search rules };

    fn number(self) -> u64 {
        u64::from(self)
    }
}

impl Entry for u64 {
    ghost number = { λ n. n };

    ghost ZERO = { 0 };

    const ZERO: u64 = 0;

    ghost zero = { refl };

    ghost clones = { Prim.search rules };

    fn number(self) -> u64 {
        self
    }
}
