// What is checked: the words of a store for n items, in one of the two orders.
ghost use Rattle.std.specs.Prelude.{◌≡◌, ℕ, ◌<◌, ◌≤◌};
ghost use Rattle.rules.specs.declared.Field.{Field};
ghost use Rattle.rules.specs.Words.{field_size, look_in};
ghost use Rattle.store.specs.Says.{Sized};

use rules::{Field, Layout};
use store::get_in;

#[derive(Clone, Copy)]
pub struct View<'a> {
    pub words: &'a [u32],
    pub layout: Layout,
    pub n: usize,
    pub ghost sized: { Sized n words.now },
    pub ghost fits: { (f : Field) (i : ℕ) → look_in layout n words.now f i ≤ 4294967295 },
}

impl View<'_> {
    // Word i of a kind, as a number of any width.
    pub fn word(&self, field: Field, i: usize) -> usize
        requires { i < field_size self.now.n field }
        ensures is { result ≡ look_in self.now.layout self.now.n self.now.words.now field i }
        ensures most { result ≤ 4294967295 }
    {
        get_in(self.words, self.layout, self.n, field, i as u32) as usize
    }
}
