// A list that was lent to be filled, and the next place in it.
ghost use Rattle.std.specs.Prelude.{◌≡◌, [], ◌∷◌};
ghost use Rattle.text.specs.Writing.{HasRoom, Writes};

// What is pushed is stored from `at` on, and `at` is behind it then.
#[derive(Drop)]
pub struct Lent<'a, T> {
    pub list: &'a mut [T],
    pub at: usize,
}

impl<'a, T: Copy> Lent<'a, T> {
    // A list that is filled from its start.
    pub fn new(list: &'a mut [T]) -> Lent<'a, T>
        ensures same_list { result.list.ghost_name ≡ list.entry.ghost_name }
        ensures as_it_was { result.list.now ≡ list.old }
        ensures at_start { result.at ≡ 0 }
    {
        Lent { list, at: 0 }
    }

    // One element.
    pub fn push(&mut self, element: T)
        requires { HasRoom self.old (element ∷ []) }
        ensures { Writes self.old (element ∷ []) self.new }
    {
        self.list[self.at] = element;
        self.at += 1;
    }

    // All elements of a slice.
    pub fn extend_from_slice(&mut self, elements: &[T])
        requires { HasRoom self.old elements.now }
        ensures { Writes self.old elements.now self.new }
    {
        let end = self.at + elements.len();
        self.list[self.at..end].copy_from_slice(elements);
        self.at = end;
    }
}
