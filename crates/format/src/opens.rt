//! The elements that are open at a place of a table in preorder: those whose children have not all been passed.
use arrayvec::ArrayVec;
use std::marker::Model;

/// An open element: how many of its children are still to come, and what is told of it.
#[derive(Clone, Copy, Debug, Default)]
pub struct Open<T> {
    pub left: u16,
    pub told: T,
}

/// At most N open elements, each below the one before: a list of them, the innermost first.
#[derive(Drop)]
pub struct OpenElements<T, const N: usize> {
    frames: ArrayVec<Open<T>, N>,
}

impl<T, const N: usize> Model for OpenElements<T, N> {
    ghost use Rattle.std.specs.Prelude.{List, reverse};
    ghost use Rattle.format.specs.declared.opens.Open.{Open};

    ghost Value = { List (Open T) };

    ghost view = { λ s. reverse s.frames.items };
}

impl<T: Copy + Default, const N: usize> OpenElements<T, N> {
    ghost use Rattle.std.specs.Prelude.{◌≡◌, ◌<◌, [], ◌∷◌, length};
    ghost use Rattle.std.specs.Option.{option_map};
    ghost use Rattle.std.specs.List.{slice_get};
    ghost use Rattle.format.specs.Opens.{fewer};

    /// No open element.
    pub fn new() -> OpenElements<T, N>
        ensures { result ≡ [] }
    {
        OpenElements {
            frames: ArrayVec::new(),
        }
    }

    /// What is told of the innermost.
    pub fn innermost(&self) -> Option<T>
        ensures { result ≡ option_map (λ o. o.told) (slice_get self.now 0) }
    {
        self.frames.last().map(|top| top.told)
    }

    /// One more, within the others, with so many children.
    pub fn open(&mut self, left: u16, told: T)
        requires { length self.old < N }
        ensures { self.new ≡ record { left = left; told = told } ∷ self.old }
    {
        self.frames.push(Open { left, told });
    }

    /// Takes one child of the innermost, which is closed with its last one.
    pub fn take_child(&mut self)
        ensures { self.new ≡ fewer self.old }
    {
        match self.frames.last_mut() {
            Some(top) if top.left > 1 => top.left -= 1,
            _ => {
                self.frames.pop();
            }
        }
    }
}
