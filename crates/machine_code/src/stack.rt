//! A stack; its value is the list of its items from the top down.

ghost use Rattle.std.specs.Prelude.{◌≡◌, ◌≤◌, [], ◌∷◌, IfErr, length, slice_get, reverse, take, drop, MatchOption, OnOk};
ghost use Rattle.std.specs.Option.{option_copied};

use std::alloc::{AllocError, Global};
use std::marker::Model;

/// Items; the last one that was pushed is popped first.
#[derive(Drop)]
pub struct Stack<T: Drop> {
    items: Vec<T>,
}

impl<T: Drop> Model for Stack<T> {
    ghost use Rattle.std.specs.Prelude.{List, reverse};

    ghost Value = { List T };

    ghost view = { λ s. reverse s.items.items };
}

impl<T: Drop> Stack<T> {
    /// An empty stack.
    pub fn new(alloc: Global) -> Self
        ensures { result ≡ [] }
    {
        Stack {
            items: Vec::new(alloc),
        }
    }

    /// The number of items.
    pub fn len(&self) -> usize
        ensures { result ≡ length self.now }
    {
        self.items.len()
    }

    /// Pushes an item.
    #[inline(always)]
    pub fn push(&mut self, item: T) -> Result<(), AllocError>
        ensures pushed { OnOk result (self.new ≡ item ∷ self.old) }
        ensures kept { IfErr result (λ _. self.new ≡ self.old) }
    {
        self.items.push(item)?;
        Ok(())
    }

    /// Pops the top, if there is one.
    #[inline(always)]
    pub fn pop(&mut self) -> Option<T>
        ensures { MatchOption result ((self.old ≡ []) × (self.new ≡ []))
            (λ item. self.old ≡ item ∷ self.new) }
    {
        self.items.pop()
    }

    /// The item below so many others.
    #[inline(always)]
    pub fn peek(&self, depth: usize) -> Option<&T>
        ensures { option_copied result ≡ slice_get self.now depth }
    {
        let len = self.items.len();
        if depth < len {
            return Some(&self.items[len - 1 - depth]);
        }
        None
    }

    /// The topmost `count` items; the lowest is the first.
    pub fn top(&self, count: usize) -> &[T]
        requires { count ≤ length self.now }
        ensures { result.now ≡ reverse (take count self.now) }
    {
        let len = self.items.len();
        &self.items[len - count..]
    }

    /// Replaces the top by an item.
    #[inline(always)]
    pub fn replace_top(&mut self, item: T)
        requires { 1 ≤ length self.old }
        ensures { self.new ≡ item ∷ drop 1 self.old }
    {
        let at = self.items.len() - 1;
        self.items[at] = item;
    }

    /// Drops the topmost `count` items.
    pub fn drop_top(&mut self, count: usize)
        requires { count ≤ length self.old }
        ensures { self.new ≡ drop count self.old }
    {
        let at = self.items.len() - count;
        self.items.truncate(at);
    }
}
