//! Look-up by name. If several items share a name, the first is found.

ghost use Rattle.std.specs.Prelude.{◌≡◌, ℕ, List};
ghost use Rattle.std.specs.Option.{option_copied};
ghost use Rattle.mv_names.specs.Named.{is_named, first_named, place_named};

use mv_ast::tree::{ColDef, Name, ProcDef};
use mv_values::txt::Txt;

/// An item that has a name.
pub trait Named {
    /// The item's name.
    ghost name_of: { Self → List ℕ };

    /// Borrows the item's name.
    fn name(&self) -> &Txt
        ensures { result.now ≡ name_of self.now };
}

impl Named for Name {
    ghost name_of = { λ n. n.text };

    fn name(&self) -> &Txt {
        &self.text
    }
}

impl Named for Txt {
    ghost name_of = { λ t. t };

    fn name(&self) -> &Txt {
        self
    }
}

impl Named for ColDef {
    ghost name_of = { λ c. c.name.text };

    fn name(&self) -> &Txt {
        &self.name.text
    }
}

impl Named for ProcDef {
    ghost name_of = { λ p. p.name.text };

    fn name(&self) -> &Txt {
        &self.name.text
    }
}

/// Whether an item has the name. Searches linearly.
pub fn has_name<T: Named>(items: &[T], name: &Txt) -> bool
    ensures { result ≡ is_named T.name_of items.now name.now }
{
    for item in items {
        if item.name() == name {
            return true;
        }
    }
    false
}

/// Returns the first item with the name. Searches linearly.
pub fn find<'a, T: Named>(items: &'a [T], name: &Txt) -> Option<&'a T>
    ensures { option_copied result ≡ first_named T.name_of items.now name.now }
{
    for item in items {
        if item.name() == name {
            return Some(item);
        }
    }
    None
}

/// Returns the index of the first item with the name, or the number of items if none has it. Searches linearly.
pub fn place<T: Named>(items: &[T], name: &Txt) -> usize
    ensures { result ≡ place_named T.name_of items.now name.now }
{
    for i in 0..items.len() {
        if items[i].name() == name {
            return i;
        }
    }
    items.len()
}
