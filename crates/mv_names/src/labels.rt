//! Duplicate names.

ghost use Rattle.std.specs.Prelude.{◌≡◌, ◌++◌, map, OnOk};
ghost use Rattle.mv_names.specs.Statements.{doubles};

use crate::fault::{TokenFault, add_if};
use crate::named::Named;
use crate::nested::Scope;
use mv_ast::tree::{ColDef, Name, Param, ProcDef, SetItem, TableDef, VarDef};
use mv_values::list::List;
use mv_values::memory::NoMemory;
use mv_values::txt::Txt;
use std::marker::Model;

/// An item whose name has a position in the text.
pub(crate) trait Labelled {
    ghost use Rattle.mv_ast.specs.declared.tree.Name.{Name};

    /// The item's name.
    ghost label_of: { Self → Name };

    /// Borrows the item's name.
    fn label(&self) -> &Name
        ensures { result.now ≡ label_of self.now };
}

impl Labelled for Name {
    ghost label_of = { λ n. n };

    fn label(&self) -> &Name {
        self
    }
}

impl Labelled for ColDef {
    ghost label_of = { λ c. c.name };

    fn label(&self) -> &Name {
        &self.name
    }
}

impl Labelled for Param {
    ghost label_of = { λ p. p.name };

    fn label(&self) -> &Name {
        &self.name
    }
}

impl Labelled for VarDef {
    ghost label_of = { λ v. v.name };

    fn label(&self) -> &Name {
        &self.name
    }
}

impl Labelled for TableDef {
    ghost label_of = { λ t. t.name };

    fn label(&self) -> &Name {
        &self.name
    }
}

impl Labelled for ProcDef {
    ghost label_of = { λ p. p.name };

    fn label(&self) -> &Name {
        &self.name
    }
}

impl Labelled for SetItem {
    ghost label_of = { λ i. i.column };

    fn label(&self) -> &Name {
        &self.column
    }
}

/// A name that is taken. Contracts see the name.
#[derive(Drop)]
pub(crate) struct Taken<'a> {
    name: &'a Txt,
}

impl<'a> Model for Taken<'a> {
    ghost use Rattle.std.specs.Prelude.{List, ℕ};

    ghost Value = { List ℕ };

    ghost view = { λ t. t.name.now };
}

impl<'a> Named for Taken<'a> {
    ghost name_of = { λ n. n };

    fn name(&self) -> &Txt {
        self.name
    }
}

impl<'a> Taken<'a> {
    /// Returns the name as one that is taken.
    pub(crate) fn of(name: &'a Txt) -> Taken<'a>
        ensures { result ≡ name.now }
    {
        Taken { name }
    }
}

/// Reports each name that is taken or occurs earlier in `items`, then adds all names to `taken`. Costs at most three
/// hashes of each name.
pub(crate) fn check_doubles<'a, T: Labelled>(
    taken: &mut Scope<'a, Taken<'a>>,
    items: &'a [T],
    faults: &mut List<TokenFault>,
) -> Result<(), NoMemory>
    ensures faults { OnOk result (faults.new ≡ faults.old ++ doubles T.label_of taken.old items.now) }
    ensures taken { OnOk result (taken.new ≡ taken.old ++ map (λ x. (T.label_of x).text) items.now) }
{
    for item in items {
        let name = item.label();
        add_if(
            faults,
            taken.has(&name.text),
            TokenFault::double(name.token),
        )?;
        taken.push(name.text.as_slice(), Taken::of(&name.text))?;
    }
    Ok(())
}
