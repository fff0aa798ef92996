//! Keys of tables.

ghost use Rattle.std.specs.Prelude.{◌≡◌, ◌<◌, true, false, [], length, IfOk, OnOk, List};
ghost use Rattle.std.specs.List.{filter, list_any};
ghost use Rattle.mv_values.specs.declared.value.Value.{Value};
ghost use Rattle.mv_values.specs.Preds.{admits};
ghost use Rattle.mv_table.specs.Spans.{is_within, IsForward};
ghost use Rattle.mv_repair.specs.Keys.{has_key, KeepsKeys};

use crate::paths::item;
use mv_table::key_map::KeyMap;
use mv_table::span::Span;
use mv_values::list::List;
use mv_values::memory::NoMemory;
use mv_values::pred_ref::PredRef;
use mv_values::value::Key;
use std::alloc::Global;
use std::marker::Model;

/// Keys of tables. Contracts see those of each table, in key order.
#[derive(Drop)]
pub(crate) struct Keys {
    tables: List<KeyMap<()>>,
}

impl Model for Keys {
    ghost use Rattle.std.specs.Prelude.{List as Seq};
    ghost use Rattle.mv_repair.specs.Keys.{TableKeys};

    ghost Value = { Seq TableKeys };

    ghost view = { λ k. k.tables };
}

/// Whether the predicate admits one of the keys in the span. Looks at each of these.
fn admits_within(keys: &KeyMap<()>, span: &Span, pred: &PredRef<'_>) -> bool
    requires { IsForward span.now }
    ensures { result ≡ list_any (λ e. admits pred.now e.0) (filter (λ e. is_within span.now e.0) keys.now) }
{
    for (key, _) in keys.range(span) {
        if pred.admits(key) {
            return true;
        }
    }
    false
}

impl Keys {
    /// Returns no keys. Allocates nothing.
    pub(crate) fn new(alloc: Global) -> Keys
        ensures { result ≡ [] }
    {
        Keys {
            tables: List::new(alloc),
        }
    }

    /// Makes place for the keys of a table.
    fn widen(&mut self, alloc: Global, table: u8) -> Result<(), NoMemory>
        ensures there { OnOk result (table < length self.new) }
        ensures still { OnOk result (KeepsKeys self.old self.new) }
    {
        while self.tables.len() <= table as usize {
            self.tables.push(KeyMap::new(alloc))?;
        }
        Ok(())
    }

    /// Adds a key of a table. Costs the logarithm of the number of the table's keys. If memory runs out, the keys of the
    /// table are lost.
    pub(crate) fn add(&mut self, alloc: Global, table: u8, key: Key) -> Result<(), NoMemory>
        ensures added { OnOk result (has_key self.new table key ≡ true) }
        ensures still { OnOk result (KeepsKeys self.old self.new) }
    {
        self.widen(alloc, table)?;
        let mut keys = self.tables.replace(table as usize, KeyMap::new(alloc));
        keys.put(key, ())?;
        self.tables.set(table as usize, keys);
        Ok(())
    }

    /// Whether the predicate admits one of the keys of its table. Costs the logarithm of their number, and a look at each
    /// key in the span that the predicate's tests leave.
    pub(crate) fn admits_one(&self, alloc: Global, pred: &PredRef<'_>) -> Result<bool, NoMemory>
        ensures { IfOk result (λ some. some ≡ false → (key : List Value) → has_key self.now pred.now.table key ≡ true → admits pred.now key ≡ false) }
    {
        let Some(keys) = item(self.tables.as_slice(), pred.table() as usize) else {
            return Ok(false);
        };
        let span = Span::of(alloc, pred.tests())?;
        Ok(admits_within(keys, &span, pred))
    }
}
