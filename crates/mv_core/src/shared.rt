//! A script that several owners read.

ghost use Rattle.std.specs.Prelude.{◌≡◌, IfOk};

use mv_script::script::CompiledScript;
use mv_values::memory::NoMemory;
use std::alloc::Global;
use std::marker::Model;
use std::sync::Arc;

/// A script with several owners, in any threads. Contracts see the script.
#[derive(Drop)]
pub struct SharedScript {
    script: Arc<CompiledScript, Global>,
}

impl Model for SharedScript {
    ghost use Rattle.std.specs.Coded.{codes};
    ghost use Rattle.std.specs.Arc.{arc_value};
    ghost use Rattle.mv_catalog.specs.contracts.resolved.RStmt as statement;
    ghost use Rattle.mv_script.specs.declared.script.CompiledScript.{CompiledScript as ScriptValue};

    ghost Value = { ScriptValue };

    ghost coded = { Prim.hlevel (codes, statement.the_row.coded) };

    ghost view = { λ s. arc_value s.script };
}

impl SharedScript {
    /// Returns the first owner of a script. Fails with `NoMemory` if memory runs out.
    pub fn new(alloc: Global, script: CompiledScript) -> Result<SharedScript, NoMemory>
        ensures { IfOk result (λ shared. shared ≡ script) }
    {
        let script = Arc::new(alloc, script)?;
        Ok(SharedScript { script })
    }

    /// Returns one more owner of the script. Fails with `NoMemory` if there are too many.
    pub fn share(&self) -> Result<SharedScript, NoMemory>
        ensures { IfOk result (λ shared. shared ≡ self.now) }
    {
        let script = Arc::try_clone(&self.script)?;
        Ok(SharedScript { script })
    }

    /// Returns the script.
    pub fn get(&self) -> &CompiledScript
        ensures { result.now ≡ self.now }
    {
        &self.script
    }
}
