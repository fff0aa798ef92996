//! The variables that a call begins with.

ghost use Rattle.std.specs.Prelude.{◌≡◌, ◌++◌, map, IfOk, OnOk};
ghost use Rattle.mv_eval.specs.declared.state.Content.TheVariants.{Scalar};
ghost use Rattle.mv_eval.specs.TableAfter.{argument_held, entered};

use crate::state::{Content, Env};
use mv_catalog::resolved::ProcInfo;
use mv_values::calls::{Argument, Call};
use mv_values::copied::Copied;
use mv_values::list::List;
use mv_values::memory::NoMemory;
use mv_values::value::Value;
use std::alloc::Global;

/// Returns what a variable holds after it is given the argument.
fn contents_of(alloc: Global, argument: &Argument) -> Result<Content, NoMemory>
    ensures { IfOk result (λ h. h ≡ argument_held argument.now) }
{
    match argument {
        Argument::One(v) => Ok(Content::Scalar(v.copy(alloc)?)),
        Argument::Many(rows) => Ok(Content::Turns(rows.copy(alloc)?)),
    }
}

/// Returns what the variables of the parameters hold, with room for so many variables.
fn parameters(alloc: Global, arguments: &[Argument], room: usize) -> Result<List<Content>, NoMemory>
    ensures { IfOk result (λ all. all ≡ map argument_held arguments.now) }
{
    let mut all = List::with_room(alloc, room)?;
    for argument in arguments {
        all.push(contents_of(alloc, argument)?)?;
    }
    Ok(all)
}

/// Adds the declared variables, which begin with these values.
fn add_declared(alloc: Global, all: &mut List<Content>, values: &[Value]) -> Result<(), NoMemory>
    ensures { OnOk result (all.new ≡ all.old ++ map Scalar values.now) }
{
    for value in values {
        all.push(Content::Scalar(value.copy(alloc)?))?;
    }
    Ok(())
}

/// Returns the variables that a call begins with: its arguments, then the declared variables, then `:found` with 0.
/// Copies all values. Fails if memory runs out.
pub fn variables_for(alloc: Global, procedure: &ProcInfo, call: &Call) -> Result<Env, NoMemory>
    ensures { IfOk result (λ env. env ≡ entered procedure.now call.now) }
{
    let arguments = call.arguments.as_slice();
    let defaults = procedure.defaults.as_slice();
    let room = arguments
        .len()
        .saturating_add(defaults.len())
        .saturating_add(1);
    let mut all = parameters(alloc, arguments, room)?;
    add_declared(alloc, &mut all, defaults)?;
    let found = all.len();
    all.push(Content::Scalar(Value::Int(0)))?;
    Ok(Env { held: all, found })
}
