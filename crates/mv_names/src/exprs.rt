//! Types and faults of expressions.

ghost use Rattle.std.specs.Prelude.{◌≡◌, ◌++◌, OnOk, IfOk};
ghost use Rattle.std.specs.Option.{option_copied};
ghost use Rattle.mv_names.specs.Scope.{entry_of, type_in, type_of_value, type_among};
ghost use Rattle.mv_names.specs.Typing.{clash, misfit, read_type, read_faults, of_turn_type, of_turn_faults, field_type, missing_field, field_named, column_faults, type_of, faults_of, in_place, judged, placed, one_wants, one_gives, left_wants, right_wants, two_gives};

use crate::fault::{TokenFault, add_if};
use crate::index::Index;
use crate::named::find;
use crate::nested::Scope;
use crate::scope::{Binding, Entry, Field, ValueType};
use mv_ast::tree::{ColDef, Expr, ExprKind, Name, OneOp, TwoOp};
use mv_values::list::List;
use mv_values::memory::NoMemory;
use mv_values::schema::ColType;
use mv_values::value::Value;

/// Returns the type of a column's values.
pub(crate) fn column_kind(kind: ColType) -> ValueType
    ensures { result ≡ type_in kind }
{
    match kind {
        ColType::Int => ValueType::Int,
        ColType::Text(_) => ValueType::Text,
    }
}

pub(crate) fn value_kind(value: &Value) -> ValueType
    ensures { result ≡ type_of_value value.now }
{
    match value {
        Value::Int(_) => ValueType::Int,
        Value::Text(_) => ValueType::Text,
    }
}

/// Whether two types exclude each other.
pub(crate) fn do_clash(place: ValueType, kind: ValueType) -> bool
    ensures { result ≡ clash place kind }
{
    match (place, kind) {
        (ValueType::Int, ValueType::Text) | (ValueType::Text, ValueType::Int) => true,
        _ => false,
    }
}

/// Reports a value whose type doesn't fit its place.
pub(crate) fn check_fit(
    faults: &mut List<TokenFault>,
    place: ValueType,
    token: u32,
    kind: ValueType,
) -> Result<(), NoMemory>
    ensures { OnOk result (faults.new ≡ faults.old ++ misfit place token kind) }
{
    add_if(faults, do_clash(place, kind), TokenFault::wrong(token))
}

/// Checks a name read as a value, in an expression that begins at this token. Returns its type.
fn check_variable(
    scope: &Scope<'_, Entry>,
    name: &Name,
    token: u32,
    faults: &mut List<TokenFault>,
) -> Result<ValueType, NoMemory>
    ensures kind { IfOk result (λ t. t ≡ read_type (entry_of scope.now name.now.text)) }
    ensures faults { OnOk result (faults.new ≡ faults.old ++ read_faults name.now token (entry_of scope.now name.now.text)) }
{
    match scope.find(&name.text) {
        None => {
            faults.push(TokenFault::unknown(name.token))?;
            Ok(ValueType::Unknown)
        }
        Some(entry) => match &entry.binding {
            Binding::Fixed(kind) => Ok(*kind),
            Binding::Variable(kind) => Ok(*kind),
            Binding::Rows(_) => {
                faults.push(TokenFault::wrong(token))?;
                Ok(ValueType::Unknown)
            }
            Binding::Turn(_) => {
                faults.push(TokenFault::wrong(token))?;
                Ok(ValueType::Unknown)
            }
        },
    }
}

/// Checks a column among the fields of a loop's row. Returns its type.
fn check_in_turn(
    fields: &[Field],
    name: &Name,
    faults: &mut List<TokenFault>,
) -> Result<ValueType, NoMemory>
    ensures kind { IfOk result (λ t. t ≡ field_type (field_named fields.now name.now)) }
    ensures faults { OnOk result (faults.new ≡ faults.old ++ missing_field name.now.token (field_named fields.now name.now)) }
{
    match find(fields, &name.text) {
        None => {
            faults.push(TokenFault::unknown(name.token))?;
            Ok(ValueType::Unknown)
        }
        Some(field) => Ok(field.kind),
    }
}

/// Checks a column of a loop's row, in an expression that begins at this token. Returns its type.
fn check_field(
    scope: &Scope<'_, Entry>,
    row: &Name,
    name: &Name,
    token: u32,
    faults: &mut List<TokenFault>,
) -> Result<ValueType, NoMemory>
    ensures kind { IfOk result (λ t. t ≡ of_turn_type (entry_of scope.now row.now.text) name.now) }
    ensures faults { OnOk result (faults.new ≡ faults.old ++ of_turn_faults row.now token (entry_of scope.now row.now.text) name.now) }
{
    match scope.find(&row.text) {
        None => {
            faults.push(TokenFault::unknown(row.token))?;
            Ok(ValueType::Unknown)
        }
        Some(entry) => match &entry.binding {
            Binding::Turn(fields) => check_in_turn(fields.as_slice(), name, faults),
            _ => {
                faults.push(TokenFault::wrong(token))?;
                Ok(ValueType::Unknown)
            }
        },
    }
}

/// Reports a column that doesn't exist in an existing table. Returns the column's type; unknown if the table or the
/// column doesn't exist.
pub(crate) fn check_column(
    columns: Option<&Index<'_, ColDef>>,
    name: &Name,
    faults: &mut List<TokenFault>,
) -> Result<ValueType, NoMemory>
    ensures kind { IfOk result (λ t. t ≡ type_among (option_copied columns.entry) name.now.text) }
    ensures faults { OnOk result (faults.new ≡ faults.old ++ column_faults (option_copied columns.entry) name.now) }
{
    match columns {
        None => Ok(ValueType::Unknown),
        Some(columns) => match columns.find(&name.text) {
            None => {
                faults.push(TokenFault::unknown(name.token))?;
                Ok(ValueType::Unknown)
            }
            Some(column) => Ok(column_kind(column.kind)),
        },
    }
}

fn wanted_by_one(_op: OneOp) -> ValueType
    ensures { result ≡ one_wants _op }
{
    ValueType::Int
}

fn given_by_one(op: OneOp) -> ValueType
    ensures { result ≡ one_gives op }
{
    match op {
        OneOp::Neg | OneOp::Not => ValueType::Int,
        OneOp::TextOf => ValueType::Text,
    }
}

/// Returns the type that an operator takes on its left.
fn wanted_left(op: TwoOp) -> ValueType
    ensures { result ≡ left_wants op }
{
    match op {
        TwoOp::Add | TwoOp::Sub | TwoOp::Mul | TwoOp::Div | TwoOp::Rem => ValueType::Int,
        TwoOp::And | TwoOp::Or => ValueType::Int,
        TwoOp::Join | TwoOp::Left | TwoOp::Contains => ValueType::Text,
        TwoOp::Compare(_) => ValueType::Unknown,
    }
}

/// Returns the type that an operator takes on its right, given the type of its left side.
fn wanted_right(op: TwoOp, left: ValueType) -> ValueType
    ensures { result ≡ right_wants op left }
{
    match op {
        TwoOp::Add | TwoOp::Sub | TwoOp::Mul | TwoOp::Div | TwoOp::Rem => ValueType::Int,
        TwoOp::And | TwoOp::Or | TwoOp::Left => ValueType::Int,
        TwoOp::Join | TwoOp::Contains => ValueType::Text,
        TwoOp::Compare(_) => left,
    }
}

fn given_by_two(op: TwoOp) -> ValueType
    ensures { result ≡ two_gives op }
{
    match op {
        TwoOp::Add | TwoOp::Sub | TwoOp::Mul | TwoOp::Div | TwoOp::Rem => ValueType::Int,
        TwoOp::And | TwoOp::Or | TwoOp::Compare(_) | TwoOp::Contains => ValueType::Int,
        TwoOp::Join | TwoOp::Left => ValueType::Text,
    }
}

/// Adds the faults of an expression and returns its type.
#[cycle(judging)]
pub(crate) fn check_expr(
    scope: &Scope<'_, Entry>,
    columns: Option<&Index<'_, ColDef>>,
    e: &Expr,
    faults: &mut List<TokenFault>,
) -> Result<ValueType, NoMemory>
    ensures kind { IfOk result (λ t. t ≡ type_of scope.now (option_copied columns.entry) e.now) }
    ensures faults { OnOk result (faults.new ≡ faults.old ++ faults_of scope.now (option_copied columns.entry) e.now) }
{
    match &e.kind {
        ExprKind::Const(value) => Ok(value_kind(value)),
        ExprKind::Var(name) => check_variable(scope, name, e.token, faults),
        ExprKind::Field(row, name) => check_field(scope, row, name, e.token, faults),
        ExprKind::Col(name) => check_column(columns, name, faults),
        ExprKind::One(op, a) => {
            check_operand(wanted_by_one(*op), scope, columns, a.get(), faults)?;
            Ok(given_by_one(*op))
        }
        ExprKind::Two(op, a, b) => {
            let left = check_operand(wanted_left(*op), scope, columns, a.get(), faults)?;
            check_operand(wanted_right(*op, left), scope, columns, b.get(), faults)?;
            Ok(given_by_two(*op))
        }
    }
}

/// Adds the faults of an expression in a place of this type, misfit included. Returns the expression's type.
#[cycle(judging)]
pub(crate) fn check_operand(
    place: ValueType,
    scope: &Scope<'_, Entry>,
    columns: Option<&Index<'_, ColDef>>,
    e: &Expr,
    faults: &mut List<TokenFault>,
) -> Result<ValueType, NoMemory>
    ensures kind { IfOk result (λ t. t ≡ type_of scope.now (option_copied columns.entry) e.now) }
    ensures faults { OnOk result (faults.new ≡ faults.old ++ in_place place (judged e.now scope.now (option_copied columns.entry))) }
{
    let kind = check_expr(scope, columns, e, faults)?;
    check_fit(faults, place, e.token, kind)?;
    Ok(kind)
}

/// Checks an expression in a place of this type. It may not contain bare columns.
pub(crate) fn check_placed(
    place: ValueType,
    scope: &Scope<'_, Entry>,
    e: &Expr,
    faults: &mut List<TokenFault>,
) -> Result<(), NoMemory>
    ensures { OnOk result (faults.new ≡ faults.old ++ placed place scope.now e.now) }
{
    let none = Index::none();
    check_operand(place, scope, Some(&none), e, faults)?;
    Ok(())
}
